// A text that is held only as far as a value may weigh.
ghost use Rattle.std.specs.Prelude.{◌≡◌, OnOk, Some, [], is_none, option_map};
ghost use Rattle.std.specs.String.{string_bytes};
ghost use Rattle.sw_values.specs.Written.{appended};

use crate::limits::MOST_WEIGHT;
use std::alloc::Global;
use std::marker::Model;
use sw_text::Memory;

/// A text while it is written: its bytes, or that it has become too long for a value and isn't held any more.
#[derive(Drop)]
pub struct Written {
    text: String,
    long: bool,
}

impl Model for Written {
    ghost use Rattle.std.specs.Prelude.{List, ℕ, Option, Some, None, if◌then◌else◌, ◌<◌, length};
    ghost use Rattle.std.specs.String.{string_bytes};
    ghost use Rattle.sw_values.specs.Weight.{most};

    ghost Value = { Option (List ℕ) };

    ghost view = { λ written. if written.long then None else Some (string_bytes written.text) };

    ghost invariant = { λ written. length (string_bytes written.text) < most };
}

impl Written {
    /// The empty text, which isn't too long. Takes no memory.
    pub fn new(alloc: Global) -> Written
        ensures { result ≡ Some [] }
    {
        Written {
            text: String::new(alloc),
            long: false,
        }
    }

    /// Whether the text is too long. Takes no memory.
    pub fn is_long(&self) -> bool
        ensures { result ≡ is_none self.now }
    {
        self.long
    }

    /// Writes a text behind what is written.
    #[tactic(auto, unfolding(crate::specs::Written::appended))]
    pub fn push(&mut self, text: &str) -> Result<(), Memory>
        ensures { OnOk result (self.new ≡ appended self.old text.now) }
    {
        if self.long {
            return Ok(());
        }
        if text.len() >= MOST_WEIGHT as usize - self.text.len() {
            self.long = true;
            return Ok(());
        }
        self.text.push_str(text)?;
        Ok(())
    }

    /// The text, unless it is too long. Takes no memory.
    pub fn finish(self) -> Option<String>
        ensures { option_map string_bytes result ≡ self }
    {
        let Written { text, long } = self;
        if long { None } else { Some(text) }
    }
}
