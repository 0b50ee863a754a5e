// Texts that are written bit by bit.
use crate::refusal::Refusal;
use std::alloc::Global;
use std::fmt::Display;

/// A text that is being written. What can't be written, for want of memory or as a library refused it, is left out, and
/// the whole is refused in the end.
#[derive(Drop)]
pub struct TextWriter {
    alloc: Global,
    text: String,
    // The first refusal.
    refusal: Option<Refusal>,
}

impl TextWriter {
    /// Nothing is written yet.
    pub fn new(alloc: Global) -> TextWriter {
        TextWriter {
            alloc,
            text: String::new(alloc),
            refusal: None,
        }
    }

    /// Whether no character is written; what was left out doesn't count.
    pub fn is_empty(&self) -> bool {
        self.text.is_empty()
    }

    /// Writes a text behind the rest; where no memory is found, the whole is refused with `Memory`.
    pub fn text(&mut self, text: &str) {
        if self.text.push_str(text).is_err() {
            self.refuse(Refusal::Memory);
        }
    }

    /// Writes a character behind the rest; where no memory is found, the whole is refused with `Memory`.
    pub fn character(&mut self, character: char) {
        if self.text.push(character).is_err() {
            self.refuse(Refusal::Memory);
        }
    }

    /// A number, or what else is shown to a reader.
    pub fn shown(&mut self, shown: &impl Display) {
        match format!(in self.alloc; "{shown}") {
            Ok(text) => self.text(text.as_str()),
            Err(_) => self.refuse(Refusal::Memory),
        }
    }

    /// A text that may have been refused.
    pub fn add(&mut self, text: Result<String, Refusal>) {
        match text {
            Ok(text) => self.text(text.as_str()),
            Err(refusal) => self.refuse(refusal),
        }
    }

    /// Refuses the whole, which `written` tells; only the first refusal is kept.
    pub fn refuse(&mut self, refusal: Refusal) {
        if self.refusal.is_none() {
            self.refusal = Some(refusal);
        }
    }

    /// The whole text, or the first refusal.
    pub fn written(self) -> Result<String, Refusal> {
        let TextWriter { text, refusal, .. } = self;
        match refusal {
            None => Ok(text),
            Some(refusal) => Err(refusal),
        }
    }
}
