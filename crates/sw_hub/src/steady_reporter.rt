// A reporter that never fails: its count of faults is always 0.
ghost use Rattle.std.specs.Prelude.{◌≡◌};
ghost use Rattle.sw_hub.specs.Memory.{tally};

use crate::Reporter;
use std::marker::Model;
use sw_io::Failed;
use sw_record::{Outcome, Reply};

/// Keeps how many replies had CSS and how many an error, and never fails. It takes no memory. Past 2^64 - 1 replies it
/// tells no number.
#[derive(Drop)]
pub struct SteadyReporter {
    css: u64,
    errors: u64,
    full: bool,
}

impl Model for SteadyReporter {
    ghost use Rattle.std.specs.Prelude.{◌+◌, ◌-◌, ◌^◌, ◌≤◌};
    ghost use Rattle.sw_hub.specs.Memory.{Tally};

    ghost Value = { Tally };

    ghost view = { λ r. record { css = r.css; errors = r.errors; full = r.full } };

    ghost invariant = { λ r. r.css + r.errors ≤ 2 ^ 64 - 1 };
}

impl SteadyReporter {
    /// No reply was heard. Takes no memory.
    pub fn new() -> SteadyReporter
        ensures { result ≡ tally }
    {
        SteadyReporter {
            css: 0,
            errors: 0,
            full: false,
        }
    }

    /// How many replies had CSS.
    pub fn css(&self) -> u64
        ensures { result ≡ self.now.css }
    {
        self.css
    }

    /// How many replies had an error.
    pub fn errors(&self) -> u64
        ensures { result ≡ self.now.errors }
    {
        self.errors
    }
}

impl Reporter for SteadyReporter {
    ghost use Rattle.std.specs.Prelude.{None, Ok};
    ghost use Rattle.sw_io.specs.Causes.{HasCause};
    ghost use Rattle.sw_hub.specs.Hearing.{Hears, Counts};
    ghost use Rattle.sw_hub.specs.Memory.{number_of, tallied};

    ghost heard = { λ _. None };

    ghost number = { λ r. number_of r };

    ghost faults = { λ _. 0 };

    fn hear(&mut self, reply: &Reply) -> Result<(), Failed>
        ensures replies { Hears None None reply.now result }
        ensures number { Counts (number_of self.old) (number_of self.new) result }
        ensures cause { HasCause 0 0 result }
        ensures tally { self.new ≡ tallied self.old reply.now.outcome }
    {
        if self.full || self.errors == u64::MAX - self.css {
            self.full = true;
            return Ok(());
        }
        match &reply.outcome {
            Outcome::Css(_) => self.css += 1,
            Outcome::Error(_) => self.errors += 1,
        }
        Ok(())
    }

    fn count(&self) -> Option<u64> {
        if self.full {
            return None;
        }
        Some(self.css + self.errors)
    }
}
