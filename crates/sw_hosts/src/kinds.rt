// The two kinds of host functions.
ghost use Rattle.std.specs.Prelude.{◌≡◌};

use crate::HostFn;
use std::alloc::Global;
use sw_fn_call::count;
use sw_text::{List, Memory};
use sw_values::Value;

// The number at which a counter stays.
const MOST_CALLS: u32 = 1_000_000_000;

/// Answers how often it was called, up to 1,000,000,000, whatever the arguments.
#[derive(Debug, Drop)]
pub struct Counter {
    pub number: u32,
}

impl Counter {
    /// One that wasn't called yet.
    pub fn new() -> Counter
        ensures { result.number ≡ 0 }
    {
        Counter { number: 0 }
    }
}

impl HostFn for Counter {
    ghost use Rattle.std.specs.Prelude.{[], ◌∷◌};

    ghost kind = { λ _. 1 };

    ghost state = { λ counter. counter.number ∷ [] };

    fn call(&mut self, _alloc: Global, _args: &List<Value>) -> Result<Value, Memory> {
        if self.number < MOST_CALLS {
            self.number += 1;
        }
        Ok(count(self.number as usize))
    }
}

/// Answers its first argument, or null without one.
#[derive(Debug, Drop)]
pub struct First;

impl HostFn for First {
    ghost use Rattle.std.specs.Prelude.{[]};

    ghost kind = { λ _. 2 };

    ghost state = { λ _. [] };

    fn call(&mut self, _alloc: Global, args: &List<Value>) -> Result<Value, Memory> {
        match args.as_slice() {
            [] => Ok(Value::null()),
            [first, ..] => first.share(),
        }
    }
}
