// The functions of the host that rows have beside those that stand ready.
use std::alloc::Global;
use sw_hosts::HostFn;
use sw_text::{List, Memory};
use sw_values::Value;

/// A function that never finds memory, so that a compile which calls it is refused there.
#[derive(Debug, Drop)]
pub struct Weary;

impl HostFn for Weary {
    ghost use Rattle.std.specs.Prelude.{[]};

    ghost kind = { λ _. 2 };

    ghost state = { λ _. [] };

    fn call(&mut self, _alloc: Global, _args: &List<Value>) -> Result<Value, Memory> {
        Err(Memory)
    }
}
