//! Runs the rows that are calls of values, of their operators and functions, of scopes and of hosts, and tells which of
//! them give what they say. Lines flow in, each becomes a call of its library, and a line for each file flows out.
#![tactic(auto)]

mod built_ins;
mod functions;
mod hosts;
mod operators;
mod reader;
mod scopes;
mod values;

use std::alloc::Global;
use std::process::ExitCode;
use sw_rows_files::{Libraries, Refusal, ended, run_calls};

/// Values, and the libraries above them.
#[derive(Clone, Copy)]
struct Above;

impl Libraries for Above {
    // One line for each library, whose calls are in the file of that name.
    fn answer(
        &self,
        alloc: Global,
        library: &str,
        name: &str,
        text: &str,
    ) -> Result<String, Refusal> {
        match library {
            "arguments" | "scopes" => scopes::answer(alloc, name, text),
            "built_ins" => built_ins::answer(alloc, name, text),
            "colour_functions" => functions::colours(alloc, name, text),
            "hosts" => hosts::answer(alloc, name, text),
            "lists" => functions::lists(alloc, name, text),
            "maps" => functions::maps(alloc, name, text),
            "math" => functions::math(alloc, name, text),
            "operators" => operators::answer(alloc, name, text),
            "text" => functions::text(alloc, name, text),
            "values" => values::answer(alloc, name, text),
            _ => Err(Refusal::NoCall),
        }
    }
}

fn main(rt: HostRuntime) -> ExitCode {
    ended(&rt, run_calls(&rt, &Above))
}
