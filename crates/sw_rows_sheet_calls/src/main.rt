//! Runs the rows that are calls of the readers of sheets and of values, and tells which of them give what they say.
//! Lines flow in, each becomes a call whose tree is written in a short form, and a line for each file flows out.
#![tactic(auto)]

mod css;
mod expr;
mod files;
mod head;
mod lines;
mod load;
mod prefixes;
mod sheets;
mod simple;
mod spans;
mod statement;
mod trees;
mod values;
mod writer;

use crate::css::css_tree_of;
use crate::files::Sheets;
use crate::sheets::tree_of;
use crate::trees::told;
use std::alloc::Global;
use std::io;
use std::process::ExitCode;
use std::rt::{Env, Files};
use sw_rows_files::{Libraries, Refusal, Tally, ended, run_calls, unescaped};

impl Libraries for Sheets {
    // The library's calls are in the file of its name.
    fn answer(
        &self,
        alloc: Global,
        library: &str,
        name: &str,
        text: &str,
    ) -> Result<String, Refusal> {
        if library == "prefixes" {
            return prefixes::answer(alloc, self, name, text);
        }
        of_unescaped(alloc, library, name, unescaped(alloc, text)?.as_str())
    }
}

// One line for each other library, whose calls have escapes.
fn of_unescaped(alloc: Global, library: &str, name: &str, text: &str) -> Result<String, Refusal> {
    match library {
        "css" => told(alloc, name, css_tree_of(alloc, text)),
        "lines" => lines::answer(alloc, name, text),
        "sheets" | "spans" | "trees" => told(alloc, name, tree_of(alloc, text)),
        "values" => values::answer(alloc, name, text),
        _ => Err(Refusal::NoCall),
    }
}

fn run<R: Env + Files + Print + AllocGlobal + Clone + Drop>(rt: &R) -> io::Result<Tally> {
    let sheets = Sheets::read(rt)?;
    run_calls(rt, &sheets)
}

fn main(rt: HostRuntime) -> ExitCode {
    ended(&rt, run(&rt))
}
