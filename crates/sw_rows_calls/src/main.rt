//! Runs the rows that are calls of the libraries of texts, tokens, lexemes, decimals, colours, selectors, files and
//! output, and tells which of them give what they say. Lines flow in, each becomes a call of its library, and a line
//! for each file flows out.
#![tactic(auto)]

mod colours;
mod decimals;
mod disks;
mod layouts;
mod lexemes;
mod numbers;
mod output;
mod paths;
mod places;
mod queries;
mod runs;
mod selectors;
mod tokens;
mod trees;

use std::alloc::Global;
use std::process::ExitCode;
use sw_rows_files::{Libraries, Refusal, ended, run_calls, unescaped};

/// The libraries below values.
#[derive(Clone, Copy)]
struct Below;

impl Libraries for Below {
    // One line for each library, whose calls are in the file of that name.
    fn answer(
        &self,
        alloc: Global,
        library: &str,
        name: &str,
        text: &str,
    ) -> Result<String, Refusal> {
        match library {
            "colours" => colours::answer(alloc, name, text),
            "decimals" => decimals::answer(alloc, name, text),
            "disks" => disks::answer(alloc, name, text),
            "numbers" => numbers::answer(alloc, name, text),
            "output" => output::answer(alloc, name, text),
            "paths" => paths::answer(alloc, name, text),
            "queries" => queries::answer(alloc, name, text),
            "trees" => trees::answer(alloc, name, text),
            _ => of_unescaped(alloc, library, name, unescaped(alloc, text)?.as_str()),
        }
    }
}

// The same of the libraries whose calls have escapes.
fn of_unescaped(alloc: Global, library: &str, name: &str, text: &str) -> Result<String, Refusal> {
    match library {
        "layouts" => layouts::answer(alloc, name, text),
        "lexemes" => lexemes::answer(alloc, name, text),
        "places" => places::answer(alloc, name, text),
        "runs" => runs::answer(alloc, name, text),
        "selectors" => selectors::answer(alloc, name, text),
        "tokens" => tokens::answer(alloc, name, text),
        _ => Err(Refusal::NoCall),
    }
}

fn main(rt: HostRuntime) -> ExitCode {
    ended(&rt, run_calls(&rt, &Below))
}
