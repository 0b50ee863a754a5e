//! The program `sassw`: a Sass compiler for a session of requests over standard input and output, and for folders.
//! Words, bytes and files flow in, replies and CSS flow out, messages go to standard error too, and the status tells
//! how it ended.
#![tactic(auto)]

mod reporter;
mod words;

use crate::reporter::MessageReporter;
use crate::words::words;
use std::alloc::{AllocError, Global};
use std::process::ExitCode;
use sw_cmd_protocol::{Output, Stop};
use sw_cmd_run::{Surroundings, run};
use sw_eval::Evaluator;
use sw_hosts::{Counter, HostFn, HostTable};
use sw_hub::Hub;
use sw_io::{FolderDisk, StdSink, StdSource};

// A block of this many bytes has those up to it kept where they are freed.
const LARGE_BLOCK: usize = 4_194_304;

// Has the memory of large blocks, as that of a reply's CSS, be used again. The C library gives a block back to the
// system where it is larger than all that were freed before, and the pages of the next one are new.
fn keep_large_blocks(alloc: Global) {
    let block: Result<Vec<u8>, AllocError> = Vec::with_capacity(alloc, LARGE_BLOCK);
    drop(block);
}

fn main(rt: HostRuntime) -> ExitCode {
    let alloc = rt.alloc();
    keep_large_blocks(alloc);
    let words = match words(&rt) {
        Ok(words) => words,
        Err(fault) => return ExitCode::from(fault.status()),
    };
    let mut hub = Hub::new(alloc);
    let reporter = MessageReporter::new(alloc, StdSink::new(rt.stderr()));
    if hub.attach(reporter).is_err() {
        return ExitCode::from(Stop::Memory.status());
    }
    let mut hosts: HostTable<Box<dyn HostFn>> = HostTable::new(alloc);
    let Ok(counter) = Box::new(alloc, Counter::new()) else {
        return ExitCode::from(Stop::Memory.status());
    };
    if hosts.attach(alloc, "count", counter).is_err() {
        return ExitCode::from(Stop::Memory.status());
    }
    let mut around = Surroundings {
        source: StdSource::new(rt.stdin()),
        output: Output {
            sink: StdSink::new(rt.stdout()),
            audience: hub,
        },
        disk: FolderDisk::new(rt),
        hosts,
    };
    let mut engine = Evaluator::new();
    ExitCode::from(run(alloc, words.as_slice(), &mut around, &mut engine))
}
