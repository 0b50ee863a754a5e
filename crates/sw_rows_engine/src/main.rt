//! Runs a second engine, the announcer: the sessions of a folder over it, and the bodies of the folder's sheets where
//! memory lacks. Files flow in, a line for each session and for each run of a body flows out.
#![tactic(auto)]

mod judge;

use crate::judge::judge;
use std::io;
use std::process::ExitCode;
use sw_rows_announcer::Announcer;
use sw_rows_bodies::{Broken, body_rows, read_module};
use sw_rows_files::{Tally, ended, file_text, folder, row_files};
use sw_rows_sessions::{sections, session_rows};

fn main(rt: HostRuntime) -> ExitCode {
    ended(&rt, all_rows(&rt))
}

fn all_rows(rt: &HostRuntime) -> io::Result<Tally> {
    let mut tally = Tally::new();
    let folder = folder(rt)?;
    for file in row_files(rt, folder.as_str(), &[".session"])?.iter() {
        let text = file_text(rt, folder.as_str(), file.as_str())?;
        file_rows(rt, file.as_str(), text.as_str(), &mut tally)?;
    }
    for file in row_files(rt, folder.as_str(), &[".scss"])?.iter() {
        if let Err(broken) = starving(rt, folder.as_str(), file.as_str()) {
            let file = file.as_str();
            tally.count(true);
            println!(rt; "FAILED {file}: its body can't be run: {broken:?}")?;
        }
    }
    Ok(tally)
}

fn file_rows(rt: &HostRuntime, file: &str, text: &str, tally: &mut Tally) -> io::Result<()> {
    for row in session_rows(rt.alloc(), &sections(rt.alloc(), text)?)?.iter() {
        let name = row.name.as_str();
        let difference = judge(rt.alloc(), row)?;
        tally.count(difference.is_some());
        match difference {
            None => println!(rt; "ok {file}: {name}")?,
            Some(difference) => {
                println!(rt; "FAILED {file}: {name}")?;
                print!(rt; "{difference}")?;
            }
        }
    }
    Ok(())
}

// The body of a sheet, with memory lacking at each question in turn. The stored run has its lines.
fn starving(rt: &HostRuntime, folder: &str, file: &str) -> Result<(), Broken> {
    let module = read_module(rt, folder, file)?;
    body_rows(rt, &mut Announcer::new(rt.alloc()), &module)
}
