// How many rows there were, and what a program says of them at its end.
use std::io;
use std::process::ExitCode;

/// How many rows were run, and how many of them didn't come out as they say.
#[derive(Clone, Copy, Debug)]
pub struct Tally {
    rows: u32,
    failed: u32,
}

impl Tally {
    /// No rows.
    pub fn new() -> Tally {
        Tally { rows: 0, failed: 0 }
    }

    /// One row more.
    pub fn count(&mut self, is_failed: bool) {
        self.rows = self.rows.saturating_add(1);
        if is_failed {
            self.failed = self.failed.saturating_add(1);
        }
    }

    /// The rows of another file.
    pub fn add(&mut self, other: Tally) {
        self.rows = self.rows.saturating_add(other.rows);
        self.failed = self.failed.saturating_add(other.failed);
    }

    /// How many rows were run; past 4,294,967,295 it stays there.
    pub fn rows(&self) -> u32 {
        self.rows
    }

    /// How many of the rows didn't come out as they say, which is at most `rows`.
    pub fn failed(&self) -> u32 {
        self.failed
    }
}

/// Prints how many rows there were and how many failed. The status is that of a success only where none did.
pub fn ended(rt: &(impl Print + Eprint), tally: io::Result<Tally>) -> ExitCode {
    match last_line(rt, tally) {
        Ok(true) => ExitCode::SUCCESS,
        Ok(false) => ExitCode::FAILURE,
        Err(error) => {
            let _ = eprintln!(rt; "the rows can't be run: {error}");
            ExitCode::FAILURE
        }
    }
}

// Whether none failed.
fn last_line(rt: &impl Print, tally: io::Result<Tally>) -> io::Result<bool> {
    let Tally { rows, failed } = tally?;
    println!(rt; "{rows} rows, {failed} failed")?;
    Ok(failed == 0)
}
