// Why a call has no answer.
use std::alloc::{AllocError, AllocFailed, Global};
use std::fmt::Debug;
use std::num::ParseIntError;
use sw_text::Memory;

/// Why a call has no answer.
#[derive(Debug, Drop)]
pub enum Refusal {
    /// The library refused, by this name.
    Fault(String),
    Memory,
    /// The row names no call.
    NoCall,
}

impl Refusal {
    /// That of this name.
    pub fn named(alloc: Global, name: &str) -> Result<Refusal, AllocError> {
        Ok(Refusal::Fault(String::from_str(alloc, name)?))
    }
}

/// What a library answers, with its fault by the fault's name.
pub fn answer_of<T, F: Debug + Drop>(alloc: Global, answer: Result<T, F>) -> Result<T, Refusal> {
    match answer {
        Ok(answer) => Ok(answer),
        Err(fault) => Err(told_of(alloc, &fault)),
    }
}

fn told_of<F: Debug>(alloc: Global, fault: &F) -> Refusal {
    match format!(in alloc; "{fault:?}") {
        Ok(name) => Refusal::Fault(name),
        Err(_) => Refusal::Memory,
    }
}

// A row whose numbers can't be read is no call.
impl From<ParseIntError> for Refusal {
    fn from(_: ParseIntError) -> Refusal {
        Refusal::NoCall
    }
}

impl From<Memory> for Refusal {
    fn from(_: Memory) -> Refusal {
        Refusal::Memory
    }
}

impl From<AllocError> for Refusal {
    fn from(_: AllocError) -> Refusal {
        Refusal::Memory
    }
}

impl<T: Drop> From<AllocFailed<T>> for Refusal {
    fn from(_: AllocFailed<T>) -> Refusal {
        Refusal::Memory
    }
}

/// An answer's text, or `!` and the name of the refusal.
pub fn told(alloc: Global, answer: Result<String, Refusal>) -> Result<String, AllocError> {
    match answer {
        Ok(text) => Ok(text),
        Err(Refusal::Fault(name)) => format!(in alloc; "! {name}"),
        Err(Refusal::Memory) => String::from_str(alloc, "! Memory"),
        Err(Refusal::NoCall) => String::from_str(alloc, "! NoCall"),
    }
}
