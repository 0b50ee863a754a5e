// The functions of a row's host.
use std::alloc::{AllocError, Global};

/// What a function of the host does.
#[derive(Clone, Copy, Debug, PartialEq, Eq)]
pub enum HostKind {
    /// It answers how often it was called.
    Counter,
    /// It answers its first argument.
    First,
    /// It never finds memory.
    Failing,
}

/// A function of the host: the name under which it is attached, and what it does.
#[derive(Drop)]
pub struct RowHost {
    pub name: String,
    pub kind: HostKind,
}

impl RowHost {
    /// A text `NAME first` or `NAME failing`, or `NAME` and any other word for a counter.
    pub fn read(alloc: Global, text: &str) -> Result<RowHost, AllocError> {
        let (name, word) = text.split_once(' ').unwrap_or((text, ""));
        let kind = match word {
            "first" => HostKind::First,
            "failing" => HostKind::Failing,
            _ => HostKind::Counter,
        };
        Ok(RowHost {
            name: String::from_str(alloc, name)?,
            kind,
        })
    }
}
