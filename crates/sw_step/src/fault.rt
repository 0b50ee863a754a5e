// Why a compile doesn't begin or go on.

/// Why a compile doesn't begin.
#[derive(Clone, Copy, Debug, PartialEq, Eq)]
pub enum StartFault {
    /// All numbers were given.
    NoNumber,
    Memory,
}

/// Why a step isn't answered.
#[derive(Clone, Copy, Debug, PartialEq, Eq)]
pub enum StepFault {
    /// No compile under way has this number.
    NoCompile,
    Memory,
}
