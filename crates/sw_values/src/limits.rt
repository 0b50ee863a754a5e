// What no value passes.

/// The greatest weight of a value.
pub(crate) const MOST_WEIGHT: u32 = 1_048_576;

/// The greatest nesting of a value.
pub(crate) const DEEPEST: u16 = 1_000;

/// As many levels of quotients as are looked into: more than those of any value.
pub(crate) const LEVELS: u16 = 1_001;
