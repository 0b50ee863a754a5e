// What is written so far.
use std::alloc::Global;

/// The bytes that are written so far.
#[derive(Drop)]
pub struct Lines {
    pub bytes: Vec<u8>,
    pub alloc: Global,
}
