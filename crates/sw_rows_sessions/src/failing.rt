// A call that is made to fail.
use std::alloc::{AllocError, Global};
use sw_text::List;

/// Whose calls are made to fail.
#[derive(Clone, Copy, Debug, PartialEq, Eq)]
pub enum Object {
    /// The source: its reads.
    Source,
    /// The sink: its writes and flushes.
    Sink,
    /// The disk: its listings and its readings of files.
    Disk,
    /// The reporter of this number: the replies that it is told.
    Reporter(usize),
}

/// A call that fails: that of an object with this number, counted from 1.
#[derive(Clone, Copy, Debug)]
pub struct Failing {
    pub object: Object,
    pub call: u32,
}

/// The calls of an object that fail: these, and the one that is made to with the one behind it, so that an object which
/// gave a fault and is asked again gives another. An error exactly where no memory was found.
pub fn failing_calls(
    alloc: Global,
    object: Object,
    calls: &[u32],
    failing: Option<Failing>,
) -> Result<List<u32>, AllocError> {
    let mut all = calls.to_vec(alloc)?;
    if let Some(failing) = failing {
        if failing.object == object {
            all.extend_from_slice(&[failing.call, failing.call.saturating_add(1)])?;
        }
    }
    Ok(List::from_vec(all))
}
