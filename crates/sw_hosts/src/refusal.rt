// Hosts that aren't attached.

/// Why a host isn't attached.
#[derive(Clone, Copy, Debug, PartialEq, Eq)]
pub enum Why {
    /// The text is no name.
    BadName,
    /// The name has a host.
    Taken,
    /// No memory was found.
    Memory,
}

/// A host that isn't attached, handed back.
#[derive(Drop)]
pub struct NotHosted<F> {
    pub why: Why,
    pub host: F,
}
