//! What became of an event on what is held.
/// What became of an event that a worker looked at.
#[derive(Clone, Copy, Debug, PartialEq, Eq)]
pub enum Acted {
    /// It was done, and has this number among all that the crew did.
    Done { number: u64 },
    /// What stands before it met a fault, which has this number. The journal is shut, or the output has failed.
    Broken { number: u64 },
    /// A part that it touches is not held, or its journal is shut, or the output has failed.
    Unready,
    /// It is not allowed.
    NotNow,
    /// There was no memory. Nothing was done.
    Memory,
}

/// Why what stands before an event was not done.
#[derive(Clone, Copy, Debug, PartialEq, Eq)]
pub enum NotDone {
    /// The device failed at the append, or the output at the line.
    Fault,
    /// There was no memory. Nothing was done.
    Memory,
}
