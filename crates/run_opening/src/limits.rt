//! How many bytes of a log a run's beginning may take.

/// More bytes than what is written before a run takes in a log.
pub const LARGEST_START: u64 = 1 << 20;
