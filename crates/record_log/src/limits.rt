//! How many records one append takes, and up to which offset.

/// Every list of at most this many records is short enough for one append.
pub const MOST_RECORDS: usize = 1 << 14;

/// Up to this offset a closed gate leaves room for an append, whatever its records are.
pub const FARTHEST_APPEND: u64 = (1 << 63) + (1 << 62);
