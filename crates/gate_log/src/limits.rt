//! The sizes of items, groups and logs.

/// The most bytes that an item may have: two bytes tell its length.
pub const LONGEST_ITEM: usize = 65_535;

/// The most bytes that the items of one append may take, each with the two bytes of its length.
pub const LARGEST_GROUP: u64 = 1 << 31;

/// How many bytes a new log has: the header and a closed gate. No fewer hold an item, and none more is overwritten.
pub const NEW_LOG_SIZE: u64 = 9;

/// Where the first gate stands: behind the header.
pub(crate) const FIRST_GATE: u64 = 8;

/// No log that opening finds ends behind this offset.
pub const FARTHEST_END: u64 = 1 << 63;
