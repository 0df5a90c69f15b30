//! How many parts, passes and events a table may have.
/// The most parts that a table may have. It has at least one.
pub const MOST_PARTS: usize = 264;

/// The most passes that a table may have, the first one among them.
pub const PASSES: u64 = 16;

/// The most events that a pass may record.
pub const MOST_ENTRIES: u64 = 4_294_967_296;
