//! The limits of a record.

/// The most bytes that a record has: those of a Checkpoint of `MOST_LISTED` states.
pub const LONGEST_RECORD: usize = 32_819;

/// The most logs that a Genesis counts; the least is 1.
pub const MOST_LOGS: u8 = 4;

/// The most states, actors, tids or values that a record lists; the least is 1.
pub const MOST_LISTED: usize = 256;

/// The most actors that an ActCommit or an ActDone lists; the least is 1.
pub const MOST_ACT_ACTORS: usize = 16;
