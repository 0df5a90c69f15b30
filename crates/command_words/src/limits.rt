//! How many rounds a follower may make.

/// The fewest rounds that a follower of logs may be asked for: what is committed when it first reads the logs shows in the second.
pub const FEWEST_ROUNDS: u16 = 2;

/// The most rounds that a follower of logs may be asked for.
pub const MOST_ROUNDS: u16 = 1_000;
