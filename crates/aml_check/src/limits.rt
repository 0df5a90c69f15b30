//! The limits of a transaction that runs.

/// How many statements a transaction may begin.
pub const MOST_STATEMENTS: u16 = 10_000;

/// How many calls a transaction may make, the root counted.
pub const MOST_CALLS: u8 = 64;

/// How many actors a transaction may call, and a PACT declare.
pub const MOST_CALLED_ACTORS: usize = 16;

/// How many calls may be open at a time.
pub const MOST_OPEN_CALLS: usize = 16;
