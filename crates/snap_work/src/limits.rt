//! The limits of a work text.

/// The most bytes of a text.
pub const LONGEST_WORK: usize = 8_388_608;

/// The most coordinators.
pub const MOST_COORDINATORS: u64 = 8;

/// The most logs.
pub const MOST_LOGS: u64 = 4;

/// The most transactions of a batch.
pub const MOST_IN_A_BATCH: u64 = 256;

/// The most batches that may be live.
pub const MOST_BATCHES: u64 = 32;

/// The most ACTs that may be live.
pub const MOST_ACTS: u64 = 32;

/// The most actors.
pub const MOST_ACTORS: u64 = 256;

/// The most workers that a run may have.
pub const MOST_WORKERS: usize = 8;

/// The most transactions.
pub const MOST_TRANSACTIONS: usize = 20_000;
