//! How large a number may be that a checkpoint tells.
use snap_recover::GREATEST_NUMBER;

/// How many transactions, batches or commits a run may number behind a checkpoint, whatever the next number is that it tells.
pub const ROOM_TO_COMPACT: u64 = 1 << 20;

/// The greatest number that a checkpoint may tell, and the greatest generation that it may stand behind.
pub const GREATEST_TO_COMPACT: u64 = GREATEST_NUMBER - ROOM_TO_COMPACT;
