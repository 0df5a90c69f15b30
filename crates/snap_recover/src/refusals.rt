//! Why records recover to no opening.
use snap_base::Memory;
use std::alloc::AllocError;
use txn_records::Key;

/// Why logs are refused. The first that holds, in this order, is answered.
#[derive(Clone, Copy, Debug, PartialEq, Eq)]
pub enum RecoverNo {
    /// No log has a Genesis.
    NoGenesis,
    /// The logs have more than one Genesis.
    TwoGenesis,
    /// Genesis says that there are `kept` logs, and `found` are here.
    LogCount {
        kept: u64,
        found: u64,
    },
    /// The record with the key, in this log, names an actor that there is not, or a number above 2^62.
    Range {
        key: Key,
        log: u8,
    },
    /// What rests on the record with the key is committed, and that is not in this log.
    Missing {
        key: Key,
        log: u8,
    },
    /// The batch with the commit of this key, in this log, has `kept` transactions, and its commit tells `found` values.
    Values {
        key: Key,
        log: u8,
        kept: u64,
        found: u64,
    },
    /// There was no memory.
    Memory,
}

impl From<Memory> for RecoverNo {
    ghost use Rattle.std.specs.Prelude.{◌≡◌};
    ghost use Rattle.snap_recover.specs.declared.refusals.RecoverNo.TheVariants as answers;

    ghost from_gives = { λ _ e. e ≡ answers.Memory };

    fn from(_error: Memory) -> RecoverNo {
        RecoverNo::Memory
    }
}

impl From<AllocError> for RecoverNo {
    ghost use Rattle.std.specs.Prelude.{◌≡◌};
    ghost use Rattle.snap_recover.specs.declared.refusals.RecoverNo.TheVariants as answers;

    ghost from_gives = { λ _ e. e ≡ answers.Memory };

    fn from(_error: AllocError) -> RecoverNo {
        RecoverNo::Memory
    }
}
