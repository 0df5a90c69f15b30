//! Why a round is refused.
use snap_base::Memory;
use txn_records::Key;

/// Why a round is refused. The first that holds, in this order, is answered.
#[derive(Clone, Copy, Debug, PartialEq, Eq)]
pub enum FollowNo {
    /// This log does not begin with what the round before read of it.
    Back {
        log: u8,
    },
    /// The logs have more than one Genesis.
    TwoGenesis,
    /// Genesis says that there are `kept` logs, and `found` are here.
    LogCount {
        kept: u64,
        found: u64,
    },
    /// There is a Genesis, and the record with the key, in this log, names an actor that there is not, or a number above 2^62.
    Range {
        key: Key,
        log: u8,
    },
    /// What rests on the record with the key was committed in the round before, and that record is not in this log.
    Missing {
        key: Key,
        log: u8,
    },
    /// The batch with the commit of this key, in this log, was committed in the round before. It has `kept` transactions, and its
    /// commit tells `found` values.
    Values {
        key: Key,
        log: u8,
        kept: u64,
        found: u64,
    },
    /// There was no memory.
    Memory,
}

impl From<Memory> for FollowNo {
    ghost use Rattle.std.specs.Prelude.{◌≡◌};
    ghost use Rattle.snap_follow.specs.declared.refusals.FollowNo.TheVariants as answers;

    ghost from_gives = { λ _ e. e ≡ answers.Memory };

    fn from(_error: Memory) -> FollowNo {
        FollowNo::Memory
    }
}
