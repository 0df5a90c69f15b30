//! Why logs fold to nothing.
use snap_base::Memory;
use snap_recover::RecoverNo;
use txn_records::Key;

/// Why the logs in use fold to nothing. The first that holds, in this order, is answered.
#[derive(Clone, Copy, Debug, PartialEq, Eq)]
pub enum FoldNo {
    /// In this log a checkpoint stands elsewhere than in second place of the first log, behind a Genesis with as many states.
    Stray { log: u8 },
    /// The record with the key, in this log, tells a number above 2^62.
    Range { key: Key, log: u8 },
    /// The logs, with the checkpoint's states in place of Genesis's and without the checkpoint, recover to nothing.
    Recover(RecoverNo),
    /// There was no memory.
    Memory,
}

/// Why the logs in use fold to nothing for their checkpoint's sake. The first that holds, in this order, is answered.
#[derive(Clone, Copy, Debug, PartialEq, Eq)]
pub enum CheckpointNo {
    /// In this log a checkpoint stands elsewhere than in second place of the first log, behind a Genesis with as many states.
    Stray { log: u8 },
    /// The checkpoint tells a number above 2^62.
    Range,
}

impl From<CheckpointNo> for FoldNo {
    ghost use Rattle.std.specs.Prelude.{◌≡◌};
    ghost use Rattle.log_compact.specs.Refusals.{fold_no};

    ghost from_gives = { λ no e. e ≡ fold_no no };

    fn from(no: CheckpointNo) -> FoldNo {
        match no {
            CheckpointNo::Stray { log } => FoldNo::Stray { log },
            CheckpointNo::Range => FoldNo::Range {
                key: Key::Checkpoint,
                log: 0,
            },
        }
    }
}

impl From<Memory> for FoldNo {
    ghost use Rattle.std.specs.Prelude.{◌≡◌};
    ghost use Rattle.log_compact.specs.declared.refusals.FoldNo.TheVariants as answers;

    ghost from_gives = { λ _ e. e ≡ answers.Memory };

    fn from(_error: Memory) -> FoldNo {
        FoldNo::Memory
    }
}

impl From<RecoverNo> for FoldNo {
    ghost use Rattle.std.specs.Prelude.{◌≡◌};
    ghost use Rattle.log_compact.specs.Stripping.{refusal_of};

    ghost from_gives = { λ no e. e ≡ refusal_of no };

    fn from(no: RecoverNo) -> FoldNo {
        match no {
            RecoverNo::Memory => FoldNo::Memory,
            why => FoldNo::Recover(why),
        }
    }
}
