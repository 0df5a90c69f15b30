//! What a checkpoint adds to lists that somebody reads: why it is refused, and what was committed before it.
ghost use Rattle.std.specs.Prelude.{◌≡◌, ◌+◌, ◌≤◌, length, MatchOption};
ghost use Rattle.log_compact.specs.Counts.{CountsBefore};
ghost use Rattle.log_compact.specs.Refusals.{IsCheckpointRefused};
ghost use Rattle.log_compact.specs.Sets.{HasNoStray, IsPointInRange, OfPoint, count_acts, count_batches, number_of, point_in, point_of};
ghost use Rattle.snap_recover.specs.declared.ranges.TheConstants.{GREATEST_NUMBER};

use crate::numbers::{acts_in, batches_in, is_in_range};
use crate::refusals::CheckpointNo;
use crate::strays::first_stray;
use snap_base::Sequence;
use snap_recover::Kept;
use txn_records::Record;

/// Why the logs in use fold to nothing for their checkpoint's sake; `None` where no checkpoint strays, and no number of it is too large.
pub fn checkpoint_no(lists: &[Sequence<Record>]) -> Option<CheckpointNo>
    requires { length lists.now ≤ 256 }
    ensures { MatchOption result (HasNoStray lists.now × OfPoint IsPointInRange (point_of lists.now)) (λ no. IsCheckpointRefused lists.now no) }
{
    if let Some(log) = first_stray(lists) {
        return Some(CheckpointNo::Stray { log: log as u8 });
    }
    if !is_in_range(lists) {
        return Some(CheckpointNo::Range);
    }
    None
}

/// How many batches and undeclared transactions were committed before a checkpoint.
#[derive(Clone, Copy, Debug, PartialEq, Eq)]
pub struct Counts {
    /// The batches.
    pub batches: u64,
    /// The undeclared transactions.
    pub acts: u64,
}

/// What was committed before the checkpoint of these lists; nothing where they have none.
pub fn counts_before(lists: &[Sequence<Record>]) -> Counts
    ensures { CountsBefore lists.now result }
{
    match lists.get(0) {
        Some(records) => counts_in(records.as_slice()),
        None => NONE,
    }
}

/// The same of the first list.
fn counts_in(records: &[Record]) -> Counts
    ensures batches { result.batches ≡ number_of (λ p. p.batches) (point_in records.now) }
    ensures acts { result.acts ≡ number_of (λ p. p.acts) (point_in records.now) }
{
    let Some(Record::Genesis { .. }) = records.get(0) else {
        return NONE;
    };
    match records.get(1) {
        Some(Record::Checkpoint { batches, acts, .. }) => Counts {
            batches: *batches,
            acts: *acts,
        },
        _ => NONE,
    }
}

/// Nothing.
const NONE: Counts = Counts {
    batches: 0,
    acts: 0,
};

/// How many batches and undeclared transactions these are, with those that were committed before.
pub fn counts_with(before: Counts, committed: &[Kept]) -> Counts
    requires batches { before.batches ≤ GREATEST_NUMBER }
    requires acts { before.acts ≤ GREATEST_NUMBER }
    ensures batches { result.batches ≡ count_batches committed.now + before.batches }
    ensures acts { result.acts ≡ count_acts committed.now + before.acts }
{
    Counts {
        batches: batches_in(committed) + before.batches,
        acts: acts_in(committed) + before.acts,
    }
}
