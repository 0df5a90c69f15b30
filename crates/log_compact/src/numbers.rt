//! The numbers of a checkpoint, and how much is committed behind it.
ghost use Rattle.std.specs.Prelude.{◌≡◌, ◌≤◌, IsTrue, ◌↔◌, ◌∷◌, [], length};
ghost use Rattle.log_compact.specs.Sets.{IsPointInRange, OfPoint, point_in, point_of, count_batches, count_acts};

use snap_base::Sequence;
use snap_recover::{GREATEST_NUMBER, Kept};
use txn_records::Record;

/// That no number of the lists' checkpoint is above 2^62.
pub(crate) fn is_in_range(lists: &[Sequence<Record>]) -> bool
    ensures { IsTrue result ↔ OfPoint IsPointInRange (point_of lists.now) }
{
    if lists.len() == 0 {
        return true;
    }
    is_first_in_range(lists[0].as_slice())
}

/// That no number of the first list's checkpoint is above 2^62.
fn is_first_in_range(records: &[Record]) -> bool
    ensures { IsTrue result ↔ OfPoint IsPointInRange (point_in records.now) }
{
    let Some(Record::Genesis { .. }) = records.get(0) else {
        return true;
    };
    let Some(
        Record::Checkpoint {
            generation,
            next_tid,
            next_bid,
            next_c,
            batches,
            acts,
            ..
        },
    ) = records.get(1)
    else {
        return true;
    };
    *generation <= GREATEST_NUMBER
        && next_tid.0 <= GREATEST_NUMBER
        && next_bid.0 <= GREATEST_NUMBER
        && *next_c <= GREATEST_NUMBER
        && *batches <= GREATEST_NUMBER
        && *acts <= GREATEST_NUMBER
}

/// How many of these are batches.
pub(crate) fn batches_in(committed: &[Kept]) -> u64
    ensures count { result ≡ count_batches committed.now }
    ensures few { result ≤ length committed.now }
{
    let mut count: u64 = 0;
    for k in committed {
        count = count + batches_of(k);
    }
    count
}

/// How many of these are undeclared transactions.
pub(crate) fn acts_in(committed: &[Kept]) -> u64
    ensures count { result ≡ count_acts committed.now }
    ensures few { result ≤ length committed.now }
{
    let mut count: u64 = 0;
    for k in committed {
        count = count + acts_of(k);
    }
    count
}

/// One, where this is a batch, else none.
fn batches_of(k: &Kept) -> u64
    ensures one { result ≡ count_batches (k.now ∷ []) }
    ensures few { result ≤ 1 }
{
    match k {
        Kept::Batch { .. } => 1,
        Kept::Act { .. } => 0,
    }
}

/// One, where this is an undeclared transaction, else none.
fn acts_of(k: &Kept) -> u64
    ensures one { result ≡ count_acts (k.now ∷ []) }
    ensures few { result ≤ 1 }
{
    match k {
        Kept::Batch { .. } => 0,
        Kept::Act { .. } => 1,
    }
}
