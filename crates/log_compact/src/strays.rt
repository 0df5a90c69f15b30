//! Checkpoints that stand where none may.
ghost use Rattle.std.specs.Prelude.{◌<◌, IsTrue, ◌↔◌, length, IfSome, MatchOption};
ghost use Rattle.std.specs.List.{AllByRecursion};
ghost use Rattle.log_compact.specs.Points.{IsPlain};
ghost use Rattle.log_compact.specs.Refusals.{IsFirstStray, IsListFit};
ghost use Rattle.log_compact.specs.Sets.{HasNoStray};

use snap_base::Sequence;
use txn_records::Record;

/// That no record is a checkpoint.
pub(crate) fn all_plain(records: &[Record]) -> bool
    ensures { IsTrue result ↔ AllByRecursion IsPlain records.now }
{
    for r in records {
        if !is_plain(r) {
            return false;
        }
    }
    true
}

/// That the record is no checkpoint.
fn is_plain(r: &Record) -> bool
    ensures { IsTrue result ↔ IsPlain r.now }
{
    match r {
        Record::Checkpoint { .. } => false,
        _ => true,
    }
}

/// That no checkpoint stands in the first list but one in second place, behind a Genesis with as many states.
fn is_first_fit(records: &[Record]) -> bool
    ensures { IsTrue result ↔ IsListFit 0 records.now }
{
    let Some(Record::Genesis { states: first, .. }) = records.get(0) else {
        return all_plain(records);
    };
    let Some(Record::Checkpoint { states, .. }) = records.get(1) else {
        return all_plain(records);
    };
    first.len() == states.len() && all_plain(&records[2..])
}

/// The first list in which a checkpoint stands where none may; `None` where there is none.
pub(crate) fn first_stray(lists: &[Sequence<Record>]) -> Option<usize>
    ensures found { MatchOption result (HasNoStray lists.now) (λ log. IsFirstStray lists.now log) }
    ensures within { IfSome result (λ log. log < length lists.now) }
{
    if lists.len() == 0 {
        return None;
    }
    if !is_first_fit(lists[0].as_slice()) {
        return Some(0);
    }
    for log in 1..lists.len() {
        if !all_plain(lists[log].as_slice()) {
            return Some(log);
        }
    }
    None
}
