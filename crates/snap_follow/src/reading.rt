//! Which commits stand in lists.
ghost use Rattle.std.specs.Prelude.{◌≡◌, ◌<◌, [], ◌∷◌, length, IfOk, MatchOption, OnOk};
ghost use Rattle.txn_records.specs.Records.{key};
ghost use Rattle.snap_follow.specs.Passes.{AddsActs, AddsBatches, HasAllCommits, IsHome};

use crate::commits::{Commits, add, no_commits};
use snap_base::{Memory, Sequence};
use std::alloc::Global;
use txn_records::{Key, Record};

/// The commits that stand in their logs, by one pass over each.
pub(crate) fn commits_in(alloc: Global, lists: &[Sequence<Record>]) -> Result<Commits, Memory>
    requires some { 0 < length lists.now }
    ensures { IfOk result (λ set. HasAllCommits lists.now set) }
{
    let mut set = no_commits(alloc);
    let count = lists.len() as u64;
    for i in 0..lists.len() {
        add_log(&mut set, lists[i].as_slice(), i as u64, count)?;
    }
    Ok(set)
}

/// Adds the commits of this log, number `log` of `logs`.
fn add_log(set: &mut Commits, rs: &[Record], log: u64, logs: u64) -> Result<(), Memory>
    requires some { 0 < logs }
    ensures batches { OnOk result (AddsBatches log logs rs.now set.old set.new) }
    ensures acts { OnOk result (AddsActs log logs rs.now set.old set.new) }
{
    for r in rs {
        add_record(set, r, log, logs)?;
    }
    Ok(())
}

/// Adds the commit that the record is, if it is one and stands in its log.
fn add_record(set: &mut Commits, r: &Record, log: u64, logs: u64) -> Result<(), Memory>
    requires some { 0 < logs }
    ensures batches { OnOk result (AddsBatches log logs (r.now ∷ []) set.old set.new) }
    ensures acts { OnOk result (AddsActs log logs (r.now ∷ []) set.old set.new) }
{
    let Some(key) = commit_here(r, log, logs) else {
        return Ok(());
    };
    add(set, key)?;
    Ok(())
}

/// The key of the commit that the record is, where the log is its own.
fn commit_here(r: &Record, log: u64, logs: u64) -> Option<Key>
    requires some { 0 < logs }
    ensures { MatchOption result (¬ IsHome log logs (key r.now)) (λ k. IsHome log logs k × (key r.now ≡ k)) }
{
    match r {
        Record::BatchCommit { bid } if bid.0 % logs == log => Some(Key::Commit(*bid)),
        Record::BatchDone { bid, .. } if bid.0 % logs == log => Some(Key::Commit(*bid)),
        Record::ActCommit { tid, .. } if tid.0 % logs == log => Some(Key::Act(*tid)),
        Record::ActDone { tid, .. } if tid.0 % logs == log => Some(Key::Act(*tid)),
        _ => None,
    }
}
