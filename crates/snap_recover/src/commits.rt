//! Where the last commit of each batch stands.
ghost use Rattle.std.specs.Prelude.{◌≡◌, ◌<◌, length, IfOk, OnOk};
ghost use Rattle.snap_recover.specs.declared.kinds.Kind.TheVariants as kinds;
ghost use Rattle.snap_recover.specs.Passes.{commit_key, AddsInfo, AddsInfos, TellsInfos, HasInfos};

use crate::index::batch_commit_here;
use crate::ordered::settle_places;
use snap_base::{Memory, Sequence};
use std::alloc::Global;
use txn_records::Record;

/// The number of each batch that is in with the places of its commits in its log, in order. Of one number the last counts.
pub(crate) fn commits_of(
    alloc: Global,
    logs: &[Sequence<Record>],
) -> Result<Vec<(u64, usize)>, Memory>
    requires some { 0 < length logs.now }
    ensures { IfOk result (λ places. HasInfos (commit_key kinds.Batch) logs.now places.items) }
{
    let mut places = gathered(alloc, logs)?;
    settle_places(&mut places)?;
    Ok(places)
}

/// The same as the records come, by one pass over each log.
fn gathered(alloc: Global, logs: &[Sequence<Record>]) -> Result<Vec<(u64, usize)>, Memory>
    requires some { 0 < length logs.now }
    ensures { IfOk result (λ places. TellsInfos (commit_key kinds.Batch) logs.now places.items) }
{
    let mut places = Vec::new(alloc);
    let count = logs.len() as u64;
    for i in 0..logs.len() {
        add_commits(&mut places, logs[i].as_slice(), i as u64, count)?;
    }
    Ok(places)
}

/// Adds the places of this log, number `log` of `logs`.
fn add_commits(
    places: &mut Vec<(u64, usize)>,
    rs: &[Record],
    log: u64,
    logs: u64,
) -> Result<(), Memory>
    requires some { 0 < logs }
    ensures { OnOk result (AddsInfos (commit_key kinds.Batch) log logs rs.now places.old.items places.new.items) }
{
    for at in 0..rs.len() {
        add_place(places, &rs[at], at, log, logs)?;
    }
    Ok(())
}

/// The record at this place is the last commit so far of its batch, if it is one.
fn add_place(
    places: &mut Vec<(u64, usize)>,
    r: &Record,
    at: usize,
    log: u64,
    logs: u64,
) -> Result<(), Memory>
    requires some { 0 < logs }
    ensures { OnOk result (AddsInfo (commit_key kinds.Batch) log logs at r.now places.old.items places.new.items) }
{
    if let Some(number) = batch_commit_here(r, log, logs) {
        places.push((number, at))?;
    }
    Ok(())
}
