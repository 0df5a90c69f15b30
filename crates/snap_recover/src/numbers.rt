//! The next numbers of batches, transactions and commits: one above all that occur.
ghost use Rattle.std.specs.Prelude.{◌≡◌, ◌≤◌, max};
ghost use Rattle.std.specs.List.{flat_map};
ghost use Rattle.txn_records.specs.Records.{tid_numbers};
ghost use Rattle.snap_recover.specs.Logs.{all_of, bids_in, tids_in, commits_in};
ghost use Rattle.snap_recover.specs.Opening.{greatest, next_of};

use crate::ranges::GREATEST_NUMBER;
use snap_base::{Sequence, Tid};
use txn_records::Record;

/// Numbers of transactions, batches and commits.
#[derive(Clone, Copy)]
pub(crate) struct Numbers {
    pub tid: u64,
    pub bid: u64,
    pub commit: u64,
}

/// Where there is no record.
const NONE: Numbers = Numbers {
    tid: 0,
    bid: 0,
    commit: 0,
};

/// One above all numbers in the logs, each at least 1.
pub(crate) fn next_numbers(logs: &[Sequence<Record>]) -> Numbers
    requires tids { greatest (flat_map tids_in (all_of logs.now)) ≤ GREATEST_NUMBER }
    requires bids { greatest (flat_map bids_in (all_of logs.now)) ≤ GREATEST_NUMBER }
    requires commits { greatest (flat_map commits_in (all_of logs.now)) ≤ GREATEST_NUMBER }
    ensures tid { result.tid ≡ next_of tids_in logs.now }
    ensures bid { result.bid ≡ next_of bids_in logs.now }
    ensures commit { result.commit ≡ next_of commits_in logs.now }
{
    let most = greatest_over(logs);
    Numbers {
        tid: most.tid + 1,
        bid: most.bid + 1,
        commit: most.commit + 1,
    }
}

/// The greatest numbers in the records of all logs, and 0 where none occurs.
fn greatest_over(logs: &[Sequence<Record>]) -> Numbers
    ensures tid { result.tid ≡ greatest (flat_map tids_in (all_of logs.now)) }
    ensures bid { result.bid ≡ greatest (flat_map bids_in (all_of logs.now)) }
    ensures commit { result.commit ≡ greatest (flat_map commits_in (all_of logs.now)) }
{
    let mut most = NONE;
    for rs in logs {
        most = greatest_in(most, rs.as_slice());
    }
    most
}

/// The greatest of the numbers and of those in the records of one log.
fn greatest_in(so_far: Numbers, rs: &[Record]) -> Numbers
    ensures tid { result.tid ≡ max so_far.tid (greatest (flat_map tids_in rs.now)) }
    ensures bid { result.bid ≡ max so_far.bid (greatest (flat_map bids_in rs.now)) }
    ensures commit { result.commit ≡ max so_far.commit (greatest (flat_map commits_in rs.now)) }
{
    let mut most = so_far;
    for r in rs {
        most = raised(most, r);
    }
    most
}

/// The greatest of the numbers and of those in one record.
fn raised(so_far: Numbers, r: &Record) -> Numbers
    ensures tid { result.tid ≡ max so_far.tid (greatest (tids_in r.now)) }
    ensures bid { result.bid ≡ max so_far.bid (greatest (bids_in r.now)) }
    ensures commit { result.commit ≡ max so_far.commit (greatest (commits_in r.now)) }
{
    Numbers {
        tid: so_far.tid.max(tid_number(r)),
        bid: so_far.bid.max(bid_number(r)),
        commit: so_far.commit.max(commit_number(r)),
    }
}

/// The number of the batch that the record names, and 0 where it names none.
fn bid_number(r: &Record) -> u64
    ensures { result ≡ greatest (bids_in r.now) }
{
    match r {
        Record::Genesis { .. } => 0,
        Record::BatchInfo { bid, .. } => bid.0,
        Record::BatchComplete { bid, .. } => bid.0,
        Record::BatchCommit { bid } => bid.0,
        Record::ActPrepare { .. } => 0,
        Record::ActCommit { m, .. } => m.0,
        Record::BatchDone { bid, .. } => bid.0,
        Record::ActDone { m, .. } => m.0,
        Record::Checkpoint { .. } => 0,
    }
}

/// The greatest identifier in the record, and 0 where it has none.
fn tid_number(r: &Record) -> u64
    ensures { result ≡ greatest (tids_in r.now) }
{
    match r {
        Record::BatchInfo { tids, .. } => greatest_of(tids.as_slice()),
        Record::ActPrepare { tid, .. } => tid.0,
        Record::ActCommit { tid, .. } => tid.0,
        Record::ActDone { tid, .. } => tid.0,
        _ => 0,
    }
}

fn greatest_of(tids: &[Tid]) -> u64
    ensures { result ≡ greatest (tid_numbers tids.now) }
{
    let mut most = 0;
    for tid in tids {
        most = most.max(tid.0);
    }
    most
}

/// The commit number in the record, and 0 where it has none.
fn commit_number(r: &Record) -> u64
    ensures { result ≡ greatest (commits_in r.now) }
{
    match r {
        Record::ActCommit { c, .. } => *c,
        Record::ActDone { c, .. } => *c,
        _ => 0,
    }
}
