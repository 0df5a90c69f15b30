//! One round over a reading of the logs in use.
ghost use Rattle.std.specs.Prelude.{◌≡◌, ◌+◌, ◌≤◌, List, length, MatchResult};
ghost use Rattle.std.specs.List.{AllByRecursion, AllZip};
ghost use Rattle.txn_records.specs.declared.records.Record.{Record};
ghost use Rattle.record_log.specs.Records.{AreItemsOf};
ghost use Rattle.log_compact.specs.Counts.{CountsBefore};
ghost use Rattle.log_opening.specs.Found.{ArePlaced};
ghost use Rattle.snap_follow.specs.Rounds.{IsRound};
ghost use Rattle.log_following.specs.Rounds.{IsNoRound, IsRefusedReading, MayBeRead};
ghost use Rattle.log_following.specs.Steps.{used_of};

use crate::refusals::{of_checkpoint, of_round};
use gate_log::LogItem;
use log_compact::{Counts, Found, checkpoint_no, counts_before};
use log_opening::{LogsNo, read_logs};
use snap_base::Sequence;
use snap_follow::Follower;
use std::alloc::Global;
use txn_records::Record;

/// Decodes the logs in use, of those with these items, and makes a round over their records; what was committed before their checkpoint. A
/// refusal leaves the follower as it was.
pub(crate) fn make_round(
    alloc: Global,
    items: &[Sequence<LogItem>],
    set: Found,
    follower: &mut Follower,
) -> Result<Counts, LogsNo>
    requires within { set.head + set.logs ≤ length items.now }
    requires some { 1 ≤ set.logs }
    requires few { length items.now ≤ 4 }
    requires placed { AllByRecursion ArePlaced items.now }
    requires many { length follower.old.before ≡ set.logs }
    ensures { MatchResult result
        (λ counts. (lists : List (List Record)) × AllZip AreItemsOf (used_of set.head set.logs items.now) lists × MayBeRead lists
        × IsRound follower.old lists follower.new × CountsBefore lists counts)
        (λ no. (follower.new ≡ follower.old) × IsRefusedReading set.head (used_of set.head set.logs items.now) follower.old.before no) }
{
    let head = set.head as usize;
    let in_use = &items[head..head + set.logs as usize];
    match read_logs(alloc, in_use, set.head) {
        Ok(lists) => round_over(alloc, lists, set.head, follower),
        Err(no) => Err(no),
    }
}

/// Makes a round over the records of the logs in use, the first of which lies on this device, where their checkpoint is not refused.
fn round_over(
    alloc: Global,
    lists: Sequence<Sequence<Record>>,
    head: u8,
    follower: &mut Follower,
) -> Result<Counts, LogsNo>
    requires some { 1 ≤ length lists }
    requires few { head + length lists ≤ 4 }
    requires many { length lists ≡ length follower.old.before }
    ensures { MatchResult result
        (λ counts. MayBeRead lists × IsRound follower.old lists follower.new × CountsBefore lists counts)
        (λ no. (follower.new ≡ follower.old) × IsNoRound head follower.old.before lists no) }
{
    if let Some(no) = checkpoint_no(lists.as_slice()) {
        return Err(of_checkpoint(no, head));
    }
    let counts = counts_before(lists.as_slice());
    match follower.round(alloc, lists) {
        Ok(()) => Ok(counts),
        Err(no) => Err(of_round(no, head)),
    }
}
