//! Why logs are not compacted, though they fold.
ghost use Rattle.std.specs.Prelude.{◌≡◌, ◌↔◌, ◌+◌, ◌<◌, ◌≤◌, IsTrue, length, vec_len, MatchOption};
ghost use Rattle.log_compaction.specs.Compacted.{IsUnspentFold, IsFirstSpentOf, numbers_of};
ghost use Rattle.log_compaction.specs.Steps.{AreRecent, IsFirstOld, IsOldAt, IsRefusedFor, MayBeWritten};

use crate::limits::GREATEST_TO_COMPACT;
use log_opening::{Folded, Found, LogsNo, OpenLogs};
use snap_outside::LogDev;
use snap_recover::LogCause;

/// Why logs are not compacted. A log is named by its device.
#[derive(Clone, Copy, Debug, PartialEq, Eq)]
pub enum CompactNo {
    /// The logs are not opened, or fold to nothing; or one in use is of format 1 and has an item (`OldFormat`), or a number of what they fold
    /// to is above `GREATEST_TO_COMPACT` (`Spent`); or a device failed, or there was no memory.
    Logs(LogsNo),
    /// So many logs are in use. A side of a compaction has two at most.
    TooMany { logs: u8 },
}

/// Why the logs in use, which are open with all four and fold to this, are not compacted.
pub(crate) fn refusal<D: LogDev>(
    opened: &OpenLogs<D>,
    set: Found,
    folded: &Folded,
) -> Option<CompactNo>
    requires four { (length opened.now.found ≡ 4) × (vec_len opened.now.logs ≡ 4) }
    requires within { set.head + set.logs ≤ 4 }
    ensures { MatchOption result
        (MayBeWritten opened.now.logs.items opened.now.found set.head set.logs folded.now)
        (λ no. IsRefusedFor opened.now.logs.items opened.now.found set.head set.logs folded.now no) }
{
    if let Some(log) = first_old(opened, set.head, set.logs) {
        return Some(refused(log, LogCause::OldFormat));
    }
    if let Some(number) = spent(folded) {
        return Some(refused(set.head, LogCause::Spent { number }));
    }
    if set.logs > 2 {
        return Some(CompactNo::TooMany { logs: set.logs });
    }
    None
}

/// The answer that refuses this log for a cause that stands at no place in it.
fn refused(log: u8, cause: LogCause) -> CompactNo
    ensures { result ≡ CompactNo.Logs (LogsNo.Refused log 0 cause) }
{
    CompactNo::Logs(LogsNo::Refused {
        log,
        offset: 0,
        cause,
    })
}

/// The first of the logs in use, so many from the head on, that is of format 1 and has an item.
fn first_old<D: LogDev>(opened: &OpenLogs<D>, head: u8, count: u8) -> Option<u8>
    requires four { (length opened.now.found ≡ 4) × (vec_len opened.now.logs ≡ 4) }
    requires within { head + count ≤ 4 }
    ensures { MatchOption result
        (AreRecent opened.now.logs.items opened.now.found head count)
        (λ log. IsFirstOld opened.now.logs.items opened.now.found head count log) }
{
    for number in 0..count {
        if is_old(opened, (head + number) as usize) {
            return Some(head + number);
        }
    }
    None
}

/// Whether this log is of format 1 and has an item.
fn is_old<D: LogDev>(opened: &OpenLogs<D>, log: usize) -> bool
    requires four { (length opened.now.found ≡ 4) × (vec_len opened.now.logs ≡ 4) }
    requires there { log < 4 }
    ensures { IsTrue result ↔ IsOldAt opened.now.logs.items opened.now.found log }
{
    opened.logs[log].format() == 1 && !opened.found.as_slice()[log].as_slice().is_empty()
}

/// The first number of the fold that is too large for a checkpoint.
fn spent(folded: &Folded) -> Option<u64>
    ensures { MatchOption result (IsUnspentFold folded.now) (λ n. IsFirstSpentOf (numbers_of folded.now) n) }
{
    let opening = &folded.opening;
    if opening.next_tid.0 > GREATEST_TO_COMPACT {
        return Some(opening.next_tid.0);
    }
    if opening.next_bid.0 > GREATEST_TO_COMPACT {
        return Some(opening.next_bid.0);
    }
    if opening.next_c > GREATEST_TO_COMPACT {
        return Some(opening.next_c);
    }
    if folded.generation > GREATEST_TO_COMPACT {
        return Some(folded.generation);
    }
    if folded.batches > GREATEST_TO_COMPACT {
        return Some(folded.batches);
    }
    if folded.acts > GREATEST_TO_COMPACT {
        return Some(folded.acts);
    }
    None
}
