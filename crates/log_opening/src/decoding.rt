//! The records of the logs in use, and what they fold to.
ghost use Rattle.std.specs.Prelude.{◌+◌, ◌≤◌, length, MatchResult};
ghost use Rattle.std.specs.List.{AllByRecursion, AllZip};
ghost use Rattle.record_log.specs.Records.{AreItemsOf};
ghost use Rattle.log_compact.specs.Sets.{IsFolded};
ghost use Rattle.log_opening.specs.Found.{ArePlaced, IsNoReading, IsNoDecoding, IsNoFold};

use crate::LogsNo;
use crate::refusals::of_fold;
use gate_log::LogItem;
use log_compact::{Folded, fold};
use record_log::{ItemsNo, records_of};
use snap_base::Sequence;
use snap_recover::LogCause;
use std::alloc::Global;
use txn_records::Record;

/// The records that the items of this log are; `BadRecord` tells the first byte at which no record goes on.
pub fn read_log(alloc: Global, items: &[LogItem], log: u8) -> Result<Sequence<Record>, LogsNo>
    requires { ArePlaced items.now }
    ensures { MatchResult result (λ rs. AreItemsOf items.now rs) (λ no. IsNoReading items.now log no) }
{
    match records_of(alloc, items) {
        Ok(records) => Ok(records),
        Err(ItemsNo::BadRecord { offset }) => Err(LogsNo::Refused {
            log,
            offset,
            cause: LogCause::BadRecord,
        }),
        Err(ItemsNo::Memory) => Err(LogsNo::Memory),
    }
}

/// The records of the logs in use, in which these items were found, and the first of which lies on this device. The logs are decoded in
/// their order; `BadRecord` names the first one that holds an item that is no record.
pub fn read_logs(
    alloc: Global,
    found: &[Sequence<LogItem>],
    head: u8,
) -> Result<Sequence<Sequence<Record>>, LogsNo>
    requires placed { AllByRecursion ArePlaced found.now }
    requires few { head + length found.now ≤ 4 }
    ensures { MatchResult result (λ lists. AllZip AreItemsOf found.now lists) (λ no. IsNoDecoding head found.now no) }
{
    let mut lists = Sequence::new(alloc);
    for number in 0..found.len() {
        match read_log(alloc, found[number].as_slice(), head + number as u8) {
            Ok(records) => {
                if lists.push(records).is_err() {
                    return Err(LogsNo::Memory);
                }
            }
            Err(no) => return Err(no),
        }
    }
    Ok(lists)
}

/// What the records of the logs in use, the first of which lies on this device, fold to; or the cause for which they fold to nothing, and
/// the log, by its device.
pub fn fold_records(
    alloc: Global,
    lists: Sequence<Sequence<Record>>,
    head: u8,
) -> Result<Folded, LogsNo>
    requires { head + length lists ≤ 4 }
    ensures { MatchResult result (λ f. IsFolded lists f) (λ no. IsNoFold head lists no) }
{
    match fold(alloc, lists) {
        Ok(folded) => Ok(folded),
        Err(no) => Err(of_fold(no, head)),
    }
}
