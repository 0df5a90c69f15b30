//! The logs in use, told by what stands in front of each log.
ghost use Rattle.std.specs.Prelude.{◌≡◌, List, IfOk, MatchOption};
ghost use Rattle.std.specs.List.{AllZip};
ghost use Rattle.gate_log.specs.Opened.{bytes_of};
ghost use Rattle.gate_log.specs.declared.logs.LogItem.{LogItem};
ghost use Rattle.txn_records.specs.Records.{IsRecord, record_bytes};
ghost use Rattle.txn_records.specs.declared.records.Record.{Record};
ghost use Rattle.log_compact.specs.Finding.{IsFoundSet, lists_at};
ghost use Rattle.log_compact.specs.Fronts.{IsFront, IsNoRecord};

use crate::founds::{Found, set_of};
use gate_log::LogItem;
use snap_base::{Memory, Sequence};
use std::alloc::Global;
use txn_records::{DecodeNo, Record, decode};

/// The set of devices whose logs have these items, one list for each device in their order; `None` where no device is a head.
/// Only the records in front are read. The refusal is want of memory.
pub fn find(alloc: Global, items: &[Sequence<LogItem>]) -> Result<Option<Found>, Memory>
    ensures { IfOk result (λ f. (fronts : List (List Record)) × AllZip (λ (is : List LogItem) (front : List Record). IsFront (bytes_of is) front) items.now fronts × IsFoundSet (lists_at fronts) f) }
{
    let fronts = fronts_of(alloc, items)?;
    Ok(set_of(fronts.as_slice()))
}

/// The records in front of each list of items.
fn fronts_of(
    alloc: Global,
    items: &[Sequence<LogItem>],
) -> Result<Sequence<Sequence<Record>>, Memory>
    ensures { IfOk result (λ fronts. AllZip (λ (is : List LogItem) (front : List Record). IsFront (bytes_of is) front) items.now fronts) }
{
    let mut fronts = Sequence::new(alloc);
    for log in items {
        let front = front_of(alloc, log.as_slice())?;
        fronts.push(front)?;
    }
    Ok(fronts)
}

/// The records in front of these items: two at most, up to the first item that is no record.
fn front_of(alloc: Global, items: &[LogItem]) -> Result<Sequence<Record>, Memory>
    ensures { IfOk result (λ front. IsFront (bytes_of items.now) front) }
{
    let mut front = Sequence::new(alloc);
    for item in items {
        if front.len() == 2 {
            return Ok(front);
        }
        match record_in(alloc, item)? {
            Some(record) => front.push(record)?,
            None => return Ok(front),
        }
    }
    Ok(front)
}

/// The record that the item is; `None` where it is none.
fn record_in(alloc: Global, item: &LogItem) -> Result<Option<Record>, Memory>
    ensures { IfOk result (λ found. MatchOption found (IsNoRecord item.now.bytes) (λ r. IsRecord r × (item.now.bytes ≡ record_bytes r))) }
{
    match decode(alloc, item.bytes.as_slice()) {
        Ok(record) => Ok(Some(record)),
        Err(DecodeNo::Bad { .. }) => Ok(None),
        Err(DecodeNo::Memory) => Err(Memory),
    }
}
