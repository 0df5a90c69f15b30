//! Opening the logs of a run, of which the caller says how many there are, ready for appends, with their records.
ghost use Rattle.std.specs.Prelude.{◌≡◌, ◌≢◌, ◌+◌, ◌≤◌, ℕ, List, [], length, map, vec_len, vec_capacity, IfOk, OnOk, MatchOption, MatchResult};
ghost use Rattle.std.specs.List.{AllByRecursion, AllZip};
ghost use Rattle.log_opening.specs.Devices.{Device, as_device, devices_now};
ghost use Rattle.log_opening.specs.Found.{AreAllFound, ArePlaced, IsHandled, IsReadyLog};
ghost use Rattle.log_opening.specs.Kept.{AreUsed};
ghost use Rattle.log_opening.specs.Counted.{AreOpenWith, AreNotRead};
ghost use Rattle.log_opening.specs.Upgrades.{items_at};

use crate::LogsNo;
use crate::decoding::read_logs;
use crate::finding::open_all;
use crate::openings::OpenLogs;
use crate::upgrades::make_ready;
use gate_log::{logs_are_lists, one_list, opening_is_safe};
use log_compact::Found;
use record_log::{opened_holds, records_are_held, upgrade_keeps};
use snap_base::Sequence;
use snap_outside::LogDev;
use snap_recover::LogCause;
use std::alloc::Global;
use txn_records::Record;

/// The records of the logs in use, which must be so many, and which these are. All four are opened, from device 0 on; the records in front
/// of them tell which are in use, and where they tell none it is so many from device 0 on. Of those in use the ones of format 1 that have
/// no item are upgraded, and none of format 1 may be left; then they are decoded. All stay open.
pub fn open_and_decode<D: LogDev>(
    alloc: Global,
    devices: &mut Vec<D>,
    opened: &mut OpenLogs<D>,
    count: usize,
) -> Result<(Sequence<Sequence<Record>>, Found), LogsNo>
    requires four { vec_len devices.old ≡ 4 }
    requires none { (opened.old.found ≡ []) × (vec_len opened.old.logs ≡ 0) }
    requires room { (4 ≤ vec_capacity opened.old.logs) × (4 ≤ vec_capacity devices.old) }
    requires few { count ≤ 4 }
    ensures four { vec_len opened.new.logs + vec_len devices.new ≡ 4 }
    ensures all { OnOk result (vec_len opened.new.logs ≡ 4) }
    ensures room_back { vec_capacity devices.new ≡ vec_capacity devices.old }
    ensures count { IfOk result (λ x. (length x.0 ≡ count) × (x.1.logs ≡ count)) }
    ensures read { MatchResult result
        (λ x. AreOpenWith (devices_now D.told D.faults opened.old.logs.items devices.old.items) opened.new.logs.items x.1.head x.1.generation x.0)
        (λ no. AreNotRead count (devices_now D.told D.faults opened.old.logs.items devices.old.items) (devices_now D.told D.faults opened.new.logs.items devices.new.items) no
        × AllZip IsHandled (devices_now D.told D.faults opened.old.logs.items devices.old.items) (devices_now D.told D.faults opened.new.logs.items devices.new.items)) }
{
    let found = match open_all(alloc, devices, opened, count as u8) {
        Ok(found) => found,
        Err(no) => return Err(no),
    };
    match other_number(found, count) {
        Some(no) => return Err(no),
        None => {}
    }
    match ready_records(alloc, opened, found.head, count) {
        Ok(lists) => Ok((lists, found)),
        Err(no) => Err(no),
    }
}

/// Why the logs in use are refused, where they are not so many.
fn other_number(found: Found, count: usize) -> Option<LogsNo>
    ensures { MatchOption result (found.logs ≡ count) (λ no. (found.logs ≢ count) × (no ≡ LogsNo.Refused found.head 0 (LogCause.LogCount found.logs count))) }
{
    if found.logs as usize == count {
        return None;
    }
    Some(LogsNo::Refused {
        log: found.head,
        offset: 0,
        cause: LogCause::LogCount {
            kept: found.logs as u64,
            found: count as u64,
        },
    })
}

/// The records of the logs in use, so many from this device on, which are made ready for appends first.
fn ready_records<D: LogDev>(
    alloc: Global,
    opened: &mut OpenLogs<D>,
    head: u8,
    count: usize,
) -> Result<Sequence<Sequence<Record>>, LogsNo>
    requires four { (length opened.old.found ≡ 4) × (vec_len opened.old.logs ≡ 4) }
    requires within { head + count ≤ 4 }
    requires ready { AllZip IsReadyLog opened.old.logs.items opened.old.found }
    requires placed { AllByRecursion ArePlaced opened.old.found }
    ensures len { vec_len opened.new.logs ≡ vec_len opened.old.logs }
    ensures read { (before : List Device) (generation : ℕ) → AreUsed count before head count generation → AreAllFound before opened.old.logs.items opened.old.found
        → (items_at opened.old.found head ≡ [] → (head ≡ 0) × (generation ≡ 0))
        → MatchResult result (λ lists. AreOpenWith before opened.new.logs.items head generation lists × (length lists ≡ count))
        (λ no. AreNotRead count before (map as_device opened.new.logs.items) no × AllZip IsHandled before (map as_device opened.new.logs.items)) }
{
    logs_are_lists();
    one_list();
    opening_is_safe();
    opened_holds();
    records_are_held();
    upgrade_keeps();
    let first = head as usize;
    match make_ready(&mut opened.logs, opened.found.as_slice(), first, count) {
        Ok(()) => {}
        Err(no) => return Err(no),
    }
    read_logs(alloc, &opened.found.as_slice()[first..first + count], head)
}
