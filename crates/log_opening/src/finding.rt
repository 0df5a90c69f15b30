//! Opening all four logs, and finding which of them are in use.
ghost use Rattle.std.specs.Prelude.{◌≡◌, ◌+◌, ◌≤◌, ℕ, List, [], length, vec_len, vec_capacity, IfOk, IfErr, OnOk};
ghost use Rattle.std.specs.List.{AllByRecursion};
ghost use Rattle.txn_records.specs.declared.records.Record.{Record};
ghost use Rattle.log_compact.specs.Finding.{IsFoundSet, IsUsed};
ghost use Rattle.log_opening.specs.Devices.{devices_now};
ghost use Rattle.log_opening.specs.Found.{AreAllFound, ArePlaced, IsHalted};
ghost use Rattle.log_opening.specs.Kept.{AreUsed};
ghost use Rattle.log_opening.specs.Upgrades.{items_at};

use crate::LogsNo;
use crate::openings::{OpenLogs, open_logs};
use gate_log::logs_are_lists;
use log_compact::{Found, find};
use snap_base::Memory;
use snap_outside::LogDev;
use std::alloc::Global;

/// Opens all four logs, from device 0 on, and tells which are in use by the records in front of them: those of the set; or, where there is
/// none, this many from device 0 on.
pub(crate) fn open_all<D: LogDev>(
    alloc: Global,
    devices: &mut Vec<D>,
    opened: &mut OpenLogs<D>,
    many: u8,
) -> Result<Found, LogsNo>
    requires four { vec_len devices.old ≡ 4 }
    requires none { (opened.old.found ≡ []) × (vec_len opened.old.logs ≡ 0) }
    requires room { (4 ≤ vec_capacity opened.old.logs) × (4 ≤ vec_capacity devices.old) }
    requires many { many ≤ 4 }
    ensures used { IfOk result (λ f. AreUsed many (devices_now D.told D.faults opened.old.logs.items devices.old.items) f.head f.logs f.generation) }
    ensures within { IfOk result (λ f. f.head + f.logs ≤ 4) }
    // Where there is a set, an item was found on its head.
    ensures set { IfOk result (λ f. items_at opened.new.found f.head ≡ [] → (f.head ≡ 0) × (f.generation ≡ 0)) }
    ensures found { OnOk result (AreAllFound (devices_now D.told D.faults opened.old.logs.items devices.old.items) opened.new.logs.items opened.new.found) }
    ensures halted { IfErr result (λ no. IsHalted 4 (devices_now D.told D.faults opened.old.logs.items devices.old.items) (devices_now D.told D.faults opened.new.logs.items devices.new.items) no) }
    ensures four { vec_len opened.new.logs + vec_len devices.new ≡ 4 }
    ensures all { OnOk result (vec_len opened.new.logs ≡ 4) }
    ensures items { OnOk result (length opened.new.found ≡ 4) }
    ensures placed { OnOk result (AllByRecursion ArePlaced opened.new.found) }
    ensures room_back { vec_capacity devices.new ≡ vec_capacity devices.old }
{
    logs_are_lists();
    match open_logs(alloc, devices, opened, 4) {
        Ok(()) => {}
        Err(no) => return Err(no),
    }
    match find(alloc, opened.found.as_slice()) {
        Ok(set) => Ok(in_use(set, many)),
        Err(Memory) => Err(LogsNo::Memory),
    }
}

/// The logs in use, where this is the set or there is none.
fn in_use(set: Option<Found>, many: u8) -> Found
    ensures { (fronts : ℕ → List Record) → IsFoundSet fronts set → IsUsed fronts many result.head result.logs result.generation }
{
    match set {
        Some(found) => found,
        None => Found {
            head: 0,
            logs: many,
            generation: 0,
        },
    }
}
