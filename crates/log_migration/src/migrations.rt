//! Upgrading the logs of format 1 on four devices, once what those in use hold is recovered.
ghost use Rattle.std.specs.Prelude.{◌≡◌, ◌+◌, ◌≤◌, ℕ, List, [], map, take, drop, false, IfErr, IfOk, MatchResult, string_bytes, vec_len, vec_capacity};
ghost use Rattle.std.specs.List.{AllByRecursion, AllZip};
ghost use Rattle.log_migration.specs.Migrated.{AreMigrated, IsMigrateNo, IsNotTold};
ghost use Rattle.log_opening.specs.Devices.{Device, AreBegun, as_device, devices_of, devices_now};
ghost use Rattle.log_opening.specs.Found.{IsKeptSafe};
ghost use Rattle.log_opening.specs.Reads.{AreOpenOn};
ghost use Rattle.log_opening.specs.Upgrades.{AreOld};
ghost use Rattle.record_log.specs.Records.{KeepsRecords};
ghost use Rattle.snap_report.specs.Lines.{migrated_text};

use gate_log::Log;
use log_opening::{LogsNo, OpenLogs, close, count_old, no_logs, open_and_recover, upgrade_all};
use snap_outside::LogDev;
use snap_report::migrated_line;
use std::alloc::Global;

/// Opens all four logs and recovers what those in use hold, where a checkpoint counts; then makes each of these that is of format 1 one
/// of format 2, from the first on. The answer is the line that tells how many these were, which is made before the first of them is
/// touched. A log is named by its device.
pub fn migrate<D: LogDev>(alloc: Global, devices: &mut Vec<D>) -> Result<String, LogsNo>
    requires { vec_len devices.old ≡ 4 }
    ensures migrated { IfOk result (λ line. (count : ℕ) × (string_bytes line ≡ migrated_text count) × AreMigrated (devices_of D.told D.faults devices.old.items) (devices_of D.told D.faults devices.new.items) count) }
    ensures refused { IfErr result (λ no. IsMigrateNo (devices_of D.told D.faults devices.old.items) (devices_of D.told D.faults devices.new.items) no) }
    ensures four { vec_len devices.new ≡ 4 }
    // A crash at any moment loses no record, so the logs recover to the same as before.
    ensures safe { AllZip (λ (b a : Device). KeepsRecords b.told a.told) (devices_of D.told D.faults devices.old.items) (devices_of D.told D.faults devices.new.items) }
    ensures later { AllZip (λ (b a : Device). b.faults ≤ a.faults) (devices_of D.told D.faults devices.old.items) (devices_of D.told D.faults devices.new.items) }
{
    let Ok(mut opened) = no_logs(alloc, devices.len()) else {
        return Err(LogsNo::Memory);
    };
    let answer = recover_and_upgrade(alloc, devices, &mut opened);
    let OpenLogs { logs, found: _ } = opened;
    close(logs, devices, 0);
    answer
}

/// Opens the logs, recovers what those in use hold and upgrades those of these that are of format 1. All that were opened stay open.
fn recover_and_upgrade<D: LogDev>(
    alloc: Global,
    devices: &mut Vec<D>,
    opened: &mut OpenLogs<D>,
) -> Result<String, LogsNo>
    requires four { vec_len devices.old ≡ 4 }
    requires none { (opened.old.found ≡ []) × (vec_len opened.old.logs ≡ 0) }
    requires room { (4 ≤ vec_capacity opened.old.logs) × (4 ≤ vec_capacity devices.old) }
    ensures answered { MatchResult result
        (λ line. (count : ℕ) × (string_bytes line ≡ migrated_text count)
        × AreMigrated (devices_now D.told D.faults opened.old.logs.items devices.old.items) (devices_now D.told D.faults opened.new.logs.items devices.new.items) count)
        (λ no. IsMigrateNo (devices_now D.told D.faults opened.old.logs.items devices.old.items) (devices_now D.told D.faults opened.new.logs.items devices.new.items) no) }
    ensures safe { AllZip IsKeptSafe (devices_now D.told D.faults opened.old.logs.items devices.old.items) (devices_now D.told D.faults opened.new.logs.items devices.new.items) }
    ensures four { vec_len opened.new.logs + vec_len devices.new ≡ 4 }
    ensures room { 4 ≤ vec_capacity devices.new }
{
    match open_and_recover(alloc, devices, opened) {
        Ok((_folded, found)) => {
            tell_and_upgrade(
                alloc,
                &mut opened.logs,
                found.head as usize,
                found.logs as usize,
            )
        }
        Err(no) => Err(no),
    }
}

/// The line that tells how many of the logs in use, so many from this device on, are of format 1. These are upgraded then.
fn tell_and_upgrade<D: LogDev>(
    alloc: Global,
    logs: &mut Vec<Log<D>>,
    head: usize,
    count: usize,
) -> Result<String, LogsNo>
    requires within { head + count ≤ vec_len logs.old }
    requires few { vec_len logs.old ≤ 4 }
    requires open { AllByRecursion (λ l. l.shut ≡ false) logs.old.items }
    ensures told { IfOk result (λ line. (old : ℕ) × (string_bytes line ≡ migrated_text old) × ((before : List Device) → AreOpenOn before logs.old.items
        → AreOld (take count (drop head before)) old × AreBegun head count before (map as_device logs.new.items))) }
    ensures failed { IfErr result (λ no. (before : List Device) → AreOpenOn before logs.old.items → IsNotTold head count before (map as_device logs.new.items) no) }
    ensures safe { (before : List Device) → AreOpenOn before logs.old.items → AllZip IsKeptSafe before (map as_device logs.new.items) }
    ensures len { vec_len logs.new ≡ vec_len logs.old }
{
    let Ok(line) = migrated_line(alloc, count_old(logs.as_slice(), head, count)) else {
        return Err(LogsNo::Memory);
    };
    match upgrade_all(alloc, logs, head, count) {
        Ok(()) => Ok(line),
        Err(no) => Err(no),
    }
}
