//! What the logs on four devices recover to. All are opened; the records in front of them tell which are in use.
ghost use Rattle.std.specs.Prelude.{◌≡◌, ◌+◌, ◌≤◌, ℕ, List, [], length, vec_len, vec_capacity, IfOk, IfErr, OnOk, MatchResult};
ghost use Rattle.std.specs.List.{AllZip};
ghost use Rattle.txn_records.specs.declared.limits.TheConstants.{MOST_LISTED};
ghost use Rattle.txn_records.specs.declared.records.Record.{Record};
ghost use Rattle.record_log.specs.Records.{KeepsRecords};
ghost use Rattle.log_compact.specs.declared.folds.Folded.{Folded};
ghost use Rattle.log_compact.specs.Sets.{IsFolded};
ghost use Rattle.log_opening.specs.Devices.{Device, devices_of, devices_now, IsOpenedAtMost, AreOpened};
ghost use Rattle.log_opening.specs.Found.{AreAllFound};
ghost use Rattle.log_opening.specs.Kept.{AreGiven, IsLogsNo};
ghost use Rattle.log_opening.specs.Reads.{AreOpenOn, AreRead, IsEnded, IsOpenOn};

use crate::LogsNo;
use crate::decoding::{fold_records, read_logs};
use crate::finding::open_all;
use crate::openings::{OpenLogs, close, no_logs};
use log_compact::{Folded, Found, folds_are_of_records};
use record_log::{opened_holds, records_are_held};
use snap_base::Sequence;
use snap_outside::LogDev;
use std::alloc::Global;
use txn_records::Record;

/// What the logs on these devices recover to, where a checkpoint counts: it stands for the records that were there before it, so this is
/// what they fold to. All four are opened, from device 0 on; the records in front of them tell which are in use, and it is log 0 alone
/// where they tell none; these are decoded then. The cause `LogCount` comes only where Genesis does not stand in front of its log.
pub fn recover_kept<D: LogDev>(alloc: Global, devices: &mut Vec<D>) -> Result<Folded, LogsNo>
    requires { vec_len devices.old ≡ 4 }
    // All four logs are opened.
    ensures recovered { IfOk result (λ (f : Folded). (head : ℕ) × (lists : List (List Record)) × AreGiven (devices_of D.told D.faults devices.old.items) head lists × IsFolded lists f
        × AreOpened 4 (devices_of D.told D.faults devices.old.items) (devices_of D.told D.faults devices.new.items)) }
    ensures refused { IfErr result (λ no. IsLogsNo (devices_of D.told D.faults devices.old.items) (devices_of D.told D.faults devices.new.items) no) }
    ensures actors { IfOk result (λ (f : Folded). length f.opening.states ≤ MOST_LISTED) }
    ensures four { vec_len devices.new ≡ 4 }
    // Each device got no call but those of opening, and a crash at any moment loses no record.
    ensures opened { AllZip IsOpenedAtMost (devices_of D.told D.faults devices.old.items) (devices_of D.told D.faults devices.new.items) }
    ensures safe { AllZip (λ (a b : Device). KeepsRecords a.told b.told) (devices_of D.told D.faults devices.old.items) (devices_of D.told D.faults devices.new.items) }
    ensures later { AllZip (λ (a b : Device). a.faults ≤ b.faults) (devices_of D.told D.faults devices.old.items) (devices_of D.told D.faults devices.new.items) }
{
    folds_are_of_records();
    match all_records(alloc, devices) {
        Ok((lists, found)) => fold_records(alloc, lists, found.head),
        Err(no) => Err(no),
    }
}

/// What the logs on these devices recover to, where a checkpoint counts, and which of them are in use: where the records in front of them
/// tell none it is log 0 alone. All four are opened, from device 0 on, and stay open, also where nothing is recovered.
pub fn open_and_recover<D: LogDev>(
    alloc: Global,
    devices: &mut Vec<D>,
    opened: &mut OpenLogs<D>,
) -> Result<(Folded, Found), LogsNo>
    requires four { vec_len devices.old ≡ 4 }
    requires none { (opened.old.found ≡ []) × (vec_len opened.old.logs ≡ 0) }
    requires room { (4 ≤ vec_capacity opened.old.logs) × (4 ≤ vec_capacity devices.old) }
    ensures recovered { IfOk result (λ x. (lists : List (List Record)) × (length lists ≡ x.1.logs)
        × IsOpenOn (devices_now D.told D.faults opened.old.logs.items devices.old.items) opened.new.logs.items x.1.head lists x.0) }
    ensures found { OnOk result (AreAllFound (devices_now D.told D.faults opened.old.logs.items devices.old.items) opened.new.logs.items opened.new.found) }
    ensures refused { IfErr result (λ no. IsEnded (devices_now D.told D.faults opened.old.logs.items devices.old.items) (devices_now D.told D.faults opened.new.logs.items devices.new.items) no) }
    ensures four { vec_len opened.new.logs + vec_len devices.new ≡ 4 }
    ensures all { OnOk result (vec_len opened.new.logs ≡ 4) }
    ensures room { 4 ≤ vec_capacity devices.new }
{
    let read = match open_and_read(alloc, devices, opened) {
        Ok(read) => read,
        Err(no) => return Err(no),
    };
    let (lists, found) = read;
    match fold_records(alloc, lists, found.head) {
        Ok(folded) => Ok((folded, found)),
        Err(no) => Err(no),
    }
}

/// The records of the logs in use, and which these are. All are opened and closed.
fn all_records<D: LogDev>(
    alloc: Global,
    devices: &mut Vec<D>,
) -> Result<(Sequence<Sequence<Record>>, Found), LogsNo>
    requires { vec_len devices.old ≡ 4 }
    ensures read { MatchResult result
        (λ x. AreRead (devices_of D.told D.faults devices.old.items) (devices_of D.told D.faults devices.new.items) x.1.head x.0)
        (λ no. IsEnded (devices_of D.told D.faults devices.old.items) (devices_of D.told D.faults devices.new.items) no) }
    ensures within { IfOk result (λ x. (x.1.head + length x.0 ≤ 4) × (length x.0 ≡ x.1.logs)) }
    ensures four { vec_len devices.new ≡ 4 }
{
    let Ok(mut opened) = no_logs(alloc, devices.len()) else {
        return Err(LogsNo::Memory);
    };
    let answer = open_and_read(alloc, devices, &mut opened);
    let OpenLogs { logs, found: _ } = opened;
    close(logs, devices, 0);
    answer
}

/// The records of the logs in use, and which these are. All are opened, and none of them is open yet.
fn open_and_read<D: LogDev>(
    alloc: Global,
    devices: &mut Vec<D>,
    opened: &mut OpenLogs<D>,
) -> Result<(Sequence<Sequence<Record>>, Found), LogsNo>
    requires four { vec_len devices.old ≡ 4 }
    requires none { (opened.old.found ≡ []) × (vec_len opened.old.logs ≡ 0) }
    requires room { (4 ≤ vec_capacity opened.old.logs) × (4 ≤ vec_capacity devices.old) }
    ensures read { MatchResult result
        (λ x. AreRead (devices_now D.told D.faults opened.old.logs.items devices.old.items) (devices_now D.told D.faults opened.new.logs.items devices.new.items) x.1.head x.0)
        (λ no. IsEnded (devices_now D.told D.faults opened.old.logs.items devices.old.items) (devices_now D.told D.faults opened.new.logs.items devices.new.items) no) }
    ensures within { IfOk result (λ x. (x.1.head + length x.0 ≤ 4) × (length x.0 ≡ x.1.logs)) }
    ensures open { OnOk result (AreOpenOn (devices_now D.told D.faults opened.old.logs.items devices.old.items) opened.new.logs.items) }
    ensures found { OnOk result (AreAllFound (devices_now D.told D.faults opened.old.logs.items devices.old.items) opened.new.logs.items opened.new.found) }
    ensures four { vec_len opened.new.logs + vec_len devices.new ≡ 4 }
    ensures all { OnOk result (vec_len opened.new.logs ≡ 4) }
    ensures room { 4 ≤ vec_capacity devices.new }
{
    opened_holds();
    records_are_held();
    let found = match open_all(alloc, devices, opened, 1) {
        Ok(found) => found,
        Err(no) => return Err(no),
    };
    let head = found.head as usize;
    let items = &opened.found.as_slice()[head..head + found.logs as usize];
    match read_logs(alloc, items, found.head) {
        Ok(lists) => Ok((lists, found)),
        Err(no) => Err(no),
    }
}
