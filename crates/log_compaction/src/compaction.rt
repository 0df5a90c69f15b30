//! The command that writes a checkpoint in place of old records.
ghost use Rattle.std.specs.Prelude.{◌≡◌, ◌+◌, ◌<◌, ◌≤◌, ◌⊎◌, ◌^◌, ℕ, List, [], length, map, vec_len, vec_capacity, IfOk, IfErr, OnOk, MatchResult, string_bytes};
ghost use Rattle.std.specs.List.{AllByRecursion, AllZip};
ghost use Rattle.gate_log.specs.State.{AreAllOpen};
ghost use Rattle.txn_records.specs.declared.records.Record.{Record};
ghost use Rattle.txn_records.specs.Records.{IsRecord};
ghost use Rattle.snap_report.specs.Lines.{compacted_text};
ghost use Rattle.log_compact.specs.Compacting.{group_for, other_side};
ghost use Rattle.log_compact.specs.OnDevices.{OpenDevice};
ghost use Rattle.log_opening.specs.Devices.{Device, as_device, devices_of, devices_now};
ghost use Rattle.log_compaction.specs.Compacted.{AreCompacted, IsNoCompaction, IsUnspentFold};
ghost use Rattle.log_compaction.specs.Crashes.{CompactsSafely};
ghost use Rattle.log_compaction.specs.Ready.{AreOfFormat};
ghost use Rattle.log_compaction.specs.Steps.{IsGuarded, IsNotCompacted, IsOpenSet};
ghost use Rattle.log_compaction.specs.Written.{AreAllDone, AreLater, AreOn, WritesSoFar};

use crate::laws::{compaction_fits, guarded_is_safe};
use crate::refusals::{CompactNo, refusal};
use crate::writes::{CompactionNo, write_checkpoint};
use gate_log::{
    Log, append_is_whole, clear_is_safe, logs_are_lists, one_list, opening_is_safe, upgrade_is_safe,
};
use log_compact::folds_are_begun;
use log_opening::{Folded, Found, LogsNo, OpenLogs, close, no_logs, open_and_recover};
use record_log::{few_may_be_appended, upgrade_keeps};
use snap_outside::{LogDev, images_of_settled};
use snap_report::compacted_line;
use std::alloc::Global;

/// Opens all four logs and folds what those in use hold; then writes a checkpoint of it on the devices of the other side, in place of their
/// records, and clears the logs that were in use. These are refused where one of them is of format 1 and has an item, where a number that
/// the checkpoint would tell is above `GREATEST_TO_COMPACT`, and where they are more than two. The answer is the line that tells the
/// checkpoint's generation, which is made before anything is written. A log is named by its device.
pub fn compact<D: LogDev>(alloc: Global, devices: &mut Vec<D>) -> Result<String, CompactNo>
    requires { vec_len devices.old ≡ 4 }
    ensures compacted { IfOk result (λ line. (generation : ℕ) × (string_bytes line ≡ compacted_text generation)
        × AreCompacted (devices_of D.told D.faults devices.old.items) (devices_of D.told D.faults devices.new.items) generation) }
    ensures refused { IfErr result (λ no. IsNoCompaction (devices_of D.told D.faults devices.old.items) (devices_of D.told D.faults devices.new.items) no) }
    ensures four { vec_len devices.new ≡ 4 }
    // Whatever a crash leaves of the devices at any moment, the logs in use fold to what they folded to.
    ensures safe { CompactsSafely (devices_of D.told D.faults devices.old.items) (devices_of D.told D.faults devices.new.items) }
    ensures later { AllZip (λ (b a : Device). b.faults ≤ a.faults) (devices_of D.told D.faults devices.old.items) (devices_of D.told D.faults devices.new.items) }
{
    guarded_is_safe();
    let Ok(mut opened) = no_logs(alloc, devices.len()) else {
        return Err(CompactNo::Logs(LogsNo::Memory));
    };
    let answer = open_and_compact(alloc, devices, &mut opened);
    let OpenLogs { logs, found: _ } = opened;
    close(logs, devices, 0);
    answer
}

/// Opens the logs, folds what those in use hold, and compacts these. All that were opened stay open.
fn open_and_compact<D: LogDev>(
    alloc: Global,
    devices: &mut Vec<D>,
    opened: &mut OpenLogs<D>,
) -> Result<String, CompactNo>
    requires four { vec_len devices.old ≡ 4 }
    requires none { (opened.old.found ≡ []) × (vec_len opened.old.logs ≡ 0) }
    requires room { (4 ≤ vec_capacity opened.old.logs) × (4 ≤ vec_capacity devices.old) }
    ensures answered { MatchResult result
        (λ line. (generation : ℕ) × (string_bytes line ≡ compacted_text generation)
        × AreCompacted (devices_now D.told D.faults opened.old.logs.items devices.old.items) (devices_now D.told D.faults opened.new.logs.items devices.new.items) generation)
        (λ no. IsNoCompaction (devices_now D.told D.faults opened.old.logs.items devices.old.items) (devices_now D.told D.faults opened.new.logs.items devices.new.items) no) }
    ensures guarded { IsGuarded (devices_now D.told D.faults opened.old.logs.items devices.old.items) (devices_now D.told D.faults opened.new.logs.items devices.new.items) }
    ensures later { AllZip (λ (b a : Device). b.faults ≤ a.faults) (devices_now D.told D.faults opened.old.logs.items devices.old.items) (devices_now D.told D.faults opened.new.logs.items devices.new.items) }
    ensures four { vec_len opened.new.logs + vec_len devices.new ≡ 4 }
    ensures room { 4 ≤ vec_capacity devices.new }
{
    compaction_fits();
    folds_are_begun();
    match open_and_recover(alloc, devices, opened) {
        Ok((folded, found)) => compact_open(alloc, opened, found, folded),
        Err(no) => Err(CompactNo::Logs(no)),
    }
}

/// Compacts the logs in use, which are open with all four and fold to this, where nothing refuses them.
fn compact_open<D: LogDev>(
    alloc: Global,
    opened: &mut OpenLogs<D>,
    set: Found,
    folded: Folded,
) -> Result<String, CompactNo>
    requires four { (length opened.old.found ≡ 4) × (vec_len opened.old.logs ≡ 4) }
    requires within { set.head + set.logs ≤ 4 }
    requires some { 1 ≤ set.logs }
    requires side { (set.head ≡ 0) ⊎ (set.head ≡ set.logs) }
    requires open { AreAllOpen opened.old.logs.items }
    requires format { AreOfFormat opened.old.logs.items }
    requires records { IsUnspentFold folded → AllByRecursion IsRecord (group_for set.logs folded) }
    ensures answered { (before : List Device) (lists : List (List Record)) → IsOpenSet before opened.old.logs.items opened.old.found set.head lists folded → length lists ≡ set.logs
        → MatchResult result
        (λ line. (generation : ℕ) × (string_bytes line ≡ compacted_text generation) × AreCompacted before (map as_device opened.new.logs.items) generation)
        (λ no. IsNoCompaction before (map as_device opened.new.logs.items) no) }
    ensures guarded { (before : List Device) (lists : List (List Record)) → IsOpenSet before opened.old.logs.items opened.old.found set.head lists folded → length lists ≡ set.logs
        → IsGuarded before (map as_device opened.new.logs.items) }
    ensures later { AreLater opened.old.logs.items opened.new.logs.items }
    ensures len { vec_len opened.new.logs ≡ vec_len opened.old.logs }
{
    append_is_whole();
    clear_is_safe();
    few_may_be_appended();
    images_of_settled();
    logs_are_lists();
    one_list();
    opening_is_safe();
    upgrade_is_safe();
    upgrade_keeps();
    match refusal(opened, set, &folded) {
        Some(no) => return Err(no),
        None => {}
    }
    match tell_and_write(alloc, &mut opened.logs, set.head, set.logs, folded) {
        Ok(line) => Ok(line),
        Err(no) => Err(CompactNo::Logs(no)),
    }
}

/// The line that tells the generation of the checkpoint, which is written then in place of the records of the logs in use.
fn tell_and_write<D: LogDev>(
    alloc: Global,
    logs: &mut Vec<Log<D>>,
    head: u8,
    count: u8,
    folded: Folded,
) -> Result<String, LogsNo>
    requires four { vec_len logs.old ≡ 4 }
    requires some { 1 ≤ count }
    requires few { count ≤ 2 }
    requires side { (head ≡ 0) ⊎ (head ≡ count) }
    requires open { AreAllOpen logs.old.items }
    requires format { AreOfFormat logs.old.items }
    requires records { AllByRecursion IsRecord (group_for count folded) }
    requires room { folded.generation + 1 < 2 ^ 64 }
    ensures line { IfOk result (λ line. string_bytes line ≡ compacted_text (folded.generation + 1)) }
    ensures written { (devices : ℕ → OpenDevice) → AreOn logs.old.items devices → WritesSoFar devices logs.new.items head count (group_for count folded) }
    ensures done { OnOk result (AreAllDone logs.old.items logs.new.items head (other_side head count) count (group_for count folded)) }
    ensures cause { IfErr result (λ no. IsNotCompacted logs.old.items logs.new.items head count no) }
    ensures later { AreLater logs.old.items logs.new.items }
    ensures len { vec_len logs.new ≡ vec_len logs.old }
{
    let Ok(line) = compacted_line(alloc, folded.generation + 1) else {
        return Err(LogsNo::Memory);
    };
    match write_checkpoint(alloc, logs, head, count, folded) {
        Ok(()) => Ok(line),
        Err(CompactionNo::Device { log }) => Err(LogsNo::Device { log }),
        Err(CompactionNo::Memory) => Err(LogsNo::Memory),
    }
}
