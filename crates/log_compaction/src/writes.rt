//! The writes of a compaction, in their order.
ghost use Rattle.std.specs.Prelude.{◌≡◌, ◌+◌, ◌<◌, ◌≤◌, ◌⊎◌, ℕ, false, vec_len, vec_capacity, IfErr, OnOk, MatchResult};
ghost use Rattle.std.specs.List.{AllByRecursion};
ghost use Rattle.gate_log.specs.Bytes.{FIRST_GATE};
ghost use Rattle.gate_log.specs.Device.{MayAppend};
ghost use Rattle.gate_log.specs.State.{AreAllOpen, log_at};
ghost use Rattle.txn_records.specs.Records.{IsRecord};
ghost use Rattle.record_log.specs.Growth.{MayAppendGroup};
ghost use Rattle.record_log.specs.Records.{spelled};
ghost use Rattle.log_compact.specs.Compacting.{group_for, other_side};
ghost use Rattle.log_compact.specs.OnDevices.{OpenDevice};
ghost use Rattle.log_compact.specs.Sides.{AreDone};
ghost use Rattle.log_compaction.specs.Ready.{AreAppendNo, AreOfFormat, GetsGroup, IsAppendNo};
ghost use Rattle.log_compaction.specs.Written.{AreAllDone, AreLater, AreOn, IsAllWritten, IsWriteCause, WritesSoFar};

use crate::groups::group_of;
use crate::ready::ready_side;
use gate_log::{AppendNo, Log};
use log_compact::{Folded, clear_side};
use record_log::{append_records, few_may_be_appended};
use snap_outside::LogDev;
use std::alloc::Global;
use txn_records::Record;

/// Why the writes of a compaction ended before the last one.
#[derive(Clone, Copy, Debug, PartialEq, Eq)]
pub enum CompactionNo {
    /// The device of this log failed. The logs that a crash leaves fold to the same.
    Device { log: u8 },
    /// There was no memory. The logs fold to the same.
    Memory,
}

/// Writes a checkpoint of what a set folds to, in place of its records. The set is so many of the four logs, one or two, from its head on,
/// which is 0 or that number. First the logs of the other side are cleared, and made ones of format 2; then Genesis and the checkpoint are
/// appended to the first of them, as one group; and then the logs of the set are cleared. Whatever device fails, and at whatever moment a
/// crash comes, the logs fold to what they folded to: the law `log_compact::crashed_compaction_folds` says it of the order of these writes.
pub fn write_checkpoint<D: LogDev>(
    alloc: Global,
    logs: &mut Vec<Log<D>>,
    head: u8,
    count: u8,
    folded: Folded,
) -> Result<(), CompactionNo>
    requires four { vec_len logs.old ≡ 4 }
    requires some { 1 ≤ count }
    requires few { count ≤ 2 }
    requires side { (head ≡ 0) ⊎ (head ≡ count) }
    requires open { AreAllOpen logs.old.items }
    requires format { AreOfFormat logs.old.items }
    requires records { AllByRecursion IsRecord (group_for count folded) }
    // Whatever it comes to, the operations that are made are those of some moment of a compaction.
    ensures written { (devices : ℕ → OpenDevice) → AreOn logs.old.items devices → WritesSoFar devices logs.new.items head count (group_for count folded) }
    ensures whole { OnOk result ((devices : ℕ → OpenDevice) → AreOn logs.old.items devices → IsAllWritten devices logs.new.items head count (group_for count folded)) }
    ensures done { OnOk result (AreAllDone logs.old.items logs.new.items head (other_side head count) count (group_for count folded)) }
    ensures cause { IfErr result (λ no. IsWriteCause logs.old.items logs.new.items head count no) }
    ensures later { AreLater logs.old.items logs.new.items }
    ensures len { vec_len logs.new ≡ vec_len logs.old }
    ensures room { vec_capacity logs.new ≡ vec_capacity logs.old }
{
    few_may_be_appended();
    match group_of(alloc, count, folded) {
        Ok(group) => write_group(alloc, logs, head, count, group.as_slice()),
        Err(_) => Err(CompactionNo::Memory),
    }
}

/// Writes this group in place of the records of a set.
fn write_group<D: LogDev>(
    alloc: Global,
    logs: &mut Vec<Log<D>>,
    head: u8,
    count: u8,
    group: &[Record],
) -> Result<(), CompactionNo>
    requires four { vec_len logs.old ≡ 4 }
    requires some { 1 ≤ count }
    requires few { count ≤ 2 }
    requires side { (head ≡ 0) ⊎ (head ≡ count) }
    requires open { AreAllOpen logs.old.items }
    requires format { AreOfFormat logs.old.items }
    requires group { MayAppendGroup FIRST_GATE group.now }
    ensures written { (devices : ℕ → OpenDevice) → AreOn logs.old.items devices → WritesSoFar devices logs.new.items head count group.now }
    ensures whole { OnOk result ((devices : ℕ → OpenDevice) → AreOn logs.old.items devices → IsAllWritten devices logs.new.items head count group.now) }
    ensures done { OnOk result (AreAllDone logs.old.items logs.new.items head (other_side head count) count group.now) }
    ensures cause { IfErr result (λ no. IsWriteCause logs.old.items logs.new.items head count no) }
    ensures later { AreLater logs.old.items logs.new.items }
    ensures len { vec_len logs.new ≡ vec_len logs.old }
    ensures room { vec_capacity logs.new ≡ vec_capacity logs.old }
{
    let other = other_side(head, count);
    match ready_side(logs, other as usize, count as usize) {
        Ok(()) => {}
        Err(log) => return Err(CompactionNo::Device { log }),
    }
    match append_first(alloc, logs, other, group) {
        Ok(()) => {}
        Err(no) => return Err(no),
    }
    match clear_side(logs, head as usize, count as usize) {
        Ok(()) => Ok(()),
        Err(log) => Err(CompactionNo::Device { log }),
    }
}

/// Of the two sides the one that does not begin at this device.
fn other_side(head: u8, count: u8) -> u8
    ensures { result ≡ other_side head count }
{
    if head == 0 { count } else { 0 }
}

/// Appends the group to the log of this number.
fn append_first<D: LogDev>(
    alloc: Global,
    logs: &mut Vec<Log<D>>,
    number: u8,
    group: &[Record],
) -> Result<(), CompactionNo>
    requires there { number < vec_len logs.old }
    requires records { AllByRecursion IsRecord group.now }
    requires may { MayAppend (log_at logs.old.items number).end (spelled group.now) }
    requires format { (log_at logs.old.items number).format ≡ 2 }
    requires open { (log_at logs.old.items number).shut ≡ false }
    ensures appended { MatchResult result
        (λ _. AreDone (GetsGroup group.now) number (number + 1) logs.old.items logs.new.items)
        (λ no. AreAppendNo number group.now logs.old.items logs.new.items no) }
    ensures len { vec_len logs.new ≡ vec_len logs.old }
    ensures room { vec_capacity logs.new ≡ vec_capacity logs.old }
{
    append_one(alloc, &mut logs[number as usize], number, group)
}

/// Appends the group to an open log, which has this number.
fn append_one<D: LogDev>(
    alloc: Global,
    log: &mut Log<D>,
    number: u8,
    group: &[Record],
) -> Result<(), CompactionNo>
    requires records { AllByRecursion IsRecord group.now }
    requires may { MayAppend log.old.end (spelled group.now) }
    requires format { log.old.format ≡ 2 }
    requires open { log.old.shut ≡ false }
    ensures { MatchResult result
        (λ _. GetsGroup group.now log.old log.new)
        (λ no. IsAppendNo number group.now log.old log.new no) }
{
    match append_records(alloc, log, group) {
        Ok(()) => Ok(()),
        Err(AppendNo::Memory) => Err(CompactionNo::Memory),
        Err(_) => Err(CompactionNo::Device { log: number }),
    }
}
