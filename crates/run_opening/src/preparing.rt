//! What is done to the open logs before a run: the other side is cleared, or Genesis is written.
ghost use Rattle.std.specs.Prelude.{◌≡◌, ◌≢◌, ◌≤◌, ℕ, [], length, vec_len, false, MatchResult};
ghost use Rattle.std.specs.List.{AllByRecursion};
ghost use Rattle.gate_log.specs.State.{AreAllOpen, log_at};
ghost use Rattle.txn_records.specs.Records.{IsRecord};
ghost use Rattle.log_compact.specs.Compacting.{other_side};
ghost use Rattle.run_opening.specs.Writes.{AreNotPrepared, ArePrepared, IsFirstNotWritten, IsFirstWritten, IsNotWritten, IsSideCleared, IsSideCutOff, IsWritten, no_of_append};

use gate_log::{AppendNo, FARTHEST_END, Log};
use log_compact::clear_side;
use log_opening::LogsNo;
use record_log::{append_records, few_may_be_appended};
use snap_outside::LogDev;
use std::alloc::Global;
use txn_records::Record;

/// The number of the log that gets Genesis. Where no log in use holds a record there is no set, and they lie on the first devices.
const FIRST: u8 = 0;

/// Does what is to be done to the four logs before a run on so many of them, the first of which lies on the head. Where nothing
/// is to be written and the set has a checkpoint, its other side is cleared; else what is to be written goes to log 0.
pub(crate) fn prepare<D: LogDev>(
    alloc: Global,
    logs: &mut Vec<Log<D>>,
    head: u8,
    count: u8,
    generation: u64,
    added: &[Record],
) -> Result<(), LogsNo>
    requires four { vec_len logs.old ≡ 4 }
    requires open { AreAllOpen logs.old.items }
    requires records { AllByRecursion IsRecord added.now }
    requires one { length added.now ≤ 1 }
    requires low { (log_at logs.old.items 0).end ≤ FARTHEST_END }
    requires format { added.now ≢ [] → (log_at logs.old.items 0).format ≡ 2 }
    ensures prepared { MatchResult result
        (λ _. ArePrepared head count generation added.now logs.old.items logs.new.items)
        (λ no. AreNotPrepared head count generation added.now logs.old.items logs.new.items no) }
    ensures len { vec_len logs.new ≡ vec_len logs.old }
{
    if added.is_empty() {
        return clear_other(logs, head, count, generation);
    }
    write_first(alloc, logs, added)
}

/// Clears the logs of the other side, where the set has a checkpoint, and is of so few logs that there is another side.
fn clear_other<D: LogDev>(
    logs: &mut Vec<Log<D>>,
    head: u8,
    count: u8,
    generation: u64,
) -> Result<(), LogsNo>
    requires four { vec_len logs.old ≡ 4 }
    requires open { AreAllOpen logs.old.items }
    ensures cleared { MatchResult result
        (λ _. IsSideCleared head count generation logs.old.items logs.new.items)
        (λ no. (n : ℕ) × (no ≡ LogsNo.Device n) × IsSideCutOff head count generation n logs.old.items logs.new.items) }
    ensures len { vec_len logs.new ≡ vec_len logs.old }
{
    if generation == 0 {
        return Ok(());
    }
    if count > 2 {
        return Ok(());
    }
    match clear_side(logs, other_side(head, count), count as usize) {
        Ok(()) => Ok(()),
        Err(log) => Err(LogsNo::Device { log }),
    }
}

/// The first device of the side that does not begin at this head.
fn other_side(head: u8, count: u8) -> usize
    ensures { result ≡ other_side head count }
{
    if head == 0 { count as usize } else { 0 }
}

/// Writes these to log 0, as one group.
fn write_first<D: LogDev>(
    alloc: Global,
    logs: &mut Vec<Log<D>>,
    added: &[Record],
) -> Result<(), LogsNo>
    requires four { vec_len logs.old ≡ 4 }
    requires records { AllByRecursion IsRecord added.now }
    requires one { length added.now ≤ 1 }
    requires low { (log_at logs.old.items 0).end ≤ FARTHEST_END }
    requires open { (log_at logs.old.items 0).shut ≡ false }
    requires format { (log_at logs.old.items 0).format ≡ 2 }
    ensures written { MatchResult result
        (λ _. IsFirstWritten logs.old.items logs.new.items added.now)
        (λ no. IsFirstNotWritten logs.old.items logs.new.items added.now no) }
    ensures len { vec_len logs.new ≡ vec_len logs.old }
{
    write(alloc, &mut logs[0], added)
}

/// Writes these to the log, as one group.
fn write<D: LogDev>(alloc: Global, log: &mut Log<D>, added: &[Record]) -> Result<(), LogsNo>
    requires records { AllByRecursion IsRecord added.now }
    requires one { length added.now ≤ 1 }
    requires low { log.old.end ≤ FARTHEST_END }
    requires open { log.old.shut ≡ false }
    requires format { log.old.format ≡ 2 }
    ensures { MatchResult result (λ _. IsWritten log.old log.new added.now) (λ no. IsNotWritten log.old log.new added.now no) }
{
    few_may_be_appended();
    match append_records(alloc, log, added) {
        Ok(()) => Ok(()),
        Err(no) => Err(of_append(no)),
    }
}

/// Nothing is appended to log 0. It was not shut before, so where it is now it was the device.
fn of_append(no: AppendNo) -> LogsNo
    ensures { result ≡ no_of_append no }
{
    match no {
        AppendNo::Memory => LogsNo::Memory,
        AppendNo::Device | AppendNo::Shut => LogsNo::Device { log: FIRST },
    }
}
