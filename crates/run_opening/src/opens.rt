//! Opening the logs of a run on their devices.
ghost use Rattle.std.specs.Prelude.{◌≡◌, ◌+◌, ◌<◌, ◌≤◌, ℕ, List, [], ◌++◌, length, map, take, drop, vec_len, vec_capacity, OnOk, OnErr, IfOk, IfErr, MatchResult};
ghost use Rattle.std.specs.List.{AllByRecursion, AllZip};
ghost use Rattle.gate_log.specs.State.{log_at};
ghost use Rattle.txn_records.specs.declared.limits.TheConstants.{MOST_LISTED};
ghost use Rattle.txn_records.specs.declared.records.Record.{Record};
ghost use Rattle.txn_records.specs.Records.{IsState};
ghost use Rattle.snap_recover.specs.declared.openings.Opening.{Opening};
ghost use Rattle.log_opening.specs.Devices.{Device, as_device, devices_of, devices_now, devices_with};
ghost use Rattle.run_opening.specs.Opens.{HasRoomToBegin, OpensRun, IsNoRun, AreSafe, MayOpen};
ghost use Rattle.run_opening.specs.Writes.{HasOpenedRun, HasOpenedNoRun, logs_in_use};

use crate::limits::LARGEST_START;
use crate::preparing::prepare;
use crate::starts::{Start, start_from};
use gate_log::{
    FARTHEST_END, Log, append_is_whole, beginning_is_safe, damage_is_no_log, logs_are_lists,
    one_difference, one_list, one_reading, opening_is_safe, upgrade_is_safe,
};
use log_compact::{
    begun_lists_fold, folds_are_begun, folds_are_of_records, one_fold, one_set,
    refused_are_not_folded,
};
use log_opening::{LogsNo, OpenLogs, close, no_call_is_safe, no_logs, open_and_decode};
use record_log::{history_grows, no_more_records, one_list_of_records, opened_holds};
use snap_base::{Memory, State};
use snap_outside::LogDev;
use snap_recover::Opening;
use std::alloc::Global;
use txn_records::one_record;

/// What a run begins with: its logs, which are open, and the devices of which have left the others.
pub struct Begun<D: LogDev> {
    /// The logs in use, ready for the run's records.
    pub logs: Vec<Log<D>>,
    /// What the run begins with.
    pub opening: Opening,
    /// The device on which log 0 lies; those of the others follow it.
    pub head: u8,
}

/// Opens the logs of a run whose text says that there are so many, and gives the actors these states. All four are opened, and the
/// records in front of them tell which are in use: those of the set, or so many from device 0 on where there is none. Of those in
/// use, which must be so many, the ones of format 1 that have no item are upgraded, and the first other one is refused; then they are
/// decoded; then what they hold is folded, so that a checkpoint counts, and compared with the text. Then the logs of the other side are
/// cleared, where the set has a checkpoint; or Genesis is written, where no log in use holds a record. The devices of the run's
/// logs leave these; `close` of `log_opening` puts them back behind the first ones, so many as `head` says. Where no run begins they
/// are back already, and each device is in its place.
pub fn open_run<D: LogDev>(
    alloc: Global,
    devices: &mut Vec<D>,
    count: u8,
    states: &[State],
) -> Result<Begun<D>, LogsNo>
    requires four { vec_len devices.old ≡ 4 }
    requires some_logs { 1 ≤ count }
    requires few_logs { count ≤ 4 }
    requires some { 1 ≤ length states.now }
    requires few { length states.now ≤ MOST_LISTED }
    requires states { AllByRecursion IsState states.now }
    // The run begins with what the records of its logs fold to, or with the text's states.
    ensures opens { IfOk result (λ x. (records : List (List Record)) × (added : List Record) × (length records ≡ count)
        × OpensRun (devices_of D.told D.faults devices.old.items) (devices_with D.told D.faults x.head x.logs.items devices.new.items) x.head x.logs.items states.now x.opening records added) }
    ensures room { IfOk result (λ x. HasRoomToBegin x.opening) }
    ensures actors { IfOk result (λ x. length x.opening.states ≡ length states.now) }
    ensures kept { IfOk result (λ x. AllByRecursion IsState x.opening.states) }
    ensures ends { IfOk result (λ x. (n : ℕ) → n < count → (log_at x.logs.items n).end ≤ FARTHEST_END + LARGEST_START) }
    ensures logs { IfOk result (λ x. (vec_len x.logs ≡ count) × (vec_len x.logs + vec_len devices.new ≡ 4) × (x.head ≤ vec_len devices.new)) }
    ensures four { OnErr result (vec_len devices.new ≡ 4) }
    ensures back { OnOk result (vec_capacity devices.new ≡ vec_capacity devices.old) }
    ensures refused { IfErr result (λ no. IsNoRun count states.now (devices_of D.told D.faults devices.old.items) (devices_of D.told D.faults devices.new.items) no) }
    // A crash at any moment loses no record of the logs in use.
    ensures safe { MatchResult result
        (λ x. AreSafe count states.now (devices_of D.told D.faults devices.old.items) (devices_with D.told D.faults x.head x.logs.items devices.new.items))
        (λ _. AreSafe count states.now (devices_of D.told D.faults devices.old.items) (devices_of D.told D.faults devices.new.items)) }
    ensures later { MatchResult result
        (λ x. AllZip (λ (b a : Device). b.faults ≤ a.faults) (devices_of D.told D.faults devices.old.items) (devices_with D.told D.faults x.head x.logs.items devices.new.items))
        (λ _. AllZip (λ (b a : Device). b.faults ≤ a.faults) (devices_of D.told D.faults devices.old.items) (devices_of D.told D.faults devices.new.items)) }
    // Where nothing stands in the way the run begins, or there is no memory.
    ensures complete { IfErr result (λ no. (records : List (List Record)) (o : Opening)
        → MayOpen count states.now (devices_of D.told D.faults devices.old.items) (devices_of D.told D.faults devices.new.items) records o → no ≡ LogsNo.Memory) }
{
    no_call_is_safe();
    one_list();
    one_difference();
    damage_is_no_log();
    one_record();
    one_list_of_records();
    no_more_records();
    one_set();
    one_fold();
    refused_are_not_folded();
    let Ok((mut opened, in_use)) = rooms(alloc, count as usize) else {
        return Err(LogsNo::Memory);
    };
    match begin_on(alloc, devices, &mut opened, count, states) {
        Ok((opening, head)) => {
            let OpenLogs { logs, found: _ } = opened;
            let logs = take_out(logs, devices, in_use, head as usize, count as usize);
            Ok(Begun {
                logs,
                opening,
                head,
            })
        }
        Err(no) => {
            let OpenLogs { logs, found: _ } = opened;
            close(logs, devices, 0);
            in_use.destroy_empty();
            Err(no)
        }
    }
}

/// Room for the four open logs, and for those in use.
fn rooms<D: LogDev>(alloc: Global, count: usize) -> Result<(OpenLogs<D>, Vec<Log<D>>), Memory>
    ensures logs { IfOk result (λ x. x.0.logs.items ≡ []) }
    ensures found { IfOk result (λ x. x.0.found ≡ []) }
    ensures room { IfOk result (λ x. (vec_len x.0.logs ≡ 0) × (4 ≤ vec_capacity x.0.logs)) }
    ensures in_use { IfOk result (λ x. (x.1.items ≡ []) × (vec_len x.1 ≡ 0) × (count ≤ vec_capacity x.1)) }
{
    let in_use = Vec::with_capacity(alloc, count)?;
    match no_logs(alloc, 4) {
        Ok(opened) => Ok((opened, in_use)),
        Err(Memory) => {
            in_use.destroy_empty();
            Err(Memory)
        }
    }
}

/// Opens the logs of a run and does what is to be done before it. All four logs stay open, also where no run begins. The second
/// number is the device of log 0.
fn begin_on<D: LogDev>(
    alloc: Global,
    devices: &mut Vec<D>,
    opened: &mut OpenLogs<D>,
    count: u8,
    states: &[State],
) -> Result<(Opening, u8), LogsNo>
    requires four { vec_len devices.old ≡ 4 }
    requires none { (opened.old.found ≡ []) × (vec_len opened.old.logs ≡ 0) }
    requires room { (4 ≤ vec_capacity opened.old.logs) × (4 ≤ vec_capacity devices.old) }
    requires some_logs { 1 ≤ count }
    requires few_logs { count ≤ 4 }
    requires some { 1 ≤ length states.now }
    requires few { length states.now ≤ MOST_LISTED }
    requires states { AllByRecursion IsState states.now }
    ensures begun { MatchResult result
        (λ x. HasOpenedRun count states.now (devices_now D.told D.faults opened.old.logs.items devices.old.items) (devices_now D.told D.faults opened.new.logs.items devices.new.items) x.1 (logs_in_use x.1 count opened.new.logs.items) x.0)
        (λ no. HasOpenedNoRun count states.now (devices_now D.told D.faults opened.old.logs.items devices.old.items) (devices_now D.told D.faults opened.new.logs.items devices.new.items) no) }
    ensures four { vec_len opened.new.logs + vec_len devices.new ≡ 4 }
    ensures all { OnOk result (vec_len opened.new.logs ≡ 4) }
    ensures within { IfOk result (λ x. x.1 + count ≤ 4) }
    ensures back { vec_capacity devices.new ≡ vec_capacity devices.old }
{
    one_reading();
    one_list();
    logs_are_lists();
    opening_is_safe();
    beginning_is_safe();
    append_is_whole();
    upgrade_is_safe();
    opened_holds();
    history_grows();
    one_list_of_records();
    folds_are_of_records();
    folds_are_begun();
    begun_lists_fold();
    let (records, found) = match open_and_decode(alloc, devices, opened, count as usize) {
        Ok(read) => read,
        Err(no) => return Err(no),
    };
    let Start { opening, added } = match start_from(alloc, records, states, found.head) {
        Ok(start) => start,
        Err(no) => return Err(no),
    };
    match prepare(
        alloc,
        &mut opened.logs,
        found.head,
        count,
        found.generation,
        added.as_slice(),
    ) {
        Ok(()) => Ok((opening, found.head)),
        Err(no) => Err(no),
    }
}

/// Takes the logs in use, so many from the head on, out of the four, into this vector with room for them. The devices of the others
/// come back.
fn take_out<D: LogDev>(
    logs: Vec<Log<D>>,
    devices: &mut Vec<D>,
    in_use: Vec<Log<D>>,
    head: usize,
    count: usize,
) -> Vec<Log<D>>
    requires within { head + count ≤ vec_len logs }
    requires none { (vec_len devices.old ≡ 0) × (vec_len in_use ≡ 0) }
    requires room { (vec_len logs ≤ vec_capacity devices.old) × (count ≤ vec_capacity in_use) }
    ensures logs { result.items ≡ logs_in_use head count logs.items }
    ensures devices { devices_of D.told D.faults devices.new.items ≡ map as_device (take head logs.items ++ drop (head + count) logs.items) }
    ensures len { vec_len result ≡ count }
    ensures others { vec_len devices.new + count ≡ vec_len logs }
    ensures capacity { vec_capacity devices.new ≡ vec_capacity devices.old }
{
    let mut logs = logs;
    let mut in_use = in_use;
    while in_use.len() < count {
        in_use.push_reserved(logs.remove(head));
    }
    close(logs, devices, 0);
    in_use
}
