//! Opening devices one after the other, and handing them back.
ghost use Rattle.std.specs.Prelude.{◌≡◌, ◌+◌, ◌-◌, ◌<◌, ◌≤◌, List, [], ◌∷◌, ◌++◌, length, take, drop, vec_len, vec_capacity, IfOk, OnOk, IfErr, MatchResult};
ghost use Rattle.std.specs.List.{insert, AllZip};
ghost use Rattle.gate_log.specs.declared.logs.LogItem.{LogItem};
ghost use Rattle.log_opening.specs.Devices.{Device, devices_of, devices_now, devices_with, as_device};
ghost use Rattle.log_opening.specs.Found.{IsFoundOn, IsReadyLog, IsLeftClosed, AreFound, IsHalted};

use crate::LogsNo;
use crate::refusals::of_opening;
use gate_log::{Log, LogItem, OpenNo};
use record_log::{opening_keeps, refused_keeps};
use snap_base::{Memory, Sequence};
use snap_outside::LogDev;
use std::alloc::Global;

/// Logs that are open, that of device 0 first, and what was found in each. The devices of the others stay with the caller, and
/// `close` puts these before them.
pub struct OpenLogs<D: LogDev> {
    /// The logs.
    pub logs: Vec<Log<D>>,
    /// The items that were found in each log.
    pub found: Sequence<Sequence<LogItem>>,
}

/// No open logs, with room for so many.
pub fn no_logs<D: LogDev>(alloc: Global, count: usize) -> Result<OpenLogs<D>, Memory>
    ensures logs { IfOk result (λ opened. opened.logs.items ≡ []) }
    ensures found { IfOk result (λ opened. opened.found ≡ []) }
    ensures room { IfOk result (λ opened. (vec_len opened.logs ≡ 0) × (count ≤ vec_capacity opened.logs)) }
{
    Ok(OpenLogs {
        logs: Vec::with_capacity(alloc, count)?,
        found: Sequence::new(alloc),
    })
}

/// Opens further logs until so many are open, whose devices are the first ones of these.
pub fn open_logs<D: LogDev>(
    alloc: Global,
    devices: &mut Vec<D>,
    opened: &mut OpenLogs<D>,
    count: usize,
) -> Result<(), LogsNo>
    requires same { length opened.old.found ≡ vec_len opened.old.logs }
    requires enough { count ≤ vec_len opened.old.logs + vec_len devices.old }
    requires more { vec_len opened.old.logs ≤ count }
    requires few { vec_len opened.old.logs + vec_len devices.old ≤ 4 }
    requires room { vec_len opened.old.logs + vec_len devices.old ≤ vec_capacity opened.old.logs }
    requires room_back { vec_len opened.old.logs + vec_len devices.old ≤ vec_capacity devices.old }
    ensures len { vec_len opened.new.logs + vec_len devices.new ≡ vec_len opened.old.logs + vec_len devices.old }
    ensures room { vec_capacity opened.new.logs ≡ vec_capacity opened.old.logs }
    ensures room_back { vec_capacity devices.new ≡ vec_capacity devices.old }
    // Of the devices behind the logs that were to be opened, each is as it was.
    ensures rest { drop (count - vec_len opened.new.logs) devices.new.items ≡ drop (count - vec_len opened.old.logs) devices.old.items }
    ensures at_most { vec_len opened.new.logs ≤ count }
    ensures count { OnOk result ((length opened.new.found ≡ count) × (vec_len opened.new.logs ≡ count)) }
    ensures kept { OnOk result (take (length opened.old.found) opened.new.found ≡ opened.old.found) }
    ensures found { OnOk result ((before : List Device) → AreFound before (devices_now D.told D.faults opened.old.logs.items devices.old.items) opened.old.found
        → AreFound before (devices_now D.told D.faults opened.new.logs.items devices.new.items) opened.new.found) }
    ensures ready { OnOk result (AllZip IsReadyLog opened.old.logs.items opened.old.found → AllZip IsReadyLog opened.new.logs.items opened.new.found) }
    ensures halted { IfErr result (λ no. (before : List Device) → AreFound before (devices_now D.told D.faults opened.old.logs.items devices.old.items) opened.old.found
        → IsHalted count before (devices_now D.told D.faults opened.new.logs.items devices.new.items) no) }
{
    while opened.logs.len() < count {
        open_next(alloc, devices, opened)?;
    }
    Ok(())
}

/// Opens the log on the first of these devices, which leaves them.
fn open_next<D: LogDev>(
    alloc: Global,
    devices: &mut Vec<D>,
    opened: &mut OpenLogs<D>,
) -> Result<(), LogsNo>
    requires same { length opened.old.found ≡ vec_len opened.old.logs }
    requires some { 0 < vec_len devices.old }
    requires few { vec_len opened.old.logs + vec_len devices.old ≤ 4 }
    requires room { vec_len opened.old.logs + vec_len devices.old ≤ vec_capacity opened.old.logs }
    requires room_back { vec_len opened.old.logs + vec_len devices.old ≤ vec_capacity devices.old }
    ensures len { vec_len opened.new.logs + vec_len devices.new ≡ vec_len opened.old.logs + vec_len devices.old }
    ensures room { vec_capacity opened.new.logs ≡ vec_capacity opened.old.logs }
    ensures room_back { vec_capacity devices.new ≡ vec_capacity devices.old }
    ensures rest { drop (vec_len opened.old.logs + 1 - vec_len opened.new.logs) devices.new.items ≡ drop 1 devices.old.items }
    ensures one { OnOk result (vec_len opened.new.logs ≡ vec_len opened.old.logs + 1) }
    ensures at_most { vec_len opened.new.logs ≤ vec_len opened.old.logs + 1 }
    ensures more { OnOk result ((items : List LogItem) × (opened.new.found ≡ opened.old.found ++ items ∷ [])) }
    ensures found { OnOk result ((before : List Device) → AreFound before (devices_now D.told D.faults opened.old.logs.items devices.old.items) opened.old.found
        → AreFound before (devices_now D.told D.faults opened.new.logs.items devices.new.items) opened.new.found) }
    ensures ready { OnOk result (AllZip IsReadyLog opened.old.logs.items opened.old.found → AllZip IsReadyLog opened.new.logs.items opened.new.found) }
    ensures halted { IfErr result (λ no. (before : List Device) → AreFound before (devices_now D.told D.faults opened.old.logs.items devices.old.items) opened.old.found
        → IsHalted (length opened.old.found + 1) before (devices_now D.told D.faults opened.new.logs.items devices.new.items) no) }
{
    let number = opened.logs.len();
    let dev = devices.remove(0);
    match open_device(alloc, dev) {
        Ok((log, items)) => {
            put(&mut opened.logs, number, log);
            if opened.found.push(items).is_err() {
                return Err(LogsNo::Memory);
            }
            Ok(())
        }
        Err((dev, no)) => {
            put(devices, 0, dev);
            Err(of_opening(no, number as u8))
        }
    }
}

/// The log on a device and the items that opening finds in it.
fn open_device<D: LogDev>(alloc: Global, dev: D) -> Result<(Log<D>, Sequence<LogItem>), (D, OpenNo)>
    ensures { let old : Device = record { told = D.told dev; faults = D.faults dev } in
        MatchResult result (λ x. IsFoundOn old (as_device x.0) x.1 × IsReadyLog x.0 x.1)
        (λ no. IsLeftClosed old (record { told = D.told no.0; faults = D.faults no.0 }) no.1) }
{
    opening_keeps();
    refused_keeps();
    match Log::open(alloc, dev) {
        Ok(log) => {
            let mut log = log;
            let found = log.take_found();
            Ok((log, found))
        }
        Err((dev, no)) => Err((dev, no)),
    }
}

/// Hands the devices of open logs back: they are put behind the first `head` of these, in the order of the logs. There is room for them.
pub fn close<D: LogDev>(logs: Vec<Log<D>>, devices: &mut Vec<D>, head: usize)
    requires behind { head ≤ vec_len devices.old }
    requires room { vec_len logs + vec_len devices.old ≤ vec_capacity devices.old }
    ensures len { vec_len devices.new ≡ vec_len logs + vec_len devices.old }
    ensures devices { devices_of D.told D.faults devices.new.items ≡ devices_with D.told D.faults head logs.items devices.old.items }
    ensures front { take head devices.new.items ≡ take head devices.old.items }
    ensures rest { drop (head + vec_len logs) devices.new.items ≡ drop head devices.old.items }
    ensures capacity { vec_capacity devices.new ≡ vec_capacity devices.old }
{
    let mut logs = logs;
    while let Some(log) = logs.pop() {
        put(devices, head, log.into_dev());
    }
    logs.destroy_empty();
}

/// Puts an object in at this place, for which there is room.
fn put<T>(objects: &mut Vec<T>, at: usize, object: T)
    requires room { vec_len objects.old < vec_capacity objects.old }
    requires within { at ≤ vec_len objects.old }
    ensures items { objects.new.items ≡ insert objects.old.items at object }
    ensures len { vec_len objects.new ≡ vec_len objects.old + 1 }
    ensures capacity { vec_capacity objects.new ≡ vec_capacity objects.old }
{
    match objects.insert(at, object) {
        Ok(()) => {}
        Err(_failed) => unreachable!(),
    }
}
