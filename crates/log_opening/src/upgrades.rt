//! Open logs of format 1 are made ones of format 2, to which may be appended.
ghost use Rattle.std.specs.Prelude.{◌≡◌, ◌≢◌, ◌+◌, ◌<◌, ◌≤◌, ℕ, List, length, map, take, drop, vec_len, vec_capacity, false, IfErr, MatchOption, MatchResult, OnOk};
ghost use Rattle.std.specs.List.{AllByRecursion, AllZip};
ghost use Rattle.log_opening.specs.Devices.{Device, AreBegun, as_device};
ghost use Rattle.log_opening.specs.Found.{IsKeptSafe, IsReadyLog};
ghost use Rattle.log_opening.specs.Reads.{AreOpenOn};
ghost use Rattle.gate_log.specs.State.{log_at};
ghost use Rattle.log_opening.specs.Upgrades.{AreNotReady, AreOld, AreAllReady, AreReadyBelow, IsMadeReady, IsNotBegun, IsNotMadeReady, IsStopped, IsUpgraded, IsUpgradeFailed, items_at, old_count};

use crate::LogsNo;
use gate_log::{Log, LogItem, logs_are_lists, one_list, opening_is_safe};
use record_log::upgrade_keeps;
use snap_base::Sequence;
use snap_outside::{Failed, LogDev};
use snap_recover::LogCause;
use std::alloc::Global;

/// Makes the open logs in use, so many from this device on, ready for appends: each of format 1 in which no item was found is upgraded,
/// from the first on. Then the first that is still of format 1 is refused. The others are as they were.
pub(crate) fn make_ready<D: LogDev>(
    logs: &mut Vec<Log<D>>,
    found: &[Sequence<LogItem>],
    head: usize,
    count: usize,
) -> Result<(), LogsNo>
    requires within { head + count ≤ vec_len logs.old }
    requires few { vec_len logs.old ≤ 4 }
    requires ready { AllZip IsReadyLog logs.old.items found.now }
    ensures ready { MatchResult result (λ _. AreAllReady head count logs.old.items logs.new.items found.now) (λ no. AreNotReady head count logs.old.items logs.new.items found.now no) }
    ensures len { vec_len logs.new ≡ vec_len logs.old }
    ensures room { vec_capacity logs.new ≡ vec_capacity logs.old }
{
    match upgrade_logs(logs, found, head, count) {
        Ok(()) => {}
        Err(log) => return Err(LogsNo::Device { log }),
    }
    match first_old(&logs.as_slice()[head..head + count]) {
        Some(number) => Err(LogsNo::Refused {
            log: head as u8 + number,
            offset: 0,
            cause: LogCause::OldFormat,
        }),
        None => Ok(()),
    }
}

/// Makes the open logs in use, so many from this device on, ones of format 2, from the first on. Where the device of one fails, those above
/// it are as they were, and so are all that are not in use.
pub fn upgrade_all<D: LogDev>(
    alloc: Global,
    logs: &mut Vec<Log<D>>,
    head: usize,
    count: usize,
) -> Result<(), LogsNo>
    requires within { head + count ≤ vec_len logs.old }
    requires few { vec_len logs.old ≤ 4 }
    requires open { AllByRecursion (λ l. l.shut ≡ false) logs.old.items }
    ensures begun { OnOk result ((before : List Device) → AreOpenOn before logs.old.items → AreBegun head count before (map as_device logs.new.items)) }
    ensures failed { IfErr result (λ no. (before : List Device) → AreOpenOn before logs.old.items → IsNotBegun head count before (map as_device logs.new.items) no) }
    ensures safe { (before : List Device) → AreOpenOn before logs.old.items → AllZip IsKeptSafe before (map as_device logs.new.items) }
    ensures len { vec_len logs.new ≡ vec_len logs.old }
    ensures room { vec_capacity logs.new ≡ vec_capacity logs.old }
{
    logs_are_lists();
    one_list();
    opening_is_safe();
    upgrade_keeps();
    let none = Sequence::new(alloc);
    match upgrade_logs(logs, none.as_slice(), head, count) {
        Ok(()) => Ok(()),
        Err(log) => Err(LogsNo::Device { log }),
    }
}

/// How many of the open logs in use, so many from this device on, are of format 1.
pub fn count_old<D: LogDev>(logs: &[Log<D>], head: usize, count: usize) -> u8
    requires within { head + count ≤ length logs.now }
    requires few { length logs.now ≤ 4 }
    ensures { (before : List Device) → AreOpenOn before logs.now → AreOld (take count (drop head before)) result }
{
    opening_is_safe();
    old_logs(&logs[head..head + count])
}

/// How many of these logs are of format 1.
fn old_logs<D: LogDev>(logs: &[Log<D>]) -> u8
    requires { length logs.now ≤ 4 }
    ensures { result ≡ old_count logs.now }
{
    let mut count = 0;
    for log in logs {
        if log.format() == 1 {
            count += 1;
        }
    }
    count
}

/// Upgrades each log of format 1 of so many from this one on, but those for which items are listed. The error is the log whose device
/// failed.
fn upgrade_logs<D: LogDev>(
    logs: &mut Vec<Log<D>>,
    listed: &[Sequence<LogItem>],
    head: usize,
    count: usize,
) -> Result<(), u8>
    requires within { head + count ≤ vec_len logs.old }
    requires few { vec_len logs.old ≤ 4 }
    requires open { AllByRecursion (λ l. l.shut ≡ false) logs.old.items }
    ensures ready { MatchResult result
        (λ _. AreReadyBelow head count logs.old.items logs.new.items listed.now)
        (λ log. (n : ℕ) × (log ≡ head + n) × IsStopped head count n logs.old.items logs.new.items listed.now) }
    ensures len { vec_len logs.new ≡ vec_len logs.old }
    ensures room { vec_capacity logs.new ≡ vec_capacity logs.old }
{
    for number in 0..count {
        let log = head + number;
        match make_one_ready(&mut logs[log], items_at(listed, log)) {
            Ok(()) => {}
            Err(_failed) => return Err(log as u8),
        }
    }
    Ok(())
}

/// The items that are listed for a log.
fn items_at(listed: &[Sequence<LogItem>], log: usize) -> &[LogItem]
    ensures { result.now ≡ items_at listed.now log }
{
    match listed.get(log) {
        Some(items) => items.as_slice(),
        None => &[],
    }
}

/// Upgrades a log of format 1, where these are no items.
fn make_one_ready<D: LogDev>(log: &mut Log<D>, items: &[LogItem]) -> Result<(), Failed>
    requires { log.old.shut ≡ false }
    ensures { MatchResult result (λ _. IsMadeReady log.old log.new items.now) (λ _. IsNotMadeReady log.old log.new items.now) }
{
    if log.format() == 1 && items.is_empty() {
        return upgrade_log(log);
    }
    Ok(())
}

/// The first log of format 1.
fn first_old<D: LogDev>(logs: &[Log<D>]) -> Option<u8>
    requires { length logs.now ≤ 4 }
    ensures { MatchOption result
        ((l : ℕ) → l < length logs.now → (log_at logs.now l).format ≢ 1)
        (λ n. (n < length logs.now) × ((log_at logs.now n).format ≡ 1) × ((l : ℕ) → l < n → (log_at logs.now l).format ≢ 1)) }
{
    for (number, log) in logs.iter().enumerate() {
        if log.format() == 1 {
            return Some(number as u8);
        }
    }
    None
}

/// Makes an open log one of format 2.
fn upgrade_log<D: LogDev>(log: &mut Log<D>) -> Result<(), Failed>
    requires { log.old.shut ≡ false }
    ensures { MatchResult result (λ _. IsUpgraded log.old log.new) (λ _. IsUpgradeFailed log.old log.new) }
{
    match log.upgrade() {
        Ok(()) => Ok(()),
        Err(_) => Err(Failed),
    }
}
