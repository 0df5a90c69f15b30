//! The logs of the side that gets the checkpoint are made ready for it.
ghost use Rattle.std.specs.Prelude.{◌≡◌, ◌+◌, ◌≤◌, ◌⊎◌, false, vec_len, vec_capacity, MatchResult};
ghost use Rattle.gate_log.specs.State.{AreAllOpen};
ghost use Rattle.log_compact.specs.Sides.{AreDone, IsDoneUpTo};
ghost use Rattle.log_compaction.specs.Ready.{AreOfFormat, IsBlank, IsNotBlank, IsSecond, IsNotSecond};

use gate_log::Log;
use snap_outside::{Failed, LogDev};

/// Clears so many of these open logs, from one on, and makes them ones of format 2, one after the other. The error is the log whose device
/// failed: those behind it are as they were.
pub(crate) fn ready_side<D: LogDev>(
    logs: &mut Vec<Log<D>>,
    from: usize,
    count: usize,
) -> Result<(), u8>
    requires few { vec_len logs.old ≤ 4 }
    requires there { from + count ≤ vec_len logs.old }
    requires open { AreAllOpen logs.old.items }
    requires format { AreOfFormat logs.old.items }
    ensures ready { MatchResult result
        (λ _. AreDone IsBlank from (from + count) logs.old.items logs.new.items)
        (λ n. IsDoneUpTo IsBlank IsNotBlank from (from + count) n logs.old.items logs.new.items) }
    ensures len { vec_len logs.new ≡ vec_len logs.old }
    ensures room { vec_capacity logs.new ≡ vec_capacity logs.old }
{
    for log in from..from + count {
        if make_ready(&mut logs[log]).is_err() {
            return Err(log as u8);
        }
    }
    Ok(())
}

/// Makes an open log one of format 2 that has no item. It is cleared first.
fn make_ready<D: LogDev>(log: &mut Log<D>) -> Result<(), Failed>
    requires open { log.old.shut ≡ false }
    requires known { (log.old.format ≡ 1) ⊎ (log.old.format ≡ 2) }
    ensures { MatchResult result (λ _. IsBlank log.old log.new) (λ _. IsNotBlank log.old log.new) }
{
    match log.clear() {
        Ok(()) => make_second(log),
        Err(_) => Err(Failed),
    }
}

/// Makes an open log one of format 2, where it is of format 1.
fn make_second<D: LogDev>(log: &mut Log<D>) -> Result<(), Failed>
    requires open { log.old.shut ≡ false }
    requires known { (log.old.format ≡ 1) ⊎ (log.old.format ≡ 2) }
    ensures { MatchResult result (λ _. IsSecond log.old log.new) (λ _. IsNotSecond log.old log.new) }
{
    if log.format() != 1 {
        return Ok(());
    }
    match log.upgrade() {
        Ok(()) => Ok(()),
        Err(_) => Err(Failed),
    }
}
