//! Some of the open logs are cleared, one after the other.
ghost use Rattle.std.specs.Prelude.{◌≡◌, ◌+◌, ◌≤◌, false, vec_len, vec_capacity, MatchResult};
ghost use Rattle.gate_log.specs.State.{AreAllOpen};
ghost use Rattle.log_compact.specs.Sides.{AreDone, IsDoneUpTo, IsCleared, IsClearFailed};

use gate_log::Log;
use snap_outside::{Failed, LogDev};

/// Clears so many of these open logs, four at most, from one on, in their order. The error is the log whose device failed: those before it
/// are cleared, and those behind it are as they were. All other logs get no call.
pub fn clear_side<D: LogDev>(logs: &mut Vec<Log<D>>, from: usize, count: usize) -> Result<(), u8>
    requires few { vec_len logs.old ≤ 4 }
    requires there { from + count ≤ vec_len logs.old }
    requires open { AreAllOpen logs.old.items }
    ensures cleared { MatchResult result
        (λ _. AreDone IsCleared from (from + count) logs.old.items logs.new.items)
        (λ n. IsDoneUpTo IsCleared IsClearFailed from (from + count) n logs.old.items logs.new.items) }
    ensures len { vec_len logs.new ≡ vec_len logs.old }
    ensures room { vec_capacity logs.new ≡ vec_capacity logs.old }
{
    for log in from..from + count {
        if clear_log(&mut logs[log]).is_err() {
            return Err(log as u8);
        }
    }
    Ok(())
}

/// Clears an open log.
fn clear_log<D: LogDev>(log: &mut Log<D>) -> Result<(), Failed>
    requires { log.old.shut ≡ false }
    ensures { MatchResult result (λ _. IsCleared log.old log.new) (λ _. IsClearFailed log.old log.new) }
{
    match log.clear() {
        Ok(()) => Ok(()),
        Err(_) => Err(Failed),
    }
}
