//! The clearing of a log: its first gate is closed.
ghost use Rattle.std.specs.Prelude.{◌≡◌, ◌↔◌, ◌<◌, ◌≤◌, true, false, IsOk, IsErr, IsErrOf, IsSome, OnOk, OnErr, MatchResult};
ghost use Rattle.std.specs.Option.{ForSome};
ghost use Rattle.snap_outside.specs.Causes.{HasCause, Rose};
ghost use Rattle.snap_outside.specs.Disk.{AddsAll, AddsUpToFault};
ghost use Rattle.gate_log.specs.Appends.{close_ops, clear_ops, AddsRefused};
ghost use Rattle.gate_log.specs.Bytes.{FIRST_GATE};
ghost use Rattle.gate_log.specs.Device.{ClearsSafely, Cleared};

use crate::limits::FIRST_GATE;
use crate::logs::{AppendNo, Log};
use snap_outside::{Failed, LogDev};

const CLOSED: u8 = 0;

/// Closes the first gate and makes that durable. Where a call fails, the calls before it have been made, and its own
/// perhaps.
fn close_first_gate<D: LogDev>(dev: &mut D) -> Result<(), Failed>
    requires known { IsSome (D.told_length dev.old) }
    requires within { ForSome (D.told_length dev.old) (λ len. FIRST_GATE < len) }
    ensures done { OnOk result (AddsAll (D.told dev.old) (D.told dev.new) close_ops) }
    ensures fault { OnErr result (AddsUpToFault (D.told dev.old) (D.told dev.new) close_ops) }
    ensures same { OnOk result (D.told_length dev.new ≡ D.told_length dev.old) }
    ensures cause { HasCause (D.faults dev.old) (D.faults dev.new) result }
{
    dev.write_at(FIRST_GATE, &[CLOSED])?;
    dev.sync()
}

impl<D: LogDev> Log<D> {
    ghost use Rattle.gate_log.specs.State.{IsUntouched};

    /// Clears the log: it has no item then, and keeps its format. A log that has no group is left as it is, and no call of
    /// the device is made. It takes no memory. `Shut` leaves the log and its device as they were; `Device` shuts the log,
    /// and a crash leaves its items or none.
    pub fn clear(&mut self) -> Result<(), AppendNo>
        ensures cleared { OnOk result (Cleared self.old.told self.new.told self.old.end) }

        // A crash at any moment of the call leaves the list from before it, or none.
        ensures crashes { ClearsSafely self.old.told self.new.told self.old.end }

        // The device's history grew by the operations of the clearing, in order, up to the fault that ended them.
        ensures ops { MatchResult result
            (λ _. AddsAll self.old.told self.new.told (clear_ops self.old.end))
            (AddsRefused self.old.told self.new.told (clear_ops self.old.end)) }

        ensures end { OnOk result (self.new.end ≡ FIRST_GATE) }
        ensures end_kept { IsErr result → self.new.end ≡ self.old.end }
        ensures empty { self.old.end ≡ FIRST_GATE → IsUntouched self.old self.new × (self.old.shut ≡ false → IsOk result) }
        ensures open { OnOk result (self.new.shut ≡ false) }

        ensures device { IsErrOf result AppendNo.Device → (self.new.shut ≡ true) × Rose self.old.faults self.new.faults }
        ensures shut { IsErrOf result AppendNo.Shut ↔ (self.old.shut ≡ true) }
        ensures shut_kept { IsErrOf result AppendNo.Shut → IsUntouched self.old self.new }
        ensures memory { ¬ IsErrOf result AppendNo.Memory }

        ensures faults { self.old.faults ≤ self.new.faults }
        ensures found { self.new.found ≡ self.old.found }
        ensures format { self.new.format ≡ self.old.format }
    {
        if self.shut {
            return Err(AppendNo::Shut);
        }
        if self.end <= FIRST_GATE {
            return Ok(());
        }
        match close_first_gate(&mut self.dev) {
            Ok(()) => {
                self.end = FIRST_GATE;
                Ok(())
            }
            Err(_) => {
                self.shut = true;
                Err(AppendNo::Device)
            }
        }
    }
}
