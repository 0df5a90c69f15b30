//! What is appended to a log's device before its Sync.
ghost use Rattle.std.specs.Prelude.{◌≡◌, ◌<◌, ℕ, List, length, false, MatchResult};
ghost use Rattle.gate_log.specs.State.{AreAllOpen};
ghost use Rattle.protocol.specs.Events as machine;
ghost use Rattle.snap_core.specs.Cores.{IsAt};
ghost use Rattle.snap_core.specs.snap_hand.Tables.{fixed_of};
ghost use Rattle.run_effects.specs.RunsOf.{RunsOf};
ghost use Rattle.solo_host.specs.Outside.{AreLow, AreOfFormat2, IsSynced, IsNotSynced, stop_of};

use gate_log::{AppendNo, Log};
use run_effects::{Stop, append_pieces, history_grows};
use snap_core::Core;
use snap_outside::LogDev;
use std::alloc::Global;

/// Appends the records of log `l` that wait for its Sync to the log's device, as one group.
pub(crate) fn before_sync<D: LogDev>(
    alloc: Global,
    core: &Core,
    logs: &mut Vec<Log<D>>,
    l: u8,
) -> Result<(), Stop>
    requires runs { RunsOf (fixed_of core.now.tables) }
    requires at { (es : List machine.Event) × IsAt core.now es }
    requires exists { l < core.now.tables.work.logs }
    requires logs { length logs.old.items ≡ core.now.tables.work.logs }
    requires open { AreAllOpen logs.old.items }
    requires format { AreOfFormat2 logs.old.items }
    requires low { AreLow logs.old.items }
    ensures { MatchResult result
        (λ _. (es : List machine.Event) → IsAt core.now es → IsSynced (fixed_of core.now.tables) es l logs.old.items logs.new.items)
        (λ stop. (es : List machine.Event) → IsAt core.now es → IsNotSynced (fixed_of core.now.tables) es l stop logs.old.items logs.new.items) }
{
    history_grows();
    match append_pieces(alloc, &mut logs[l as usize], core.group(l)) {
        Ok(()) => Ok(()),
        Err(no) => Err(stop_of(no, l)),
    }
}

/// Why the host ends where an append to log `l` is refused. The log was open, so where it is shut it was the device.
fn stop_of(no: AppendNo, l: u8) -> Stop
    ensures { result ≡ stop_of no l }
{
    match no {
        AppendNo::Memory => Stop::Memory,
        AppendNo::Device | AppendNo::Shut => Stop::LogFault(l),
    }
}
