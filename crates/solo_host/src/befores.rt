//! What is done before an event.
ghost use Rattle.std.specs.Prelude.{◌≡◌, List, length, IsErrOf, MatchResult};
ghost use Rattle.gate_log.specs.State.{AreAllOpen};
ghost use Rattle.snap_core.specs.core_events.Meant.{event_meant};
ghost use Rattle.protocol.specs.Conditions.{IsAllowed};
ghost use Rattle.protocol.specs.Events as machine;
ghost use Rattle.snap_core.specs.Cores.{IsAt, state_at};
ghost use Rattle.snap_core.specs.snap_hand.Tables.{fixed_of};
ghost use Rattle.snap_outside.specs.Causes.{EndsAtFault};
ghost use Rattle.run_effects.specs.RunsOf.{RunsOf};
ghost use Rattle.solo_host.specs.Outside.{AreLow, AreOfFormat2, outside, IsPrepared, IsGivenUp};

use crate::groups::before_sync;
use crate::replies::before_reply;
use gate_log::Log;
use run_effects::Stop;
use snap_core::{Core, Event};
use snap_outside::{LogDev, Sink};
use std::alloc::Global;

/// Does what stands before the event, which is allowed: the append of a Sync, the line of a reply.
pub(crate) fn before<D: LogDev, O: Sink>(
    alloc: Global,
    core: &Core,
    logs: &mut Vec<Log<D>>,
    out: &mut O,
    e: Event,
) -> Result<(), Stop>
    requires runs { RunsOf (fixed_of core.now.tables) }
    requires allowed { (es : List machine.Event) × IsAt core.now es × IsAllowed (fixed_of core.now.tables) (event_meant e) (state_at core.now es) }
    requires logs { length logs.old.items ≡ core.now.tables.work.logs }
    requires open { AreAllOpen logs.old.items }
    requires format { AreOfFormat2 logs.old.items }
    requires low { AreLow logs.old.items }
    ensures outer { MatchResult result
        (λ _. (es : List machine.Event) → IsAt core.now es → IsPrepared (fixed_of core.now.tables) es (event_meant e)
        (outside logs.old.items (O.taken out.old) (O.faults out.old))
        (outside logs.new.items (O.taken out.new) (O.faults out.new)))
        (λ stop. (es : List machine.Event) → IsAt core.now es → IsGivenUp (fixed_of core.now.tables) es (event_meant e) stop
        (outside logs.old.items (O.taken out.old) (O.faults out.old))
        (outside logs.new.items (O.taken out.new) (O.faults out.new))) }
    ensures once { EndsAtFault (¬ IsErrOf result Stop.OutFault) (O.faults out.old) (O.late out.old) (O.faults out.new) (O.late out.new) }
{
    match e {
        Event::Sync(l) => before_sync(alloc, core, logs, l),
        Event::Reply(n) => before_reply(alloc, core, out, n),
        _ => Ok(()),
    }
}
