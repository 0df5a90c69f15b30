//! An event that waits for what is done outside ahead of it: an append, or a line.
ghost use Rattle.std.specs.Prelude.{◌≡◌, ◌≢◌, ◌<◌, ℕ, List, None, Some, true, length, map, vec_len, vec_capacity, MatchOption, OnOk, OnErr};
ghost use Rattle.gate_log.specs.State.{AreAllOpen};
ghost use Rattle.protocol.specs.Conditions.{IsAllowed};
ghost use Rattle.protocol.specs.Events as machine;
ghost use Rattle.run_effects.specs.RunsOf.{RunsOf};
ghost use Rattle.snap_core.specs.core_events.Meant.{event_meant};
ghost use Rattle.snap_core.specs.Cores.{IsAt, HasTaken, state_at};
ghost use Rattle.snap_core.specs.snap_hand.Steps.{may_want};
ghost use Rattle.snap_core.specs.snap_hand.Tables.{fixed_of};
ghost use Rattle.snap_outside.specs.Causes.{EndsAtFault};
ghost use Rattle.solo_host.specs.Outside.{AreLow, AreOfFormat2, IsPicked, outside};
ghost use Rattle.solo_host.specs.Turns.{HasGoneOn, HasStopped, IsKeptFor, IsOneBehind};

use crate::befores::before;
use crate::keeping::keep;
use aml_slice::Control;
use gate_log::Log;
use protocol_laws::allowed_or_refused;
use run_effects::Stop;
use snap_base::Memory;
use snap_core::{Core, Event};
use snap_outside::{LogDev, Sink};
use std::alloc::Global;

/// Takes the event, which is allowed. `Memory` comes only of the events that add something, and leaves the core as it was.
pub(crate) fn take_step(alloc: Global, core: &mut Core, e: Event) -> Result<(), Memory>
    requires { (es : List machine.Event) × IsAt core.old es × IsAllowed (fixed_of core.old.tables) (event_meant e) (state_at core.old es) }
    ensures ok { OnOk result (HasTaken (event_meant e) core.old core.new) }
    ensures no { OnErr result (may_want (event_meant e) ≡ true) }
    ensures unchanged { OnErr result (core.new ≡ core.old) }
    ensures tables { core.new.tables ≡ core.old.tables }
{
    allowed_or_refused::<Control>();
    match core.step(alloc, e) {
        Ok(()) => Ok(()),
        Err(_) => Err(Memory),
    }
}

/// Does what stands before the event, which a seed picked; then it is taken, and kept in a list that has room for it. What is
/// foreseen ahead of it is put in place of what was in `news`. Or it tells why the host ends, with no event taken.
pub(crate) fn take_waiting<D: LogDev, O: Sink>(
    alloc: Global,
    core: &mut Core,
    logs: &mut Vec<Log<D>>,
    out: &mut O,
    e: Event,
    news: &mut Vec<Event>,
    kept: &mut Vec<Event>,
) -> Option<Stop>
    requires runs { RunsOf (fixed_of core.old.tables) }
    requires at { IsAt core.old (map event_meant kept.old.items) }
    requires picked { (seed : ℕ) × IsPicked (fixed_of core.old.tables) seed (map event_meant kept.old.items) (event_meant e) }
    requires room { vec_len kept.old < vec_capacity kept.old }
    requires logs { length logs.old.items ≡ core.old.tables.work.logs }
    requires open { AreAllOpen logs.old.items }
    requires format { AreOfFormat2 logs.old.items }
    requires low { AreLow logs.old.items }
    ensures goes { (seed : ℕ) → IsPicked (fixed_of core.old.tables) seed (map event_meant kept.old.items) (event_meant e) → MatchOption result
        (HasGoneOn seed core.old core.new (map event_meant kept.old.items) (map event_meant kept.new.items)
        (outside logs.old.items (O.taken out.old) (O.faults out.old))
        (outside logs.new.items (O.taken out.new) (O.faults out.new)))
        (λ stop. HasStopped seed core.old core.new (map event_meant kept.old.items) (map event_meant kept.new.items) stop
        (outside logs.old.items (O.taken out.old) (O.faults out.old))
        (outside logs.new.items (O.taken out.new) (O.faults out.new))) }
    ensures behind { result ≡ None → (seed : ℕ) (list : List machine.Event) → IsKeptFor seed (fixed_of core.old.tables) (state_at core.old (map event_meant kept.old.items)) list
        → IsOneBehind seed (fixed_of core.old.tables) (map event_meant kept.new.items) list (map event_meant news.new.items) }
    ensures tables { core.new.tables ≡ core.old.tables }
    ensures once { EndsAtFault (result ≢ Some Stop.OutFault) (O.faults out.old) (O.late out.old) (O.faults out.new) (O.late out.new) }
{
    let Ok(()) = core.foresee(e, news) else {
        return Some(Stop::Memory);
    };
    match before(alloc, core, logs, out, e) {
        Ok(()) => {}
        Err(stop) => return Some(stop),
    }
    match take_step(alloc, core, e) {
        Ok(()) => {}
        Err(_) => return Some(Stop::Memory),
    }
    keep(kept, e);
    None
}
