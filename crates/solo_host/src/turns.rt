//! One turn: an event is picked and taken, once what stands before it is done, behind the replies that come ahead of it.
ghost use Rattle.std.specs.Prelude.{None, Some, ◌≡◌, ◌≢◌, ◌<◌, length, map, MatchOption};
ghost use Rattle.gate_log.specs.State.{AreAllOpen};
ghost use Rattle.snap_core.specs.core_events.Meant.{event_meant};
ghost use Rattle.snap_core.specs.Cores.{IsAt, state_at};
ghost use Rattle.snap_core.specs.snap_hand.Tables.{fixed_of};
ghost use Rattle.snap_outside.specs.Causes.{EndsAtFault};
ghost use Rattle.run_effects.specs.RunsOf.{RunsOf};
ghost use Rattle.solo_host.specs.Outside.{AreLow, AreOfFormat2, Outside, outside};
ghost use Rattle.solo_host.specs.Together.{IsDriving, IsOver};
ghost use Rattle.solo_host.specs.Turns.{HasGoneOn, HasStopped, IsBehindWords, IsKeptFor, IsOneBehind};

use crate::freshening::freshen;
use crate::keeping::keep;
use crate::nexts::{Next, take_next};
use crate::picks::draw;
use crate::together::take_replies;
use crate::waits::take_waiting;
use gate_log::Log;
use rand_pcg::Pcg32;
use run_effects::Stop;
use snap_core::{Core, Event, ReadyList};
use snap_outside::{LogDev, Sink};
use std::alloc::Global;

/// Takes the next event of the seed's schedule, which is among those that are kept, and keeps it, or tells why the host ends, with no
/// event taken.
fn take_one<D: LogDev, O: Sink>(
    alloc: Global,
    core: &mut Core,
    logs: &mut Vec<Log<D>>,
    out: &mut O,
    seed: u64,
    generator: &mut Pcg32,
    list: &mut ReadyList,
    news: &mut Vec<Event>,
    kept: &mut Vec<Event>,
) -> Option<Stop>
    requires runs { RunsOf (fixed_of core.old.tables) }
    requires at { IsAt core.old (map event_meant kept.old.items) }
    requires drawn { IsBehindWords seed (length (map event_meant kept.old.items)) generator.old }
    requires keeps { IsKeptFor seed (fixed_of core.old.tables) (state_at core.old (map event_meant kept.old.items)) list.old.events }
    requires logs { length logs.old.items ≡ core.old.tables.work.logs }
    requires open { AreAllOpen logs.old.items }
    requires format { AreOfFormat2 logs.old.items }
    requires low { AreLow logs.old.items }
    ensures goes { MatchOption result
        (HasGoneOn seed core.old core.new (map event_meant kept.old.items) (map event_meant kept.new.items)
        (outside logs.old.items (O.taken out.old) (O.faults out.old))
        (outside logs.new.items (O.taken out.new) (O.faults out.new)))
        (λ stop. HasStopped seed core.old core.new (map event_meant kept.old.items) (map event_meant kept.new.items) stop
        (outside logs.old.items (O.taken out.old) (O.faults out.old))
        (outside logs.new.items (O.taken out.new) (O.faults out.new))) }
    ensures behind { result ≡ None → IsOneBehind seed (fixed_of core.old.tables) (map event_meant kept.new.items) list.new.events (map event_meant news.new.items) }
    ensures drawn { result ≡ None → IsBehindWords seed (length (map event_meant kept.new.items)) generator.new }
    ensures tables { core.new.tables ≡ core.old.tables }
    ensures once { EndsAtFault (result ≢ Some Stop.OutFault) (O.faults out.old) (O.late out.old) (O.faults out.new) (O.late out.new) }
{
    if kept.reserve(1).is_err() {
        return Some(Stop::Memory);
    }
    let word = draw(generator);
    match take_next(alloc, core, seed, word, list) {
        Next::Quiet => Some(Stop::Quiet),
        Next::Memory => Some(Stop::Memory),
        Next::Taken(e) => {
            keep(kept, e);
            None
        }
        Next::Asks(e) => take_waiting(alloc, core, logs, out, e, news, kept),
    }
}

/// Takes the next event of the seed's schedule and keeps it; by seed 0 it first takes the replies that come ahead of it, whose lines
/// are printed together. Or it tells why the host ends, with the event that comes next not taken. The generator and the lists were
/// kept from the turn before; `news` has what was foreseen ahead of its event.
pub(crate) fn turn<D: LogDev, O: Sink>(
    alloc: Global,
    core: &mut Core,
    logs: &mut Vec<Log<D>>,
    out: &mut O,
    seed: u64,
    generator: &mut Pcg32,
    list: &mut ReadyList,
    news: &mut Vec<Event>,
    kept: &mut Vec<Event>,
) -> Option<Stop>
    requires runs { RunsOf (fixed_of core.old.tables) }
    requires at { IsAt core.old (map event_meant kept.old.items) }
    requires drawn { IsBehindWords seed (length (map event_meant kept.old.items)) generator.old }
    requires behind { IsOneBehind seed (fixed_of core.old.tables) (map event_meant kept.old.items) list.old.events (map event_meant news.old.items) }
    requires logs { length logs.old.items ≡ core.old.tables.work.logs }
    requires open { AreAllOpen logs.old.items }
    requires format { AreOfFormat2 logs.old.items }
    requires low { AreLow logs.old.items }
    ensures goes { (start : Outside) → IsDriving (fixed_of core.old.tables) seed (map event_meant kept.old.items) start (outside logs.old.items (O.taken out.old) (O.faults out.old))
        → MatchOption result
        (IsDriving (fixed_of core.old.tables) seed (map event_meant kept.new.items) start (outside logs.new.items (O.taken out.new) (O.faults out.new)))
        (λ stop. IsOver (fixed_of core.old.tables) seed (map event_meant kept.new.items) stop start (outside logs.new.items (O.taken out.new) (O.faults out.new))) }
    ensures at { IsAt core.new (map event_meant kept.new.items) }
    ensures more { result ≡ None → length kept.old.items < length kept.new.items }
    ensures behind { result ≡ None → IsOneBehind seed (fixed_of core.old.tables) (map event_meant kept.new.items) list.new.events (map event_meant news.new.items) }
    ensures drawn { result ≡ None → IsBehindWords seed (length (map event_meant kept.new.items)) generator.new }
    ensures tables { core.new.tables ≡ core.old.tables }
    ensures once { EndsAtFault (result ≢ Some Stop.OutFault) (O.faults out.old) (O.late out.old) (O.faults out.new) (O.late out.new) }
{
    let Ok(()) = freshen(alloc, core, seed, kept, list, news) else {
        return Some(Stop::Memory);
    };
    match take_replies(alloc, core, out, seed, generator, list, kept) {
        Some(stop) => return Some(stop),
        None => {}
    }
    take_one(alloc, core, logs, out, seed, generator, list, news, kept)
}
