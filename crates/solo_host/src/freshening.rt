//! What is kept of the allowed events from turn to turn.
ghost use Rattle.std.specs.Prelude.{List, [], ◌∷◌, ◌++◌, map, OnOk};
ghost use Rattle.snap_core.specs.core_events.Meant.{event_meant};
ghost use Rattle.protocol.specs.Events as machine;
ghost use Rattle.protocol.specs.Schedule.{IsEnabled};
ghost use Rattle.snap_core.specs.Cores.{IsAt, state_at};
ghost use Rattle.snap_core.specs.ready_news.New.{IsForeseen};
ghost use Rattle.snap_core.specs.snap_hand.Tables.{fixed_of};
ghost use Rattle.solo_host.specs.Turns.{IsKeptFor, IsOneBehind};

use snap_base::Memory;
use snap_core::{Core, Event, ReadyList};
use std::alloc::Global;

/// Lists all that is allowed now.
fn list_anew(alloc: Global, core: &Core, list: &mut ReadyList) -> Result<(), Memory>
    ensures { OnOk result ((es : List machine.Event) → IsAt core.now es → IsEnabled (fixed_of core.now.tables) (state_at core.now es) list.new.events) }
{
    *list = core.enabled(alloc)?;
    Ok(())
}

/// Makes of what was kept ahead of the event, which was just taken, what is kept now. Seed 0 takes the first of what is allowed, so
/// what is refused may stay until it is the first. What was foreseen ahead of the event is handed in.
fn go_on(
    alloc: Global,
    core: &Core,
    seed: u64,
    e: Event,
    list: &mut ReadyList,
    news: &mut Vec<Event>,
) -> Result<(), Memory>
    ensures { OnOk result ((es : List machine.Event) → IsAt core.now (es ++ event_meant e ∷ [])
        → IsForeseen (fixed_of core.now.tables) (event_meant e) (state_at core.now es) (map event_meant news.old.items)
        → IsKeptFor seed (fixed_of core.now.tables) (state_at core.now es) list.old.events
        → IsKeptFor seed (fixed_of core.now.tables) (state_at core.now (es ++ event_meant e ∷ [])) list.new.events) }
{
    if seed == 0 {
        core.advance(alloc, e, list, news)
    } else {
        core.renew(alloc, e, list, news)
    }
}

/// Makes of what was kept and foreseen ahead of the last event what is kept now; where there was no event yet, it is listed.
pub(crate) fn freshen(
    alloc: Global,
    core: &Core,
    seed: u64,
    kept: &Vec<Event>,
    list: &mut ReadyList,
    news: &mut Vec<Event>,
) -> Result<(), Memory>
    requires at { IsAt core.now (map event_meant kept.now.items) }
    requires behind { IsOneBehind seed (fixed_of core.now.tables) (map event_meant kept.now.items) list.old.events (map event_meant news.old.items) }
    ensures { OnOk result (IsKeptFor seed (fixed_of core.now.tables) (state_at core.now (map event_meant kept.now.items)) list.new.events) }
{
    match kept.last() {
        Some(e) => go_on(alloc, core, seed, *e, list, news),
        None => list_anew(alloc, core, list),
    }
}
