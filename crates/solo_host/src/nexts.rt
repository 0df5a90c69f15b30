//! The next event of the schedule, of those that are kept.
ghost use Rattle.std.specs.Prelude.{◌≡◌, List, length};
ghost use Rattle.protocol.specs.Events as machine;
ghost use Rattle.protocol_schedule.specs.Draw.{word_of};
ghost use Rattle.snap_core.specs.Cores.{IsAt, state_at};
ghost use Rattle.snap_core.specs.snap_hand.Tables.{fixed_of};
ghost use Rattle.solo_host.specs.Turns.{IsKeptFor, IsNext};

use crate::picks::by_seed;
use crate::tries::{Tried, try_event};
use protocol_ready::{events_stay_in_order, one_is_taken, ranks_are_in_order};
use snap_core::{Core, Event, ReadyList};
use std::alloc::Global;

/// What comes next.
#[derive(Clone, Copy)]
pub(crate) enum Next {
    /// Nothing: no event is allowed.
    Quiet,
    /// This event, which was taken.
    Taken(Event),
    /// This event, which was not taken: something is to be done outside ahead of it.
    Asks(Event),
    /// There was no memory.
    Memory,
}

/// Takes the event that the seed's schedule takes by the word of a step, of those that are kept, but for one ahead of which
/// something is done outside. The refused ones ahead of it are taken out of the list.
pub(crate) fn take_next(
    alloc: Global,
    core: &mut Core,
    seed: u64,
    word: u32,
    list: &mut ReadyList,
) -> Next
    ensures next { (es : List machine.Event) → IsAt core.old es → word ≡ word_of seed (length es)
        → IsKeptFor seed (fixed_of core.old.tables) (state_at core.old es) list.old.events
        → IsNext seed es core.old core.new result }
    ensures kept { (es : List machine.Event) → IsAt core.old es
        → IsKeptFor seed (fixed_of core.old.tables) (state_at core.old es) list.old.events
        → IsKeptFor seed (fixed_of core.old.tables) (state_at core.old es) list.new.events }
    ensures tables { core.new.tables ≡ core.old.tables }
{
    events_stay_in_order();
    one_is_taken();
    ranks_are_in_order();
    'tries: loop {
        let Some(e) = by_seed(seed, word, list) else {
            return Next::Quiet;
        };
        match try_event(alloc, core, e) {
            Tried::Refused => list.take(e),
            Tried::Taken => return Next::Taken(e),
            Tried::Asks => return Next::Asks(e),
            Tried::Memory => return Next::Memory,
        }
    }
}
