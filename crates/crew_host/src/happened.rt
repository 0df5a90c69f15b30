//! The events of the acts that happened.
ghost use Rattle.std.specs.Prelude.{◌≡◌, ◌+◌, ◌<◌, ◌≤◌, ◌++◌, [], length, map, vec_capacity, vec_len};
ghost use Rattle.core_events.specs.Meant.{event_meant};
ghost use Rattle.crew_parts.specs.Acts.{meant};
ghost use Rattle.crew_parts.specs.Crews.{added, kept};

use core_events::Event;
use crew_parts::Act;
use std::alloc::Global;
use std::sync::Wait;

/// The events of the acts that happened, in their order. Where there is no memory for the list, it is tried again.
pub(crate) fn happened<R: Wait>(rt: &R, alloc: Global, acts: &[Act]) -> Vec<Event>
    ensures { map event_meant result.items ≡ kept acts.now }
{
    for _ in rt.forever() {
        if let Ok(room) = Vec::with_capacity(alloc, acts.len()) {
            return those_of(acts, room);
        }
    }
    unreachable!()
}

/// The events of the acts that happened, in their order, in a list that has room for them.
fn those_of(acts: &[Act], room: Vec<Event>) -> Vec<Event>
    requires { (room.items ≡ []) × (length acts.now ≤ vec_capacity room) }
    ensures { map event_meant result.items ≡ kept acts.now }
{
    let mut events = room;
    for act in acts {
        add(&mut events, *act);
    }
    events
}

/// The event of the act goes behind the others, where it happened.
fn add(events: &mut Vec<Event>, act: Act)
    requires { vec_len events.old < vec_capacity events.old }
    ensures added { map event_meant events.new.items ≡ map event_meant events.old.items ++ added act.done (meant act) }
    ensures more { vec_len events.new ≤ vec_len events.old + 1 }
    ensures room { vec_capacity events.new ≡ vec_capacity events.old }
{
    if act.done {
        events.push_reserved(act.event);
    }
}
