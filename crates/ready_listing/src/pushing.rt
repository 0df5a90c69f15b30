//! Events put behind others in a list, which is given up where memory is wanting.
ghost use Rattle.std.specs.Prelude.{[], ◌∷◌, OnOk};
ghost use Rattle.core_events.specs.Meant.{event_meant};
ghost use Rattle.ready_listing.specs.Listed.{Adds};

use core_events::Event;
use snap_base::Memory;

/// Puts the event behind those of the list. An `Err` is want of memory, and of the list nothing is said then.
pub fn push_one(events: &mut Vec<Event>, e: Event) -> Result<(), Memory>
    ensures { OnOk result (Adds events.old.items events.new.items (event_meant e ∷ [])) }
{
    events.push(e)?;
    Ok(())
}

/// Puts the events `e` and `f` behind those of the list, in this order. An `Err` is want of memory, and of the list nothing is said
/// then: it may have got one of them.
pub fn push_two(events: &mut Vec<Event>, e: Event, f: Event) -> Result<(), Memory>
    ensures { OnOk result (Adds events.old.items events.new.items (event_meant e ∷ event_meant f ∷ [])) }
{
    push_one(events, e)?;
    push_one(events, f)?;
    Ok(())
}

/// Puts the events `e`, `f` and `g` behind those of the list, in this order. An `Err` is want of memory, and of the list nothing is
/// said then: it may have got some of them.
pub(crate) fn push_three(
    events: &mut Vec<Event>,
    e: Event,
    f: Event,
    g: Event,
) -> Result<(), Memory>
    ensures { OnOk result (Adds events.old.items events.new.items (event_meant e ∷ event_meant f ∷ event_meant g ∷ [])) }
{
    push_two(events, e, f)?;
    push_one(events, g)?;
    Ok(())
}
