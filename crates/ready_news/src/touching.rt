//! All that an event may have made allowed, part by part.
ghost use Rattle.std.specs.Prelude.{◌≡◌, map, OnOk};
ghost use Rattle.aml_slice.specs.Controls.{Rest};
ghost use Rattle.core_events.specs.Meant.{event_meant};
ghost use Rattle.protocol.specs.Effects.{after};
ghost use Rattle.protocol.specs.Parts.{Machine};
ghost use Rattle.protocol_ready.specs.Telling.{PartsTell};
ghost use Rattle.snap_hand.specs.Hands.{IsHandOf, IsWhole};
ghost use Rattle.snap_hand.specs.Tables.{AreTables, fixed_of};
ghost use Rattle.ready_news.specs.New.{IsBehind, IsForeseen, is_new, is_sync};

use crate::at_hand::AtHand;
use crate::laws::{
    answers_are_told, book_is_told, cells_are_told, desk_is_told, logs_are_told, post_is_told,
    ring_is_told,
};
use core_events::Event;
use snap_base::Memory;
use snap_hand::{Hand, Tables};
use std::alloc::Global;

fn is_sync(e: Event) -> bool
    ensures { result ≡ is_sync (event_meant e) }
{
    matches!(e, Event::Sync(_))
}

/// Puts events in place of what was in the list, among which each is that the event, which was just taken, has made allowed; of a
/// Sync all that it has made allowed must be in the list, as `foreseen` put it in ahead of it, and stays there. All parts are at
/// hand, as they are after the event. There may be others, which were allowed before or are not, and one may be there twice: who
/// puts them to the allowed ones looks at each. For want of memory nothing is said of the list.
pub fn touched(
    alloc: Global,
    tables: &Tables,
    hand: &Hand,
    e: Event,
    events: &mut Vec<Event>,
) -> Result<(), Memory>
    requires tables { AreTables tables.now }
    requires places { IsHandOf (fixed_of tables.now) hand.now }
    requires whole { IsWhole hand.now }
    ensures { OnOk result ((s : Machine Rest) → IsBehind (fixed_of tables.now) (event_meant e) s hand.now → IsForeseen (fixed_of tables.now) (event_meant e) s (map event_meant events.old.items) → PartsTell (is_new (fixed_of tables.now) (event_meant e) s) (fixed_of tables.now) (after (fixed_of tables.now) (event_meant e) s) (map event_meant events.new.items)) }
{
    ring_is_told();
    cells_are_told();
    logs_are_told();
    post_is_told();
    desk_is_told();
    book_is_told();
    answers_are_told();
    if is_sync(e) {
        return Ok(());
    }
    // One list serves event after event, and keeps its room.
    events.clear();
    let desk = hand.desk();
    let at = AtHand {
        alloc,
        tables,
        hand,
        ring: hand.ring(),
        book: hand.book(),
        post: hand.post(),
        desk,
        next: desk.next(),
    };
    at.list_by_event(e, events)?;
    Ok(())
}
