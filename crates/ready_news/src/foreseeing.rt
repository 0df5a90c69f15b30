//! What a sync will make allowed, ahead of it.
ghost use Rattle.std.specs.Prelude.{map, OnOk};
ghost use Rattle.aml_slice.specs.Controls.{Rest};
ghost use Rattle.core_events.specs.Meant.{event_meant};
ghost use Rattle.ready_listing.specs.Listed.{Adds};
ghost use Rattle.protocol.specs.Parts.{Machine};
ghost use Rattle.snap_hand.specs.Hands.{IsHandOf, IsWhole};
ghost use Rattle.snap_hand.specs.Tables.{AreTables, fixed_of};
ghost use Rattle.ready_news.specs.Foreseen.{of_key, of_keys};
ghost use Rattle.ready_news.specs.New.{IsAheadOf, IsForeseen};

use crate::at_hand::push_if;
use aml_slice::Control;
use core_events::Event;
use listing_facts::Desk;
use protocol_laws::{allowed_or_refused, logs_stay};
use ready_listing::push_one;
use snap_base::Memory;
use snap_hand::{Hand, Tables};
use txn_records::Key;

/// What waits for the record that is about this.
fn list_key(desk: &Desk, key: Key, events: &mut Vec<Event>) -> Result<(), Memory>
    ensures { OnOk result (Adds events.old.items events.new.items (of_key desk.now key)) }
{
    match key {
        Key::Genesis => Ok(()),
        Key::Info(k) => push_if(desk.all_noted(k), Event::Commit(k), events),
        Key::Complete(k, a) => push_one(events, Event::Note(k, a)),
        Key::Commit(k) => push_one(events, Event::Settle(k)),
        Key::Prepare(t, a) => push_one(events, Event::Vouch(t, a)),
        Key::Act(t) => push_one(events, Event::Seal(t)),
        Key::Checkpoint => Ok(()),
    }
}

fn list_keys(desk: &Desk, waiting: &[Key], events: &mut Vec<Event>) -> Result<(), Memory>
    ensures { OnOk result (Adds events.old.items events.new.items (of_keys desk.now waiting.now)) }
{
    for key in waiting {
        list_key(desk, *key, events)?;
    }
    Ok(())
}

/// Puts events in place of what was in the list, among which each is that the event will make allowed, where it is a Sync, is
/// allowed, and has yet to be taken; nothing, where it is another event. All parts are at hand, as they are ahead of it: after it
/// the log no longer tells which of its records it has made durable. There may be others, which are not allowed after it. For want
/// of memory nothing is said of the list.
pub fn foreseen(
    tables: &Tables,
    hand: &Hand,
    e: Event,
    events: &mut Vec<Event>,
) -> Result<(), Memory>
    requires tables { AreTables tables.now }
    requires places { IsHandOf (fixed_of tables.now) hand.now }
    requires whole { IsWhole hand.now }
    ensures { OnOk result ((s : Machine Rest) → IsAheadOf (fixed_of tables.now) (event_meant e) s hand.now → IsForeseen (fixed_of tables.now) (event_meant e) s (map event_meant events.new.items)) }
{
    allowed_or_refused::<Control>();
    logs_stay::<Control>();
    events.clear();
    let Event::Sync(l) = e else {
        return Ok(());
    };
    if l >= tables.work.logs {
        return Ok(());
    }
    list_keys(hand.desk(), hand.log(l as usize).waiting_keys(), events)?;
    Ok(())
}
