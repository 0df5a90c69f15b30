//! What ACTs wait for. Each clause is about whatever book the part shows.
ghost use Rattle.std.specs.Prelude.{◌≡◌, Some, map, OnOk};
ghost use Rattle.std.specs.List.{flat_map};
ghost use Rattle.listing_facts.specs.book_part.Halves.{Halves, Shows};
ghost use Rattle.ready_listing.specs.Listed.{Adds, of_act, of_joined, of_some, on_book};
ghost use Rattle.protocol.specs.Meant.{actor_number, tid_number};
ghost use Rattle.protocol.specs.Parts.{Book};

use crate::pushing::{push_three, push_two};
use core_events::{BOOK, Event};
use listing_facts::BookPart;
use snap_base::{ActorId, Memory, Tid};
use snap_hand::Hand;
use std::alloc::Global;

fn list_joined(t: Tid, actors: &[ActorId], events: &mut Vec<Event>) -> Result<(), Memory>
    ensures { OnOk result (Adds events.old.items events.new.items (flat_map (of_joined t.0) (map actor_number actors.now))) }
{
    for a in actors {
        push_three(
            events,
            Event::Prepare(t, *a),
            Event::Vouch(t, *a),
            Event::Finish(t, *a),
        )?;
    }
    Ok(())
}

/// Lists what the ACT of this number may wait for: Decide and Seal, and on each actor that it has joined Prepare, Vouch and
/// Finish. Of an ACT that was not admitted it lists the first two, which nobody may take. An `Err` is want of memory, and of the
/// list nothing is said then.
fn list_act(alloc: Global, book: &BookPart, t: Tid, events: &mut Vec<Event>) -> Result<(), Memory>
    ensures { OnOk result ((b : Book) → Shows book.now b → Adds events.old.items events.new.items (of_act b t.0)) }
{
    push_two(events, Event::Decide(t), Event::Seal(t))?;
    let actors = book.actors_of(alloc, t)?;
    list_joined(t, &actors, events)?;
    Ok(())
}

fn list_acts(
    alloc: Global,
    book: &BookPart,
    tids: &[Tid],
    events: &mut Vec<Event>,
) -> Result<(), Memory>
    ensures { OnOk result ((b : Book) → Shows book.now b → Adds events.old.items events.new.items (flat_map (of_act b) (map tid_number tids.now))) }
{
    for t in tids {
        list_act(alloc, book, *t, events)?;
    }
    Ok(())
}

fn list_live(alloc: Global, book: &BookPart, events: &mut Vec<Event>) -> Result<(), Memory>
    ensures { OnOk result ((b : Book) → Shows book.now b → Adds events.old.items events.new.items (on_book b)) }
{
    let tids = book.going(alloc)?;
    list_acts(alloc, book, &tids, events)?;
    Ok(())
}

/// Lists what the live ACTs of the book may wait for, and nothing where the book is not at hand. An `Err` is want of memory, and of
/// the list nothing is said then.
pub fn list_book(alloc: Global, hand: &Hand, events: &mut Vec<Event>) -> Result<(), Memory>
    ensures { OnOk result ((b : Book) → ((x : Halves) → hand.now.book ≡ Some x → Shows x b) → Adds events.old.items events.new.items (of_some (λ x. on_book b) hand.now.book)) }
{
    if !hand.has(BOOK) {
        return Ok(());
    }
    list_live(alloc, hand.book(), events)
}
