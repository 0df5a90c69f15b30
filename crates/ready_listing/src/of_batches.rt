//! What batches wait for.
ghost use Rattle.std.specs.Prelude.{map, OnOk};
ghost use Rattle.std.specs.List.{flat_map};
ghost use Rattle.ready_listing.specs.Listed.{Adds, of_batch, of_declared, of_some, on_desk};
ghost use Rattle.protocol.specs.Meant.{actor_number};

use crate::pushing::{push_three, push_two};
use core_events::{DESK, Event};
use listing_facts::Desk;
use snap_base::{ActorId, Bid, Memory};
use snap_hand::Hand;
use std::alloc::Global;

fn list_declared(k: Bid, actors: &[ActorId], events: &mut Vec<Event>) -> Result<(), Memory>
    ensures { OnOk result (Adds events.old.items events.new.items (flat_map (of_declared k.0) (map actor_number actors.now))) }
{
    for a in actors {
        push_two(events, Event::Note(k, *a), Event::Trim(k, *a))?;
    }
    Ok(())
}

/// Lists what the batch of this number may wait for: Commit, Settle and AbortBatch, and on each actor that it declares Note and
/// Trim. Of a batch that was not formed it lists the first three, which nobody may take. An `Err` is want of memory, and of the
/// list nothing is said then.
fn list_batch(alloc: Global, desk: &Desk, k: Bid, events: &mut Vec<Event>) -> Result<(), Memory>
    ensures { OnOk result (Adds events.old.items events.new.items (of_batch desk.now k.0)) }
{
    push_three(
        events,
        Event::Commit(k),
        Event::Settle(k),
        Event::AbortBatch(k),
    )?;
    let actors = desk.actors_of(alloc, k)?;
    list_declared(k, &actors, events)?;
    Ok(())
}

fn list_batches(
    alloc: Global,
    desk: &Desk,
    bids: &[Bid],
    events: &mut Vec<Event>,
) -> Result<(), Memory>
    ensures { OnOk result (Adds events.old.items events.new.items (flat_map (of_batch desk.now) (map (λ k. k.0) bids.now))) }
{
    for k in bids {
        list_batch(alloc, desk, *k, events)?;
    }
    Ok(())
}

/// Lists what the batches of the desk may wait for that are neither aborted, nor settled and trimmed on all their actors. An
/// `Err` is want of memory, and of the list nothing is said then.
pub fn list_going(alloc: Global, desk: &Desk, events: &mut Vec<Event>) -> Result<(), Memory>
    ensures { OnOk result (Adds events.old.items events.new.items (on_desk desk.now)) }
{
    let bids = desk.going(alloc)?;
    list_batches(alloc, desk, &bids, events)?;
    Ok(())
}

/// Lists what the batches of the desk may wait for that are neither aborted, nor settled and trimmed on all their actors; and
/// nothing where the desk is not at hand. An `Err` is want of memory, and of the list nothing is said then.
pub fn list_desk(alloc: Global, hand: &Hand, events: &mut Vec<Event>) -> Result<(), Memory>
    ensures { OnOk result (Adds events.old.items events.new.items (of_some on_desk hand.now.desk)) }
{
    if !hand.has(DESK) {
        return Ok(());
    }
    list_going(alloc, hand.desk(), events)
}
