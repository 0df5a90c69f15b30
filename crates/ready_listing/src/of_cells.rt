//! What lies at actors.
ghost use Rattle.std.specs.Prelude.{◌≡◌, ◌<◌, map, length, OnOk};
ghost use Rattle.std.specs.List.{flat_map};
ghost use Rattle.ready_listing.specs.Listed.{Adds, of_incomplete, of_outcome, of_undone, of_waiting, on_boxes, on_cell, on_place, on_schedule};
ghost use Rattle.protocol.specs.Meant.{tid_number};
ghost use Rattle.protocol.specs.Words.{below};
ghost use Rattle.snap_hand.specs.Hands.{IsHandOf};
ghost use Rattle.snap_hand.specs.Tables.{AreTables, fixed_of};

use crate::pushing::{push_one, push_two};
use aml_slice::Control;
use core_events::Event;
use snap_base::{ActorId, Bid, Memory, Tid};
use snap_hand::{CellPart, Hand, Tables};
use std::alloc::Global;

/// Lists a Run on the actor of each of these transactions. An `Err` is want of memory, and of the list nothing is said then.
pub fn list_waiting(a: ActorId, tids: &[Tid], events: &mut Vec<Event>) -> Result<(), Memory>
    ensures { OnOk result (Adds events.old.items events.new.items (flat_map (of_waiting a.0) (map tid_number tids.now))) }
{
    for t in tids {
        push_one(events, Event::Run(*t, a))?;
    }
    Ok(())
}

fn list_outcomes(a: ActorId, tids: &[Tid], events: &mut Vec<Event>) -> Result<(), Memory>
    ensures { OnOk result (Adds events.old.items events.new.items (flat_map (of_outcome a.0) (map tid_number tids.now))) }
{
    for t in tids {
        push_two(events, Event::Send(*t, a), Event::End(*t, a))?;
    }
    Ok(())
}

fn list_undone(a: ActorId, tids: &[Tid], events: &mut Vec<Event>) -> Result<(), Memory>
    ensures { OnOk result (Adds events.old.items events.new.items (flat_map (of_undone a.0) (map tid_number tids.now))) }
{
    for t in tids {
        push_one(events, Event::Close(*t, a))?;
    }
    Ok(())
}

fn list_incomplete(a: ActorId, bids: &[Bid], events: &mut Vec<Event>) -> Result<(), Memory>
    ensures { OnOk result (Adds events.old.items events.new.items (flat_map (of_incomplete a.0) (map (λ k. k.0) bids.now))) }
{
    for k in bids {
        push_one(events, Event::Complete(*k, a))?;
    }
    Ok(())
}

/// Lists the events of what lies in the boxes of the actor: Run of each control that waits there, Send and End of each outcome. An
/// `Err` is want of memory, and of the list nothing is said then.
fn list_boxes(
    alloc: Global,
    cell: &CellPart<Control>,
    a: ActorId,
    events: &mut Vec<Event>,
) -> Result<(), Memory>
    ensures { OnOk result (Adds events.old.items events.new.items (on_boxes a.0 cell.now.cell)) }
{
    let waiting = cell.waiting(alloc)?;
    list_waiting(a, &waiting, events)?;
    let outcomes = cell.outcomes(alloc)?;
    list_outcomes(a, &outcomes, events)?;
    Ok(())
}

/// Lists the events of what stands in the schedule of the actor: Close of each PACT that is not done there, Complete of each
/// batch that is not complete there. An `Err` is want of memory, and of the list nothing is said then.
fn list_schedule(
    alloc: Global,
    cell: &CellPart<Control>,
    a: ActorId,
    events: &mut Vec<Event>,
) -> Result<(), Memory>
    ensures { OnOk result (Adds events.old.items events.new.items (on_schedule a.0 cell.now.cell)) }
{
    let undone = cell.undone(alloc)?;
    list_undone(a, &undone, events)?;
    let incomplete = cell.incomplete(alloc)?;
    list_incomplete(a, &incomplete, events)?;
    Ok(())
}

/// Lists the events of what lies at the actor, in its boxes and its schedule, and before them its Rollback. An `Err` is want of
/// memory, and of the list nothing is said then.
fn list_cell(
    alloc: Global,
    cell: &CellPart<Control>,
    a: ActorId,
    events: &mut Vec<Event>,
) -> Result<(), Memory>
    ensures { OnOk result (Adds events.old.items events.new.items (on_cell a.0 cell.now.cell)) }
{
    push_one(events, Event::Rollback(a))?;
    list_boxes(alloc, cell, a, events)?;
    list_schedule(alloc, cell, a, events)?;
    Ok(())
}

/// Lists the events of what lies at the actor, which the text must have, and nothing where its cell is not at hand. An `Err` is
/// want of memory, and of the list nothing is said then.
pub fn list_place(
    alloc: Global,
    hand: &Hand,
    a: ActorId,
    events: &mut Vec<Event>,
) -> Result<(), Memory>
    requires { a.0 < length hand.now.cells }
    ensures { OnOk result (Adds events.old.items events.new.items (on_place hand.now a.0)) }
{
    if !hand.has_cell(a) {
        return Ok(());
    }
    list_cell(alloc, hand.cell(a), a, events)
}

/// How many actors the text has, from 1 to 256.
pub fn actor_count(tables: &Tables, _hand: &Hand) -> u16
    requires tables { AreTables tables.now }
    requires places { IsHandOf (fixed_of tables.now) _hand.now }
    ensures { result ≡ length _hand.now.cells }
{
    tables.opening.states.len() as u16
}

/// Lists the events of what lies at the actors whose cells are at hand, by their numbers. An `Err` is want of memory, and of the
/// list nothing is said then.
pub fn list_cells(
    alloc: Global,
    tables: &Tables,
    hand: &Hand,
    events: &mut Vec<Event>,
) -> Result<(), Memory>
    requires tables { AreTables tables.now }
    requires places { IsHandOf (fixed_of tables.now) hand.now }
    ensures { OnOk result (Adds events.old.items events.new.items (flat_map (on_place hand.now) (below (length hand.now.cells)))) }
{
    let count = actor_count(tables, hand);
    for a in 0..count {
        list_place(alloc, hand, ActorId(a), events)?;
    }
    Ok(())
}
