//! What is under way.
ghost use Rattle.std.specs.Prelude.{map, OnOk};
ghost use Rattle.std.specs.List.{flat_map};
ghost use Rattle.ready_listing.specs.Listed.{Adds, of_control, of_some, of_sub, on_post};
ghost use Rattle.listing_facts.specs.post_box.Listed.{control_listed, sub_listed};

use crate::pushing::{push_three, push_two};
use aml_slice::Control;
use core_events::{Event, POST};
use listing_facts::Post;
use snap_base::{ActorId, Bid, Memory, Tid};
use snap_hand::Hand;
use std::alloc::Global;

/// Lists Arrive and DropSub of each of these sub-batches: a batch, and the actor to which it is under way. An `Err` is want of
/// memory, and of the list nothing is said then.
fn list_subs(subs: &[(Bid, ActorId)], events: &mut Vec<Event>) -> Result<(), Memory>
    ensures { OnOk result (Adds events.old.items events.new.items (flat_map of_sub (map sub_listed subs.now))) }
{
    for p in subs {
        push_two(events, Event::Arrive(p.0, p.1), Event::DropSub(p.0, p.1))?;
    }
    Ok(())
}

/// Lists Ask, Take and DropControl of each of these controls: a transaction, and the actor to which it is under way. An `Err` is
/// want of memory, and of the list nothing is said then.
fn list_controls(controls: &[(Tid, ActorId)], events: &mut Vec<Event>) -> Result<(), Memory>
    ensures { OnOk result (Adds events.old.items events.new.items (flat_map of_control (map control_listed controls.now))) }
{
    for p in controls {
        push_three(
            events,
            Event::Ask(p.0, p.1),
            Event::Take(p.0, p.1),
            Event::DropControl(p.0),
        )?;
    }
    Ok(())
}

/// Lists the events of all that the post has under way, the sub-batches before the controls. An `Err` is want of memory, and of the
/// list nothing is said then.
pub fn list_messages(
    alloc: Global,
    post: &Post<Control>,
    events: &mut Vec<Event>,
) -> Result<(), Memory>
    ensures { OnOk result (Adds events.old.items events.new.items (on_post post.now.messages)) }
{
    let subs = post.subs(alloc)?;
    list_subs(&subs, events)?;
    let controls = post.controls(alloc)?;
    list_controls(&controls, events)?;
    Ok(())
}

/// Lists the events of all that the post has under way, and nothing where it is not at hand. An `Err` is want of memory, and of
/// the list nothing is said then.
pub fn list_post(alloc: Global, hand: &Hand, events: &mut Vec<Event>) -> Result<(), Memory>
    ensures { OnOk result (Adds events.old.items events.new.items (of_some on_post hand.now.post)) }
{
    if !hand.has(POST) {
        return Ok(());
    }
    list_messages(alloc, hand.post(), events)
}
