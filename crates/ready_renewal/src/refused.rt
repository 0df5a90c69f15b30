//! Which of the kept events an event has refused.
ghost use Rattle.std.specs.Prelude.{◌≡◌, ◌++◌, false, map, true, IfOk, OnOk};
ghost use Rattle.core_events.specs.Meant.{event_meant};
ghost use Rattle.protocol_ready.specs.Refusing.{may_refuse};
ghost use Rattle.ready_renewal.specs.Asked.{AreAsked, AreRefused, IsAsked, of_kind, of_kinds};
ghost use Rattle.snap_hand.specs.Hands.{IsHandOf, IsWhole};
ghost use Rattle.snap_hand.specs.Steps.{OnSomeRun};
ghost use Rattle.snap_hand.specs.Tables.{AreTables, fixed_of};

use crate::asking::is_allowed;
use core_events::Event;
use ready_list::{Reach, ReadyList};
use snap_base::Memory;
use snap_hand::{Hand, Tables};
use std::alloc::Global;

/// Whether the event that was just taken can't refuse this one. Where it is sure of all that are gone over, that is not looked at.
fn is_out_of_reach(reach: &Reach, sure: bool, f: Event) -> bool
    ensures { result ≡ true → may_refuse (event_meant reach.now.event) (event_meant f) ≡ false }
{
    !sure && !reach.may_refuse(f)
}

/// Asks for an event again, where it may be refused, and adds it where it is. The event that was just taken is not asked for.
fn ask_again(
    tables: &Tables,
    hand: &Hand,
    reach: &Reach,
    sure: bool,
    f: Event,
    gone: &mut Vec<Event>,
) -> Result<(), Memory>
    requires tables { AreTables tables.now }
    requires places { IsHandOf (fixed_of tables.now) hand.now }
    requires whole { IsWhole hand.now }
    requires some { OnSomeRun (fixed_of tables.now) hand.now }
    ensures { OnOk result (IsAsked (fixed_of tables.now) hand.now (event_meant reach.now.event) (event_meant f) (map event_meant gone.old.items) (map event_meant gone.new.items)) }
{
    if is_out_of_reach(reach, sure, f) {
        return Ok(());
    }
    if reach.is_of(f) {
        return Ok(());
    }
    if is_allowed(tables, hand, f) {
        return Ok(());
    }
    gone.push(f)?;
    Ok(())
}

/// Asks again for these.
fn ask_these(
    tables: &Tables,
    hand: &Hand,
    reach: &Reach,
    sure: bool,
    events: &[Event],
    gone: &mut Vec<Event>,
) -> Result<(), Memory>
    requires tables { AreTables tables.now }
    requires places { IsHandOf (fixed_of tables.now) hand.now }
    requires whole { IsWhole hand.now }
    requires some { OnSomeRun (fixed_of tables.now) hand.now }
    ensures { OnOk result (AreAsked (fixed_of tables.now) hand.now (event_meant reach.now.event) (map event_meant events.now) (map event_meant gone.old.items) (map event_meant gone.new.items)) }
{
    for f in events {
        ask_again(tables, hand, reach, sure, *f, gone)?;
    }
    Ok(())
}

/// Asks again for these. Mostly there are none, and then it costs no call.
#[inline(always)]
fn ask_each(
    tables: &Tables,
    hand: &Hand,
    reach: &Reach,
    sure: bool,
    events: &[Event],
    gone: &mut Vec<Event>,
) -> Result<(), Memory>
    requires tables { AreTables tables.now }
    requires places { IsHandOf (fixed_of tables.now) hand.now }
    requires whole { IsWhole hand.now }
    requires some { OnSomeRun (fixed_of tables.now) hand.now }
    ensures { OnOk result (AreAsked (fixed_of tables.now) hand.now (event_meant reach.now.event) (map event_meant events.now) (map event_meant gone.old.items) (map event_meant gone.new.items)) }
{
    if events.is_empty() {
        return Ok(());
    }
    ask_these(tables, hand, reach, sure, events, gone)
}

// Those of this kind, or of these those with this first number, in order, in two pieces.
fn pieces(list: &ReadyList, kind: u8, number: Option<u64>) -> (&[Event], &[Event])
    ensures { map event_meant (result.0.now ++ result.1.now) ≡ of_kind kind number list.now.events }
{
    match number {
        None => list.of_kind(kind),
        Some(number) => list.of_number(kind, number),
    }
}

/// Asks again for the kept events of a kind, or for those of these with this first number.
fn ask_kind(
    tables: &Tables,
    hand: &Hand,
    reach: &Reach,
    list: &ReadyList,
    sure: bool,
    kind: u8,
    number: Option<u64>,
    gone: &mut Vec<Event>,
) -> Result<(), Memory>
    requires tables { AreTables tables.now }
    requires places { IsHandOf (fixed_of tables.now) hand.now }
    requires whole { IsWhole hand.now }
    requires some { OnSomeRun (fixed_of tables.now) hand.now }
    ensures { OnOk result (AreAsked (fixed_of tables.now) hand.now (event_meant reach.now.event) (of_kind kind number list.now.events) (map event_meant gone.old.items) (map event_meant gone.new.items)) }
{
    let (head, tail) = pieces(list, kind, number);
    ask_each(tables, hand, reach, sure, head, gone)?;
    ask_each(tables, hand, reach, sure, tail, gone)?;
    Ok(())
}

/// Asks again for the kept events of these kinds, or for those of these with this first number.
fn ask_kinds(
    tables: &Tables,
    hand: &Hand,
    reach: &Reach,
    list: &ReadyList,
    sure: bool,
    kinds: &[u8],
    number: Option<u64>,
    gone: &mut Vec<Event>,
) -> Result<(), Memory>
    requires tables { AreTables tables.now }
    requires places { IsHandOf (fixed_of tables.now) hand.now }
    requires whole { IsWhole hand.now }
    requires some { OnSomeRun (fixed_of tables.now) hand.now }
    ensures { OnOk result (AreAsked (fixed_of tables.now) hand.now (event_meant reach.now.event) (of_kinds kinds.now number list.now.events) (map event_meant gone.old.items) (map event_meant gone.new.items)) }
{
    for kind in kinds {
        ask_kind(tables, hand, reach, list, sure, *kind, number, gone)?;
    }
    Ok(())
}

/// Those of the kept events that the event has refused. Only the kinds are gone over of which the event may refuse
/// any, and of most of these only what has its number.
pub(crate) fn refused(
    alloc: Global,
    tables: &Tables,
    hand: &Hand,
    e: Event,
    list: &ReadyList,
) -> Result<Vec<Event>, Memory>
    requires tables { AreTables tables.now }
    requires places { IsHandOf (fixed_of tables.now) hand.now }
    requires whole { IsWhole hand.now }
    requires some { OnSomeRun (fixed_of tables.now) hand.now }
    ensures { IfOk result (λ v. AreRefused (fixed_of tables.now) hand.now (event_meant e) list.now.events (map event_meant v.items)) }
{
    let reach = Reach::of(e);
    let mut gone = Vec::new(alloc);
    ask_kinds(
        tables,
        hand,
        &reach,
        list,
        true,
        reach.wholly,
        None,
        &mut gone,
    )?;
    ask_kinds(
        tables,
        hand,
        &reach,
        list,
        false,
        reach.on_actor,
        None,
        &mut gone,
    )?;
    let number = Some(reach.number);
    ask_kinds(
        tables,
        hand,
        &reach,
        list,
        true,
        reach.numbered,
        number,
        &mut gone,
    )?;
    Ok(gone)
}
