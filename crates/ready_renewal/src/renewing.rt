//! Lists of allowed events, renewed or advanced after an event.
ghost use Rattle.std.specs.Prelude.{◌≡◌, map, OnErr, OnOk};
ghost use Rattle.aml_slice.specs.Controls.{Rest};
ghost use Rattle.core_events.specs.Meant.{event_meant};
ghost use Rattle.protocol.specs.Effects.{after};
ghost use Rattle.protocol.specs.Parts.{Machine};
ghost use Rattle.protocol.specs.Schedule.{IsEnabled};
ghost use Rattle.ready_renewal.specs.Covering.{Covers};
ghost use Rattle.snap_hand.specs.Hands.{IsHandOf, IsWhole};
ghost use Rattle.snap_hand.specs.Steps.{OnSomeRun};
ghost use Rattle.snap_hand.specs.Tables.{AreTables, fixed_of};
ghost use Rattle.ready_news.specs.New.{IsBehind, IsForeseen};

use crate::refused::refused;
use crate::revising::{put_all, put_in, take_out};
use aml_slice::Control;
use core_events::Event;
use protocol_laws::allowed_or_refused;
use protocol_ready::{
    events_stay_in_order, no_event_is_allowed_again, one_is_taken, parts_tell_all,
    renewed_are_enabled, states_are_sound, untouched_stay,
};
use ready_list::ReadyList;
use ready_news::touched;
use snap_base::Memory;
use snap_hand::{Hand, Tables, runs_go_on};
use std::alloc::Global;

/// Makes of all allowed events before the event, which was just taken, all allowed events after it: the event is taken out, since it
/// is not allowed right behind itself, what it has refused is, and what it has made allowed is put in. All parts are at hand, as
/// they are after it. For want of memory the list is as it was. What `foreseen` put into `news` ahead of the event is handed in;
/// nothing is said of what `news` has then.
pub fn renew(
    alloc: Global,
    tables: &Tables,
    hand: &Hand,
    e: Event,
    list: &mut ReadyList,
    news: &mut Vec<Event>,
) -> Result<(), Memory>
    requires tables { AreTables tables.now }
    requires places { IsHandOf (fixed_of tables.now) hand.now }
    requires whole { IsWhole hand.now }
    requires some { OnSomeRun (fixed_of tables.now) hand.now }
    ensures renewed { OnOk result ((s : Machine Rest) → IsBehind (fixed_of tables.now) (event_meant e) s hand.now → IsForeseen (fixed_of tables.now) (event_meant e) s (map event_meant news.old.items) → IsEnabled (fixed_of tables.now) s list.old.events → IsEnabled (fixed_of tables.now) (after (fixed_of tables.now) (event_meant e) s) list.new.events) }
    ensures unchanged { OnErr result (list.new.events ≡ list.old.events) }
{
    runs_go_on::<Control>();
    allowed_or_refused::<Control>();
    parts_tell_all::<Control>();
    renewed_are_enabled::<Control>();
    no_event_is_allowed_again::<Control>();
    events_stay_in_order();
    one_is_taken();
    touched(alloc, tables, hand, e, news)?;
    let gone = refused(alloc, tables, hand, e, list)?;
    let listed = news.as_slice();
    list.room(listed)?;
    list.take(e);
    take_out(list, &gone);
    put_in(tables, hand, listed, list);
    Ok(())
}

/// Makes of events among which all were that were allowed before the event, which was just taken, events among which all are that
/// are allowed after it: the event is taken out, since it is not allowed right behind itself, and what it may have made allowed is
/// put in, with no event asked. All parts are at hand, as they are after it. For want of memory the list is as it was. What
/// `foreseen` put into `news` ahead of the event is handed in; nothing is said of what `news` has then.
pub fn advance(
    alloc: Global,
    tables: &Tables,
    hand: &Hand,
    e: Event,
    list: &mut ReadyList,
    news: &mut Vec<Event>,
) -> Result<(), Memory>
    requires tables { AreTables tables.now }
    requires places { IsHandOf (fixed_of tables.now) hand.now }
    requires whole { IsWhole hand.now }
    ensures advanced { OnOk result ((s : Machine Rest) → IsBehind (fixed_of tables.now) (event_meant e) s hand.now → IsForeseen (fixed_of tables.now) (event_meant e) s (map event_meant news.old.items) → Covers (fixed_of tables.now) s list.old.events → Covers (fixed_of tables.now) (after (fixed_of tables.now) (event_meant e) s) list.new.events) }
    ensures unchanged { OnErr result (list.new.events ≡ list.old.events) }
{
    allowed_or_refused::<Control>();
    parts_tell_all::<Control>();
    untouched_stay::<Control>();
    states_are_sound::<Control>();
    no_event_is_allowed_again::<Control>();
    events_stay_in_order();
    one_is_taken();
    touched(alloc, tables, hand, e, news)?;
    let listed = news.as_slice();
    list.room(listed)?;
    list.take(e);
    put_all(listed, list);
    Ok(())
}
