//! What is taken out of the kept events, and put in.
ghost use Rattle.std.specs.Prelude.{ℕ, ◌+◌, ◌≤◌, map, length, Contains};
ghost use Rattle.core_events.specs.Meant.{event_meant};
ghost use Rattle.protocol.specs.Events as machine;
ghost use Rattle.ready_list.specs.Order.{kind_of, spare_of};
ghost use Rattle.ready_renewal.specs.Asked.{IsPutIn, IsWith, IsWithAll, IsWithout};
ghost use Rattle.snap_hand.specs.Hands.{IsHandOf, IsWhole};
ghost use Rattle.snap_hand.specs.Steps.{OnSomeRun};
ghost use Rattle.snap_hand.specs.Tables.{AreTables, fixed_of};

use crate::asking::is_allowed;
use core_events::Event;
use protocol_ready::{events_stay_in_order, one_is_put, one_is_taken};
use ready_list::ReadyList;
use snap_hand::{Hand, Tables};

/// Takes these out.
pub(crate) fn take_out(list: &mut ReadyList, gone: &[Event])
    ensures without { IsWithout (map event_meant gone.now) list.old.events list.new.events }
    ensures no_less { (k : ℕ) → spare_of list.old k ≤ spare_of list.new k }
{
    events_stay_in_order();
    one_is_taken();
    for e in gone {
        list.take(*e);
    }
}

/// Looks at an event, and puts it in where it is allowed.
fn look(tables: &Tables, hand: &Hand, e: Event, list: &mut ReadyList)
    requires tables { AreTables tables.now }
    requires places { IsHandOf (fixed_of tables.now) hand.now }
    requires whole { IsWhole hand.now }
    requires some { OnSomeRun (fixed_of tables.now) hand.now }
    requires room { 1 ≤ spare_of list.old (kind_of (event_meant e)) }
    ensures looked { IsPutIn (fixed_of tables.now) hand.now (event_meant e) list.old.events list.new.events }
    ensures room { (k : ℕ) → spare_of list.old k ≤ spare_of list.new k + 1 }
{
    events_stay_in_order();
    one_is_put();
    if is_allowed(tables, hand, e) {
        list.put(e);
    }
}

/// Puts those in that are allowed.
pub(crate) fn put_in(tables: &Tables, hand: &Hand, news: &[Event], list: &mut ReadyList)
    requires tables { AreTables tables.now }
    requires places { IsHandOf (fixed_of tables.now) hand.now }
    requires whole { IsWhole hand.now }
    requires some { OnSomeRun (fixed_of tables.now) hand.now }
    requires room { (f : machine.Event) → Contains (map event_meant news.now) f → length news.now ≤ spare_of list.old (kind_of f) }
    ensures { IsWith (fixed_of tables.now) hand.now (map event_meant news.now) list.old.events list.new.events }
{
    for e in news {
        look(tables, hand, *e, list);
    }
}

/// Puts all of these in, and asks of none whether it is allowed.
pub(crate) fn put_all(news: &[Event], list: &mut ReadyList)
    requires { (f : machine.Event) → Contains (map event_meant news.now) f → length news.now ≤ spare_of list.old (kind_of f) }
    ensures { IsWithAll (map event_meant news.now) list.old.events list.new.events }
{
    events_stay_in_order();
    one_is_put();
    for e in news {
        list.put(*e);
    }
}
