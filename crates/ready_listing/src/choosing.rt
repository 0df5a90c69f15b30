//! Which of some events may be taken.
ghost use Rattle.std.specs.Prelude.{◌≡◌, ℕ, ◌+◌, ◌≤◌, true, map, IfOk};
ghost use Rattle.core_events.specs.Meant.{event_meant};
ghost use Rattle.ready_list.specs.Order.{kind_of, spare_of};
ghost use Rattle.ready_listing.specs.Chosen.{AreChosen, IsDue, IsLooked, IsOffered, is_asked};
ghost use Rattle.snap_hand.specs.Hands.{IsHandOf};
ghost use Rattle.snap_hand.specs.Steps.{OnSomeRun};
ghost use Rattle.snap_hand.specs.Tables.{AreTables, fixed_of};

use aml_slice::Control;
use core_events::{Event, footprint};
use protocol_laws::allowed_or_refused;
use protocol_ready::{events_stay_in_order, one_is_put};
use ready_list::ReadyList;
use snap_base::Memory;
use snap_hand::{Hand, Tables, refusal};
use std::alloc::Global;

/// Whether all parts of the event's footprint are at hand.
fn has_footprint(tables: &Tables, hand: &Hand, e: Event) -> bool
    requires { AreTables tables.now }
    ensures { result ≡ is_asked (fixed_of tables.now) hand.now (event_meant e) }
{
    let parts = footprint(e, tables.work.logs);
    for i in 0..parts.len() {
        if !hand.has(parts.part(i)) {
            return false;
        }
    }
    true
}

/// Whether the event may be taken.
fn may_take(tables: &Tables, hand: &Hand, e: Event) -> bool
    requires tables { AreTables tables.now }
    requires places { IsHandOf (fixed_of tables.now) hand.now }
    requires some { OnSomeRun (fixed_of tables.now) hand.now }
    ensures offered { result ≡ true → IsOffered (fixed_of tables.now) hand.now (event_meant e) }
    ensures due { IsDue (fixed_of tables.now) hand.now (event_meant e) → result ≡ true }
{
    allowed_or_refused::<Control>();
    if !has_footprint(tables, hand, e) {
        return false;
    }
    refusal(tables, hand, e) == 0
}

/// Looks at an event, and puts it in where it may be taken.
fn look(tables: &Tables, hand: &Hand, e: Event, list: &mut ReadyList)
    requires tables { AreTables tables.now }
    requires places { IsHandOf (fixed_of tables.now) hand.now }
    requires some { OnSomeRun (fixed_of tables.now) hand.now }
    requires room { 1 ≤ spare_of list.old (kind_of (event_meant e)) }
    ensures looked { IsLooked (fixed_of tables.now) hand.now (event_meant e) list.old.events list.new.events }
    ensures room { (k : ℕ) → spare_of list.old k ≤ spare_of list.new k + 1 }
{
    events_stay_in_order();
    one_is_put();
    if may_take(tables, hand, e) {
        list.put(e);
    }
}

/// Those of the events that may be taken, in order.
pub(crate) fn chosen(
    alloc: Global,
    tables: &Tables,
    hand: &Hand,
    events: &[Event],
) -> Result<ReadyList, Memory>
    requires tables { AreTables tables.now }
    requires places { IsHandOf (fixed_of tables.now) hand.now }
    requires some { OnSomeRun (fixed_of tables.now) hand.now }
    ensures { IfOk result (λ l. AreChosen (fixed_of tables.now) hand.now (map event_meant events.now) l.events) }
{
    let mut list = ReadyList::new(alloc);
    list.room(events)?;
    for e in events {
        look(tables, hand, *e, &mut list);
    }
    Ok(list)
}
