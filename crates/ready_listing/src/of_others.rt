//! What the ring has next, the logs, and what waits for a reply.
ghost use Rattle.std.specs.Prelude.{◌≡◌, ◌+◌, ◌%◌, map, OnOk};
ghost use Rattle.std.specs.List.{flat_map};
ghost use Rattle.ready_listing.specs.Listed.{Adds, of_log, of_reply, of_some, on_replies, on_ring, upto_of};
ghost use Rattle.protocol.specs.Words.{below};
ghost use Rattle.snap_hand.specs.Tables.{AreTables, text_of};

use crate::pushing::{push_one, push_two};
use core_events::{DESK, Event, RING};
use snap_base::{Memory, TxNo};
use snap_hand::{Hand, Ring, Tables};
use std::alloc::Global;

/// Who has the token after this one.
pub fn next_holder(tables: &Tables, holder: u8) -> u8
    requires { AreTables tables.now }
    ensures { result ≡ (holder + 1) % (text_of tables.now).coordinators }
{
    let coordinators = tables.work.coordinators as u16;
    ((holder as u16 + 1) % coordinators) as u8
}

/// Lists what the ring has next: Submit of the next transaction, Pass of the token to the next coordinator, Form of the next batch,
/// Admit of the next ACT. An `Err` is want of memory, and of the list nothing is said then.
pub fn list_next(tables: &Tables, ring: &Ring, events: &mut Vec<Event>) -> Result<(), Memory>
    requires { AreTables tables.now }
    ensures { OnOk result (Adds events.old.items events.new.items (on_ring (text_of tables.now).coordinators ring.now)) }
{
    let next = next_holder(tables, ring.holder());
    push_two(events, Event::Submit(ring.next_tx()), Event::Pass(next))?;
    push_two(
        events,
        Event::Form(ring.next_bid()),
        Event::Admit(ring.next_tid()),
    )?;
    Ok(())
}

/// Lists the four events that the ring has next, and nothing where it is not at hand. An `Err` is want of memory, and of the list
/// nothing is said then.
pub fn list_ring(tables: &Tables, hand: &Hand, events: &mut Vec<Event>) -> Result<(), Memory>
    requires { AreTables tables.now }
    ensures { OnOk result (Adds events.old.items events.new.items (of_some (on_ring (text_of tables.now).coordinators) hand.now.ring)) }
{
    if !hand.has(RING) {
        return Ok(());
    }
    list_next(tables, hand.ring(), events)
}

/// Lists a Sync of each log of the text, by their numbers. An `Err` is want of memory, and of the list nothing is said then.
pub(crate) fn list_logs(tables: &Tables, events: &mut Vec<Event>) -> Result<(), Memory>
    ensures { OnOk result (Adds events.old.items events.new.items (flat_map of_log (below (text_of tables.now).logs))) }
{
    let count = tables.work.logs;
    for l in 0..count {
        push_one(events, Event::Sync(l))?;
    }
    Ok(())
}

/// A number below which all transactions are that were submitted: of the ring, where it is at hand, that of the next.
fn upto(tables: &Tables, hand: &Hand) -> TxNo
    requires { AreTables tables.now }
    ensures { result.0 ≡ upto_of (text_of tables.now) hand.now.ring }
{
    if !hand.has(RING) {
        return TxNo(tables.work.txs.len() as u32);
    }
    hand.ring().next_tx()
}

/// Lists a Reply of each of these transactions. An `Err` is want of memory, and of the list nothing is said then.
pub fn list_unreplied(txs: &[TxNo], events: &mut Vec<Event>) -> Result<(), Memory>
    ensures { OnOk result (Adds events.old.items events.new.items (flat_map of_reply (map (λ n. n.0) txs.now))) }
{
    for n in txs {
        push_one(events, Event::Reply(*n))?;
    }
    Ok(())
}

/// Lists a Reply of each transaction that has none yet, of those submitted where the ring is at hand, else of all of the text; and
/// nothing where the desk is not at hand. An `Err` is want of memory, and of the list nothing is said then.
pub(crate) fn list_replies(
    alloc: Global,
    tables: &Tables,
    hand: &Hand,
    events: &mut Vec<Event>,
) -> Result<(), Memory>
    requires { AreTables tables.now }
    ensures { OnOk result (Adds events.old.items events.new.items (of_some (on_replies (upto_of (text_of tables.now) hand.now.ring)) hand.now.desk)) }
{
    if !hand.has(DESK) {
        return Ok(());
    }
    let txs = hand.desk().unreplied(alloc, upto(tables, hand))?;
    list_unreplied(&txs, events)?;
    Ok(())
}
