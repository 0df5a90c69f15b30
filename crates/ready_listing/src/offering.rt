//! All that the parts at hand list, and what is allowed of it.
ghost use Rattle.std.specs.Prelude.{◌≡◌, Some, map, IfOk};
ghost use Rattle.listing_facts.specs.book_part.Halves.{Halves, Shows};
ghost use Rattle.core_events.specs.Meant.{event_meant};
ghost use Rattle.ready_listing.specs.Listed.{on_hand};
ghost use Rattle.ready_listing.specs.Offers.{AreOffers};
ghost use Rattle.protocol.specs.Parts.{Book};
ghost use Rattle.snap_hand.specs.Hands.{IsHandOf};
ghost use Rattle.snap_hand.specs.Steps.{OnSomeRun};
ghost use Rattle.snap_hand.specs.Tables.{AreTables, fixed_of, text_of};

use crate::choosing::chosen;
use crate::of_acts::list_book;
use crate::of_batches::list_desk;
use crate::of_cells::list_cells;
use crate::of_others::{list_logs, list_replies, list_ring};
use crate::of_post::list_post;
use aml_slice::Control;
use core_events::Event;
use listing_facts::{parts_list_all, run_parts_list_all};
use protocol_laws::allowed_or_refused;
use protocol_ready::parts_tell_all;
use protocol_theorems::sizes_hold;
use ready_list::ReadyList;
use snap_base::Memory;
use snap_hand::{Hand, Tables};
use std::alloc::Global;

/// All that the parts at hand list.
fn listed(alloc: Global, tables: &Tables, hand: &Hand) -> Result<Vec<Event>, Memory>
    requires tables { AreTables tables.now }
    requires places { IsHandOf (fixed_of tables.now) hand.now }
    ensures { IfOk result (λ v. (b : Book) → ((x : Halves) → hand.now.book ≡ Some x → Shows x b) → map event_meant v.items ≡ on_hand (text_of tables.now) hand.now b) }
{
    let mut events = Vec::new(alloc);
    list_ring(tables, hand, &mut events)?;
    list_post(alloc, hand, &mut events)?;
    list_cells(alloc, tables, hand, &mut events)?;
    list_logs(tables, &mut events)?;
    list_desk(alloc, hand, &mut events)?;
    list_book(alloc, hand, &mut events)?;
    list_replies(alloc, tables, hand, &mut events)?;
    Ok(events)
}

/// The allowed events whose footprint is at hand, in the order in which a host takes them. With all parts at hand these are all
/// allowed events. The hand must show a state that some run has come to. It walks through what is live on the parts at hand, and
/// the transactions from the first one without a reply on. An `Err` is want of memory, and then there is no list.
pub fn offers(alloc: Global, tables: &Tables, hand: &Hand) -> Result<ReadyList, Memory>
    requires tables { AreTables tables.now }
    requires places { IsHandOf (fixed_of tables.now) hand.now }
    requires some { OnSomeRun (fixed_of tables.now) hand.now }
    ensures { IfOk result (λ l. AreOffers (fixed_of tables.now) hand.now l.events) }
{
    allowed_or_refused::<Control>();
    sizes_hold::<Control>();
    parts_list_all::<Control>();
    run_parts_list_all::<Control>();
    parts_tell_all::<Control>();
    let events = listed(alloc, tables, hand)?;
    let list = chosen(alloc, tables, hand, &events)?;
    Ok(list)
}
