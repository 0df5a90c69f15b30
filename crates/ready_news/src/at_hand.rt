//! The parts at hand, and events put behind others.
ghost use Rattle.std.specs.Prelude.{◌≡◌, Some, slice_get, OnOk};
ghost use Rattle.std.specs.Option.{option_map};
ghost use Rattle.core_events.specs.Meant.{event_meant};
ghost use Rattle.ready_listing.specs.Listed.{Adds};
ghost use Rattle.snap_hand.specs.Hands.{IsWhole};
ghost use Rattle.ready_news.specs.InBook.{only};

use aml_slice::Control;
use book_part::BookPart;
use core_events::Event;
use listing_facts::{Desk, Post};
use ready_listing::push_one;
use snap_base::{ActorId, Bid, Memory};
use snap_hand::{CellPart, Hand, Ring, Tables};
use std::alloc::Global;

/// All parts, as they are after an event.
#[derive(Drop)]
pub(crate) struct AtHand<'a> {
    pub alloc: Global,
    pub tables: &'a Tables,
    pub hand: &'a Hand,
    pub ring: &'a Ring,
    pub book: &'a BookPart,
    pub post: &'a Post<Control>,
    pub desk: &'a Desk,
    /// The batch that is the next to commit or to be aborted.
    pub next: Option<Bid>,
}

impl<'a> AtHand<'a> {
    /// The cell of an actor, where there is such an actor.
    pub(crate) fn cell(&self, a: ActorId) -> Option<&'a CellPart<Control>>
        requires { IsWhole self.now.hand.now }
        ensures { option_map (λ c. Some c.now.cell) result ≡ slice_get self.now.hand.now.cells a.0 }
    {
        if !self.hand.has_actor(a) {
            return None;
        }
        Some(self.hand.cell(a))
    }
}

/// Puts the event behind the others, where this is so.
pub(crate) fn push_if(due: bool, e: Event, news: &mut Vec<Event>) -> Result<(), Memory>
    ensures { OnOk result (Adds news.old.items news.new.items (only due (event_meant e))) }
{
    if due {
        push_one(news, e)?;
    }
    Ok(())
}
