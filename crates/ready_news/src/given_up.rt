//! Who is given up.
ghost use Rattle.std.specs.Prelude.{◌≡◌, slice_get, OnOk};
ghost use Rattle.book_part.specs.Halves.{Shows};
ghost use Rattle.protocol.specs.Parts.{Book};
ghost use Rattle.ready_listing.specs.Listed.{Adds};
ghost use Rattle.snap_hand.specs.Hands.{IsWhole};
ghost use Rattle.ready_news.specs.ByEvent.{of_all_gone, of_all_gone_if, of_gone};
ghost use Rattle.ready_news.specs.GivenUp.{may_have_acts};

use crate::at_hand::AtHand;
use core_events::Event;
use ready_listing::push_one;
use snap_base::{ActorId, Memory, Tid};

impl AtHand<'_> {
    /// What is listed of an ACT that is given up: its control may be dropped, it may leave its actors, and its reply is due.
    fn list_gone(&self, t: Tid, news: &mut Vec<Event>) -> Result<(), Memory>
        ensures { (b : Book) → Shows self.now.book.now b → OnOk result (Adds news.old.items news.new.items (of_gone b t.0)) }
    {
        push_one(news, Event::DropControl(t))?;
        self.list_leaving(t, news)?;
        self.list_tx(t, news)
    }

    /// What is listed of the live ACTs that are given up.
    pub(crate) fn list_all_gone(&self, news: &mut Vec<Event>) -> Result<(), Memory>
        ensures { (b : Book) → Shows self.now.book.now b → OnOk result (Adds news.old.items news.new.items (of_all_gone b)) }
    {
        let tids = self.book.given_up(self.alloc)?;
        for t in &tids {
            self.list_gone(*t, news)?;
        }
        Ok(())
    }

    /// Whether an ACT stands on an actor; also where there is no such actor.
    fn may_have_acts(&self, a: ActorId) -> bool
        requires { IsWhole self.now.hand.now }
        ensures { result ≡ may_have_acts (slice_get self.now.hand.now.cells a.0) }
    {
        match self.cell(a) {
            Some(cell) => cell.has_acts(),
            None => true,
        }
    }

    /// What is listed of the live ACTs that are given up, where one stands on the actor at which a batch has arrived; else nothing.
    pub(crate) fn list_gone_at(&self, a: ActorId, news: &mut Vec<Event>) -> Result<(), Memory>
        requires { IsWhole self.now.hand.now }
        ensures { (b : Book) → Shows self.now.book.now b → OnOk result (Adds news.old.items news.new.items (of_all_gone_if (may_have_acts (slice_get self.now.hand.now.cells a.0)) b)) }
    {
        if !self.may_have_acts(a) {
            return Ok(());
        }
        self.list_all_gone(news)
    }
}
