//! What ACTs wait for.
ghost use Rattle.std.specs.Prelude.{◌≡◌, ◌&&◌, OnOk};
ghost use Rattle.std.specs.List.{flat_map};
ghost use Rattle.book_part.specs.Halves.{Shows};
ghost use Rattle.book_part.specs.Listed.{live_tids};
ghost use Rattle.protocol.specs.Conditions.{awaits_decision, failed_or_vouched};
ghost use Rattle.protocol.specs.Parts.{Book};
ghost use Rattle.ready_listing.specs.Listed.{Adds};
ghost use Rattle.ready_news.specs.InBook.{deciding_of, leaving_of, preparing_of};

use crate::at_hand::{AtHand, push_if};
use core_events::Event;
use snap_base::{Memory, Tid};

impl AtHand<'_> {
    /// Whether the ACT ended, and failed or is vouched for on all its actors.
    fn may_decide(&self, t: Tid) -> bool
        ensures { (b : Book) → Shows self.now.book.now b → result ≡ (awaits_decision t.0 b.acts && failed_or_vouched t.0 b.acts) }
    {
        self.book.is_to_decide(t) && self.book.is_ready(t)
    }

    /// The ACT's decision, where it may be.
    pub(crate) fn list_deciding(&self, t: Tid, news: &mut Vec<Event>) -> Result<(), Memory>
        ensures { (b : Book) → Shows self.now.book.now b → OnOk result (Adds news.old.items news.new.items (deciding_of b t.0)) }
    {
        push_if(self.may_decide(t), Event::Decide(t), news)
    }

    /// The actors that are not prepared, where the ACT gives a value.
    pub(crate) fn list_preparing(&self, t: Tid, news: &mut Vec<Event>) -> Result<(), Memory>
        ensures { (b : Book) → Shows self.now.book.now b → OnOk result (Adds news.old.items news.new.items (preparing_of b t.0)) }
    {
        if !self.book.has_value(t) {
            return Ok(());
        }
        let actors = self.book.actors_of(self.alloc, t)?;
        for a in &actors {
            push_if(self.book.is_unprepared(t, *a), Event::Prepare(t, *a), news)?;
        }
        Ok(())
    }

    /// The actors that the ACT has not left, where it may.
    pub(crate) fn list_leaving(&self, t: Tid, news: &mut Vec<Event>) -> Result<(), Memory>
        ensures { (b : Book) → Shows self.now.book.now b → OnOk result (Adds news.old.items news.new.items (leaving_of b t.0)) }
    {
        if !self.book.may_leave(t) {
            return Ok(());
        }
        let actors = self.book.actors_of(self.alloc, t)?;
        for a in &actors {
            push_if(self.book.stands_on(t, *a), Event::Finish(t, *a), news)?;
        }
        Ok(())
    }

    /// The decisions of the live ACTs.
    pub(crate) fn list_decisions(&self, news: &mut Vec<Event>) -> Result<(), Memory>
        ensures { (b : Book) → Shows self.now.book.now b → OnOk result (Adds news.old.items news.new.items (flat_map (deciding_of b) (live_tids b))) }
    {
        let tids = self.book.going(self.alloc)?;
        for t in &tids {
            self.list_deciding(*t, news)?;
        }
        Ok(())
    }
}
