//! The replies that are due.
ghost use Rattle.std.specs.Prelude.{OnOk};
ghost use Rattle.book_part.specs.Halves.{Shows};
ghost use Rattle.protocol.specs.Parts.{Book};
ghost use Rattle.ready_listing.specs.Listed.{Adds};
ghost use Rattle.ready_news.specs.InAnswers.{of_later, of_over, of_tx, of_txs};

use crate::at_hand::AtHand;
use core_events::Event;
use ready_listing::{list_unreplied, push_one};
use snap_base::{Bid, Memory, Tid};

impl AtHand<'_> {
    /// The reply of an ACT's transaction.
    pub(crate) fn list_tx(&self, t: Tid, news: &mut Vec<Event>) -> Result<(), Memory>
        ensures { (b : Book) → Shows self.now.book.now b → OnOk result (Adds news.old.items news.new.items (of_tx b t.0)) }
    {
        match self.book.tx_of(t) {
            Some(n) => push_one(news, Event::Reply(n)),
            None => Ok(()),
        }
    }

    /// The reply of an ACT's transaction, where the ACT is given up or sealed.
    pub(crate) fn list_over(&self, t: Tid, news: &mut Vec<Event>) -> Result<(), Memory>
        ensures { (b : Book) → Shows self.now.book.now b → OnOk result (Adds news.old.items news.new.items (of_over b t.0)) }
    {
        if !self.book.may_leave(t) {
            return Ok(());
        }
        self.list_tx(t, news)
    }

    /// The replies of a batch's transactions.
    pub(crate) fn list_txs(&self, k: Bid, news: &mut Vec<Event>) -> Result<(), Memory>
        ensures { OnOk result (Adds news.old.items news.new.items (of_txs self.now.desk.now k.0)) }
    {
        let txs = self.desk.txs_of(self.alloc, k)?;
        list_unreplied(&txs, news)?;
        Ok(())
    }

    /// The replies of the batches from this one on.
    pub(crate) fn list_later(&self, first: Bid, news: &mut Vec<Event>) -> Result<(), Memory>
        ensures { OnOk result (Adds news.old.items news.new.items (of_later first.0 self.now.ring.now.next_bid self.now.desk.now)) }
    {
        let next = self.ring.next_bid();
        for k in first.0..next.0 {
            self.list_txs(Bid(k), news)?;
        }
        Ok(())
    }
}
