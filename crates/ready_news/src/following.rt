//! What comes after each event, look by look, by the parts at hand.
ghost use Rattle.std.specs.Prelude.{OnOk};
ghost use Rattle.std.specs.List.{flat_map};
ghost use Rattle.book_part.specs.Halves.{Shows};
ghost use Rattle.core_events.specs.Meant.{event_meant};
ghost use Rattle.protocol.specs.Parts.{Book};
ghost use Rattle.ready_listing.specs.Listed.{Adds};
ghost use Rattle.snap_hand.specs.Hands.{IsHandOf, IsWhole};
ghost use Rattle.snap_hand.specs.Tables.{AreTables, fixed_of, text_of};
ghost use Rattle.ready_news.specs.ByEvent.{aborted_lists, listed, of_look};

use crate::at_hand::AtHand;
use crate::looks::{Look, Names, looks_of, names_of};
use core_events::Event;
use ready_listing::{list_cells, list_going, list_messages, list_next, push_one};
use snap_base::{Bid, Memory};

impl AtHand<'_> {
    /// A batch was aborted: all that waits is looked at, and of replies what the cascade took along.
    fn list_aborted(&self, k: Bid, news: &mut Vec<Event>) -> Result<(), Memory>
        requires tables { AreTables self.now.tables.now }
        requires places { IsHandOf (fixed_of self.now.tables.now) self.now.hand.now }
        ensures { (b : Book) → Shows self.now.book.now b → OnOk result (Adds news.old.items news.new.items (flat_map (λ xs. xs) (aborted_lists (text_of self.now.tables.now) self.now.hand.now self.now.ring.now b self.now.post.now.messages self.now.desk.now k.0))) }
    {
        list_next(self.tables, self.ring, news)?;
        list_cells(self.alloc, self.tables, self.hand, news)?;
        list_messages(self.alloc, self.post, news)?;
        list_going(self.alloc, self.desk, news)?;
        self.list_later(k, news)?;
        self.list_all_gone(news)
    }

    /// Lists what may be allowed at a look, which is about these names.
    #[inline(always)]
    fn list_look(&self, names: &Names, look: Look, news: &mut Vec<Event>) -> Result<(), Memory>
        requires tables { AreTables self.now.tables.now }
        requires places { IsHandOf (fixed_of self.now.tables.now) self.now.hand.now }
        requires whole { IsWhole self.now.hand.now }
        ensures { (b : Book) → Shows self.now.book.now b → OnOk result (Adds news.old.items news.new.items (of_look (text_of self.now.tables.now) self.now.hand.now self.now.next self.now.ring.now b self.now.post.now.messages self.now.desk.now names.now look)) }
    {
        match look {
            Look::Submitted => self.list_submitted(names.tx, news),
            Look::Token => self.list_pass(news),
            Look::NextBatch => self.list_form_any(news),
            Look::NextAct => self.list_admit_any(news),
            Look::BatchLog => self.list_added(names.batch.0, news),
            Look::ActLog => self.list_added(names.tid.0, news),
            Look::ActorLog => self.list_added(names.actor.0 as u64, news),
            Look::Formed => self.list_formed(names.batch, news),
            Look::Control => self.list_on_control(names.tid, news),
            Look::Again => self.list_again(names.tid, names.actor, news),
            Look::Arrivals => self.list_arrivals(names.actor, news),
            Look::Comings => self.list_comings(names.actor, news),
            Look::Follower => self.list_after(names.batch, names.actor, news),
            Look::LetIn => self.list_takes(names.batch, names.actor, news),
            Look::Arrived => self.list_woken(names.actor, news),
            Look::Late => self.list_late(names.batch, names.actor, news),
            Look::Placed => push_one(news, Event::Run(names.tid, names.actor)),
            Look::Left => self.list_left(names.tid, names.actor, news),
            Look::Woken => self.list_woken(names.actor, news),
            Look::Trimmed => self.list_woken(names.actor, news),
            Look::Back => self.list_here(names.actor, news),
            Look::Closes => self.list_closes(names.tid, news),
            Look::NextEnds => self.list_next_ends(news),
            Look::Noted => self.list_commit(names.batch, news),
            Look::Committed => push_one(news, Event::Settle(names.batch)),
            Look::Trims => self.list_trims(names.batch, news),
            Look::Answers => self.list_txs(names.batch, news),
            Look::Aborted => self.list_aborted(names.batch, news),
            Look::Preparing => self.list_preparing(names.tid, news),
            Look::Deciding => self.list_deciding(names.tid, news),
            Look::Decisions => self.list_decisions(news),
            Look::Leaving => self.list_leaving(names.tid, news),
            Look::Over => self.list_over(names.tid, news),
            Look::Fallen => self.list_gone_at(names.actor, news),
            Look::GivenUp => self.list_all_gone(news),
        }
    }

    /// Lists what the event may have made allowed, look by look.
    pub(crate) fn list_by_event(&self, e: Event, news: &mut Vec<Event>) -> Result<(), Memory>
        requires tables { AreTables self.now.tables.now }
        requires places { IsHandOf (fixed_of self.now.tables.now) self.now.hand.now }
        requires whole { IsWhole self.now.hand.now }
        ensures { (b : Book) → Shows self.now.book.now b → OnOk result (Adds news.old.items news.new.items (listed (text_of self.now.tables.now) self.now.hand.now self.now.next self.now.ring.now b self.now.post.now.messages self.now.desk.now (event_meant e))) }
    {
        let names = names_of(e);
        for look in looks_of(e) {
            self.list_look(&names, *look, news)?;
        }
        Ok(())
    }
}
