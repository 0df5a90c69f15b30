//! What is under way.
ghost use Rattle.std.specs.Prelude.{◌≡◌, ◌&&◌, Some, slice_get, OnOk};
ghost use Rattle.std.specs.Option.{option_map};
ghost use Rattle.listing_facts.specs.post_box.Posting.{message_to};
ghost use Rattle.book_part.specs.Halves.{Shows};
ghost use Rattle.protocol.specs.Conditions.{is_not_doomed};
ghost use Rattle.protocol.specs.Events.{Ask};
ghost use Rattle.protocol.specs.Parts.{Book};
ghost use Rattle.protocol.specs.Words.{control_of};
ghost use Rattle.ready_listing.specs.Listed.{Adds};
ghost use Rattle.snap_hand.specs.Hands.{IsWhole};
ghost use Rattle.ready_news.specs.InBook.{only};
ghost use Rattle.ready_news.specs.InPost.{arrivals_to, comes_behind, comes_to, comings_to, followers, formed_listed, goes_to, is_dropped, is_new_in, is_placed_in, on_control, takes_by};

use crate::at_hand::{AtHand, push_if};
use core_events::Event;
use ready_listing::{push_one, push_two};
use snap_base::{ActorId, Bid, Memory, Tid};

impl AtHand<'_> {
    /// The sub-batches on their way to the actor.
    pub(crate) fn list_arrivals(&self, a: ActorId, news: &mut Vec<Event>) -> Result<(), Memory>
        ensures { OnOk result (Adds news.old.items news.new.items (arrivals_to a.0 self.now.post.now.messages)) }
    {
        let subs = self.post.subs_to(self.alloc, a)?;
        for p in &subs {
            push_one(news, Event::Arrive(p.0, p.1))?;
        }
        Ok(())
    }

    /// The controls on their way to the actor.
    pub(crate) fn list_comings(&self, a: ActorId, news: &mut Vec<Event>) -> Result<(), Memory>
        ensures { OnOk result (Adds news.old.items news.new.items (comings_to a.0 self.now.post.now.messages)) }
    {
        let controls = self.post.controls_to(self.alloc, a)?;
        for p in &controls {
            push_two(news, Event::Ask(p.0, p.1), Event::Take(p.0, p.1))?;
        }
        Ok(())
    }

    /// Whether sub-batch `j` on its way to an actor comes behind batch `k` there.
    fn is_behind(&self, k: Bid, j: Bid, a: ActorId) -> bool
        ensures { result ≡ comes_behind k.0 self.now.post.now.messages (j.0, a.0) }
    {
        match self.post.sub_head(j, a) {
            Some(head) => head.prev.0 == k.0,
            None => false,
        }
    }

    /// The sub-batch on its way to the actor that comes behind batch `k` there.
    pub(crate) fn list_after(&self, k: Bid, a: ActorId, news: &mut Vec<Event>) -> Result<(), Memory>
        ensures { OnOk result (Adds news.old.items news.new.items (followers k.0 a.0 self.now.post.now.messages)) }
    {
        let subs = self.post.subs_to(self.alloc, a)?;
        for p in &subs {
            push_if(self.is_behind(k, p.0, p.1), Event::Arrive(p.0, p.1), news)?;
        }
        Ok(())
    }

    /// The sub-batches of a batch that was just formed.
    pub(crate) fn list_formed(&self, k: Bid, news: &mut Vec<Event>) -> Result<(), Memory>
        ensures { OnOk result (Adds news.old.items news.new.items (formed_listed k.0 self.now.desk.now)) }
    {
        let actors = self.desk.actors_of(self.alloc, k)?;
        for a in &actors {
            push_one(news, Event::Arrive(k, *a))?;
        }
        Ok(())
    }

    /// Whether the control of a transaction is on its way to an actor.
    fn goes_to(&self, t: Tid, a: ActorId) -> bool
        ensures { result ≡ goes_to t.0 a.0 self.now.post.now.messages }
    {
        match self.post.control_to(t) {
            Some(b) => b.0 == a.0,
            None => false,
        }
    }

    /// The controls on their way to the actor that a batch lets in: of its PACTs that are not done there; all, where there is no such actor.
    pub(crate) fn list_takes(&self, k: Bid, a: ActorId, news: &mut Vec<Event>) -> Result<(), Memory>
        requires { IsWhole self.now.hand.now }
        ensures { OnOk result (Adds news.old.items news.new.items (takes_by k.0 a.0 (slice_get self.now.hand.now.cells a.0) self.now.post.now.messages)) }
    {
        let Some(cell) = self.cell(a) else {
            return self.list_comings(a, news);
        };
        let undone = cell.undone_by(self.alloc, k)?;
        for t in &undone {
            push_if(self.goes_to(*t, a), Event::Take(*t, a), news)?;
        }
        Ok(())
    }

    /// The ACT that has left an actor may ask there again.
    pub(crate) fn list_again(&self, t: Tid, a: ActorId, news: &mut Vec<Event>) -> Result<(), Memory>
        ensures { OnOk result (Adds news.old.items news.new.items (only (goes_to t.0 a.0 self.now.post.now.messages) (Ask t.0 a.0))) }
    {
        push_if(self.goes_to(t, a), Event::Ask(t, a), news)
    }

    /// Whether a transaction has no entry at an actor as an ACT; also where there is no such actor.
    fn is_new_to(&self, t: Tid, a: ActorId) -> bool
        requires { IsWhole self.now.hand.now }
        ensures { result ≡ is_new_in t.0 (slice_get self.now.hand.now.cells a.0) }
    {
        match self.cell(a) {
            Some(cell) => !cell.has_act(t),
            None => true,
        }
    }

    /// Whether a transaction has an entry at an actor; also where there is no such actor.
    fn is_placed_at(&self, t: Tid, a: ActorId) -> bool
        requires { IsWhole self.now.hand.now }
        ensures { result ≡ is_placed_in t.0 (slice_get self.now.hand.now.cells a.0) }
    {
        match self.cell(a) {
            Some(cell) => cell.has_entry(t),
            None => true,
        }
    }

    /// Whether a transaction that is not given up has no entry at an actor as an ACT.
    fn may_ask(&self, t: Tid, a: ActorId) -> bool
        requires { IsWhole self.now.hand.now }
        ensures { (b : Book) → Shows self.now.book.now b → result ≡ (is_not_doomed t.0 b.acts && is_new_in t.0 (slice_get self.now.hand.now.cells a.0)) }
    {
        self.book.is_undoomed(t) && self.is_new_to(t, a)
    }

    /// A control on its way to the actor, which asks there where this may be, and is taken where its entry stands.
    fn list_coming(&self, t: Tid, a: ActorId, news: &mut Vec<Event>) -> Result<(), Memory>
        requires { IsWhole self.now.hand.now }
        ensures { (b : Book) → Shows self.now.book.now b → OnOk result (Adds news.old.items news.new.items (comes_to t.0 self.now.hand.now.cells (is_not_doomed t.0 b.acts) (Some a.0))) }
    {
        push_if(self.may_ask(t, a), Event::Ask(t, a), news)?;
        push_if(self.is_placed_at(t, a), Event::Take(t, a), news)
    }

    /// The control of a transaction, where one is on its way.
    fn list_control(&self, t: Tid, news: &mut Vec<Event>) -> Result<(), Memory>
        requires { IsWhole self.now.hand.now }
        ensures { (b : Book) → Shows self.now.book.now b → OnOk result (Adds news.old.items news.new.items (comes_to t.0 self.now.hand.now.cells (is_not_doomed t.0 b.acts) (option_map message_to (control_of t.0 self.now.post.now.messages.controls)))) }
    {
        match self.post.control_to(t) {
            Some(a) => self.list_coming(t, a, news),
            None => Ok(()),
        }
    }

    /// Whether the control of a transaction belongs to one that is given up.
    fn is_dropped(&self, t: Tid) -> bool
        ensures { (b : Book) → Shows self.now.book.now b → result ≡ is_dropped t.0 b self.now.post.now.messages }
    {
        match self.post.control_who(t) {
            Some(who) => self.book.is_given_up(who),
            None => false,
        }
    }

    /// The control of a transaction, and its drop where it belongs to one that is given up.
    pub(crate) fn list_on_control(&self, t: Tid, news: &mut Vec<Event>) -> Result<(), Memory>
        requires { IsWhole self.now.hand.now }
        ensures { (b : Book) → Shows self.now.book.now b → OnOk result (Adds news.old.items news.new.items (on_control t.0 self.now.hand.now.cells b self.now.post.now.messages)) }
    {
        self.list_control(t, news)?;
        push_if(self.is_dropped(t), Event::DropControl(t), news)
    }
}
