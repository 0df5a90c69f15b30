//! What the conditions of the events ask of the book. Each answer is about whatever book the halves show.
ghost use Rattle.std.specs.Prelude.{◌≡◌, ◌<◌, ◌==◌, nat_le, not, ◌&&◌, ◌||◌, Some, is_some, length, slice_get, find, IfOk};
ghost use Rattle.std.specs.Option.{option_map};
ghost use Rattle.protocol.specs.Meant.{who_meant};
ghost use Rattle.protocol.specs.Conditions.{epoch, is_given_up};
ghost use Rattle.protocol.specs.Effects.{act_commit};
ghost use Rattle.protocol.specs.OnCell.{is_undone_act};
ghost use Rattle.protocol.specs.Parts.{Book};
ghost use Rattle.protocol.specs.Verdicts.{aborted_by, verdict_of_act};
ghost use Rattle.protocol.specs.Words.{act_of, count, covers, holds, is_aborted, is_decided, is_doomed, is_failure, is_live_act, is_live_status, is_sealed, is_value, is_vouched_everywhere, joined_of, lock_of};
ghost use Rattle.order_book.specs.Asked.{before_of};
ghost use Rattle.book_part.specs.Commits.{records_of};
ghost use Rattle.book_part.specs.Halves.{Shows};
ghost use Rattle.book_part.specs.Told.{told_verdict};

use crate::commit::Commit;
use crate::marks::has_joined;
use crate::part::BookPart;
use crate::results::{is_failure, is_value, value_of};
use crate::verdicts::sealed_verdict;
use snap_base::{ActorId, Bid, Memory, Tid, TxNo, Verdict, Who};
use std::alloc::Global;

impl BookPart {
    // ---- cascades

    /// The present epoch: the number of cascades.
    pub fn epoch(&self) -> u64
        ensures { (b : Book) → Shows self.now b → result ≡ epoch b }
    {
        self.cascades.epoch()
    }

    /// Whether a cascade covers the batch.
    pub fn is_aborted(&self, bid: Bid) -> bool
        ensures { (b : Book) → Shows self.now b → result ≡ is_aborted bid.0 b.cascades }
    {
        self.cascades.is_aborted(bid)
    }

    /// The first batch that is covered by the cascade that ended this epoch.
    pub fn first_after(&self, epoch: u64) -> Bid
        requires { epoch < length self.now.cascades }
        ensures { (b : Book) → Shows self.now b → option_map (λ c. c.first) (slice_get b.cascades epoch) ≡ Some result.0 }
    {
        self.cascades.first_after(epoch)
    }

    /// What became of a PACT of the batch; `None` exactly where no cascade covers the batch.
    pub fn pact_verdict(&self, bid: Bid, tx: TxNo) -> Option<Verdict>
        ensures { (b : Book) → Shows self.now b → result ≡ option_map (λ c. aborted_by c tx.0) (find (covers bid.0) b.cascades) }
    {
        self.cascades.verdict(bid, tx)
    }

    /// Whether a control of this batch or ACT is given up.
    pub fn is_given_up(&self, who: Who) -> bool
        ensures { (b : Book) → Shows self.now b → result ≡ is_given_up (who_meant who) b }
    {
        match who {
            Who::Batch(bid) => self.cascades.is_aborted(bid),
            Who::Act(t) => self.orders.is_given_up(t),
        }
    }

    // ---- ACTs

    /// How many ACTs are live: they have an actor still to leave, or have joined none and are not given up.
    pub fn live(&self) -> usize
        ensures { (b : Book) → Shows self.now b → result ≡ count is_live_act b.acts }
    {
        self.orders.live()
    }

    /// Whether there is an ACT `t` that is not given up.
    pub fn is_undoomed(&self, t: Tid) -> bool
        ensures { (b : Book) → Shows self.now b → result ≡ holds (λ x. not (is_doomed x.status)) (act_of t.0 b.acts) }
    {
        self.orders.is_undoomed(t)
    }

    /// Whether ACT `t` only reads, as its lock tells.
    pub fn is_reader(&self, t: Tid) -> bool
        ensures { (b : Book) → Shows self.now b → result ≡ (lock_of t.0 b.acts).reader }
    {
        self.orders.is_reader(t)
    }

    /// Whether ACT `t` ended with a value and is not given up.
    pub fn has_value(&self, t: Tid) -> bool
        ensures { (b : Book) → Shows self.now b → result ≡ holds (λ x. is_value x.result && not (is_doomed x.status)) (act_of t.0 b.acts) }
    {
        is_value(self.votes.result(t)) && self.orders.is_undoomed(t)
    }

    /// Whether ACT `t` joined actor `a` and is not prepared there.
    pub fn is_unprepared(&self, t: Tid, a: ActorId) -> bool
        ensures { (b : Book) → Shows self.now b → result ≡ holds (λ x. holds (λ p. not p.prepared) (joined_of a.0 x)) (act_of t.0 b.acts) }
    {
        if self.votes.result(t).is_some() {
            self.votes.is_unprepared(t, a)
        } else {
            has_joined(self.orders.joined(t), a)
        }
    }

    /// Whether ACT `t` is live, not given up, and prepared on actor `a` but not vouched there.
    pub fn is_to_vouch(&self, t: Tid, a: ActorId) -> bool
        ensures { (b : Book) → Shows self.now b → result ≡ holds (λ x. is_live_act x && (not (is_doomed x.status) && holds (λ p. p.prepared && not p.vouched) (joined_of a.0 x))) (act_of t.0 b.acts) }
    {
        self.orders.is_live(t) && (self.orders.is_undoomed(t) && self.votes.is_unvouched(t, a))
    }

    /// Whether ACT `t` ended, and is neither given up nor decided.
    pub fn is_to_decide(&self, t: Tid) -> bool
        ensures { (b : Book) → Shows self.now b → result ≡ holds (λ x. is_some x.result && is_live_status x.status) (act_of t.0 b.acts) }
    {
        self.votes.result(t).is_some() && self.orders.is_undecided(t)
    }

    /// Whether ACT `t` failed or is vouched on all its actors. Before it ended it is so where it has joined none.
    pub fn is_ready(&self, t: Tid) -> bool
        ensures { (b : Book) → Shows self.now b → result ≡ holds (λ x. is_failure x.result || is_vouched_everywhere x) (act_of t.0 b.acts) }
    {
        if self.votes.result(t).is_some() {
            self.votes.is_ready(t)
        } else {
            self.orders.is_act(t) && self.orders.joined(t).is_empty()
        }
    }

    /// Whether all batches that stand before ACT `t` are up to this one.
    pub fn is_behind(&self, t: Tid, settled: Bid) -> bool
        ensures { (b : Book) → Shows self.now b → result ≡ holds (λ x. nat_le x.m settled.0) (act_of t.0 b.acts) }
    {
        self.orders.is_act(t) && self.orders.before(t) <= settled
    }

    /// Whether ACT `t` is decided and not sealed.
    pub fn is_decided(&self, t: Tid) -> bool
        ensures { (b : Book) → Shows self.now b → result ≡ holds (λ x. is_decided x.status) (act_of t.0 b.acts) }
    {
        self.votes.is_decided(t)
    }

    /// Whether ACT `t` is sealed.
    pub fn is_sealed(&self, t: Tid) -> bool
        ensures { (b : Book) → Shows self.now b → result ≡ holds (λ x. is_sealed x.status) (act_of t.0 b.acts) }
    {
        self.votes.is_sealed(t)
    }

    /// Whether ACT `t` is given up or sealed, so that it may leave its actors.
    pub fn may_leave(&self, t: Tid) -> bool
        ensures { (b : Book) → Shows self.now b → result ≡ holds (λ x. is_doomed x.status || is_sealed x.status) (act_of t.0 b.acts) }
    {
        self.orders.is_given_up(t) || self.votes.is_sealed(t)
    }

    /// Whether ACT `t` has joined actor `a` and not left it.
    pub fn stands_on(&self, t: Tid, a: ActorId) -> bool
        ensures { (b : Book) → Shows self.now b → result ≡ holds (λ x. holds (λ p. not p.finished) (joined_of a.0 x)) (act_of t.0 b.acts) }
    {
        self.orders.stands_on(t, a)
    }

    // ---- what is told of an ACT

    /// Whether what ACT `t` did on its actors is undone: it is given up, or failed.
    pub fn is_undone(&self, t: Tid) -> bool
        ensures { (b : Book) → Shows self.now b → result ≡ is_undone_act (act_of t.0 b.acts) }
    {
        self.orders.is_given_up(t) || is_failure(self.votes.result(t))
    }

    /// The greatest batch that stands before ACT `t`; 0 where there is no such ACT.
    pub fn before(&self, t: Tid) -> Bid
        ensures { (b : Book) → Shows self.now b → result.0 ≡ before_of (act_of t.0 b.acts) }
    {
        self.orders.before(t)
    }

    /// The number of the next commit.
    pub fn next_c(&self) -> u64
        ensures { (b : Book) → Shows self.now b → result ≡ b.next_c }
    {
        self.votes.next_c()
    }

    /// What the commit record of ACT `t` says if it is decided now; `None` exactly where it has not ended with a value.
    pub fn commit(&self, alloc: Global, t: Tid) -> Result<Option<Commit>, Memory>
        ensures { IfOk result (λ c. (b : Book) → Shows self.now b → records_of c ≡ act_commit b.next_c (act_of t.0 b.acts)) }
    {
        let ended = self.votes.result(t);
        if !is_value(ended) {
            return Ok(None);
        }
        let actors = self.votes.actors(alloc, t)?;
        Ok(Some(Commit {
            tid: t,
            before: self.orders.before(t),
            number: self.votes.next_c(),
            value: value_of(ended),
            actors,
        }))
    }

    /// What became of a transaction that is an ACT; `None` exactly where it has no verdict yet.
    pub fn act_verdict(&self, tx: TxNo) -> Option<Verdict>
        ensures { (b : Book) → Shows self.now b → result ≡ verdict_of_act tx.0 b.acts }
    {
        match self.orders.act_with(tx) {
            Some(t) => self.verdict_of(t),
            None => None,
        }
    }

    fn verdict_of(&self, t: Tid) -> Option<Verdict>
        ensures { result ≡ told_verdict (act_of t.0 self.now.orders.acts) (act_of t.0 self.now.votes.acts) }
    {
        match self.orders.standing(t) {
            (_, Some(before)) => sealed_verdict(before, self.votes.sealing(t)),
            (doom, None) => doom,
        }
    }
}
