//! The book as one part: orders, votes and cascades, and each event that changes them.
ghost use Rattle.std.specs.Prelude.{◌≡◌, ℕ, ◌<◌, ◌≤◌, ◌^◌, max, not, [], ◌∷◌, ◌++◌, List, length, map, Some, None, IsTrue, IfOk, OnOk, OnErr};
ghost use Rattle.std.specs.List.{All, AllByRecursion};
ghost use Rattle.std.specs.Option.{option_map};
ghost use Rattle.protocol.specs.Meant.{tid_number};
ghost use Rattle.protocol.specs.BookParts.{has_place, no_orders, no_votes, orders_cascaded, votes_begin};
ghost use Rattle.protocol.specs.OnBook.{act_admitted, act_asked, act_decided, act_finished, act_prepared, act_sealed, act_vouched, batch_arrived};
ghost use Rattle.protocol.specs.Rivals.{Lock};
ghost use Rattle.protocol.specs.Words.{act_of, holds, is_doomed, least_older};
ghost use Rattle.protocol_theorems.specs.BookFits.{actors_at};
ghost use Rattle.order_book.specs.Asked.{AreLocksOf};
ghost use Rattle.act_commit.specs.Words.{is_ready};
ghost use Rattle.book_part.specs.After.{with_cascade};

use crate::marks::joined_actors;
use abort_cascade::Cascades;
use act_commit::Acts;
use order_book::{Answer, Book, ask};
use snap_base::{ActorId, Bid, Memory, Tid, TxNo, TxResult};
use std::alloc::Global;
use std::marker::Model;

/// The book, as orders, votes and cascades. Contracts see its halves, and for how many cascades there is room.
pub struct BookPart {
    pub(crate) orders: Book,
    pub(crate) votes: Acts,
    pub(crate) cascades: Cascades,
}

// Written out, so that a crate above calls it and does not repeat it.
impl Drop for BookPart {
    fn drop(self) {
        let BookPart {
            orders: _orders,
            votes: _votes,
            cascades: _cascades,
        } = self;
    }
}

impl Model for BookPart {
    ghost use Rattle.book_part.specs.Halves.{Halves};

    ghost Value = { Halves };

    ghost view = { λ b. record { orders = b.orders; votes = b.votes; cascades = b.cascades.list; most = b.cascades.most } };
}

impl BookPart {
    /// No ACT and no cascade yet; the next commit has number `next_c`, and there is room for `most` cascades. `Memory` where
    /// that room cannot be allocated.
    pub fn new(alloc: Global, next_c: u64, most: u32) -> Result<Self, Memory>
        ensures { IfOk result (λ h. h ≡ record { orders = no_orders; votes = no_votes next_c; cascades = []; most = most }) }
    {
        let votes = Acts::new(alloc, next_c)?;
        let cascades = Cascades::new(alloc, most)?;
        Ok(BookPart {
            orders: Book::new(alloc),
            votes,
            cascades,
        })
    }

    /// Transaction `tx` begins as ACT `t`, a reader or not, which is above all others, behind batch `base`. For want of
    /// memory all is as before.
    pub fn admit(
        &mut self,
        alloc: Global,
        t: Tid,
        tx: TxNo,
        reader: bool,
        base: Bid,
    ) -> Result<(), Memory>
        requires { All (λ x. x.tid < t.0) self.old.orders.acts }
        ensures ok { OnOk result (self.new ≡ record self.old { orders = act_admitted t.0 tx.0 reader base.0 self.old.orders }) }
        ensures err { OnErr result (self.new ≡ self.old) }
    {
        self.orders.admit(alloc, t, tx, reader, base)
    }

    /// Batch `bid` arrives on actor `a`, behind the ACTs of `acts`.
    pub fn arrive(&mut self, acts: &[Tid], bid: Bid, a: ActorId)
        ensures { self.new ≡ record self.old { orders = batch_arrived bid.0 a.0 (map tid_number acts.now) self.old.orders } }
    {
        self.orders.lower(acts, bid, a);
    }

    /// ACT `t`, which is not given up, asked for actor `a`, where `rivals` has its rivals that hold it or wait for it behind
    /// the last batch there. Where one of the rivals is older, `t` gives way to the oldest, which is the result. Else it joins the
    /// actor, behind that batch, the floor that counts for it, and those rivals that are not given up. For want of memory all
    /// is as before.
    pub fn ask(
        &mut self,
        alloc: Global,
        t: Tid,
        rivals: &[Tid],
        last: Bid,
        floor: Bid,
        a: ActorId,
    ) -> Result<Option<Tid>, Memory>
        requires { IsTrue (holds (λ x. not (is_doomed x.status)) (act_of t.0 self.old.orders.acts)) }
        ensures ok { OnOk result ((locks : List Lock) → AreLocksOf rivals.now locks → self.new ≡ record self.old { orders = act_asked (least_older t.0 locks) locks t.0 a.0 (max last.0 floor.0) self.old.orders }) }
        ensures older { IfOk result (λ older. (locks : List Lock) → AreLocksOf rivals.now locks → option_map tid_number older ≡ least_older t.0 locks) }
        ensures err { OnErr result (self.new ≡ self.old) }
    {
        match ask(rivals, t) {
            Answer::Die(older) => {
                self.orders.die(t, older, a);
                Ok(Some(older))
            }
            Answer::Free | Answer::Wait => {
                self.orders.place(alloc, t, rivals, last, floor, a)?;
                Ok(None)
            }
        }
    }

    /// ACT `t`, which had not ended, ended with result `r`: votes begin on the actors that it joined. For want of memory all
    /// is as before.
    pub fn end(&mut self, alloc: Global, t: Tid, r: TxResult) -> Result<(), Memory>
        requires { act_of t.0 self.old.votes.acts ≡ None }
        ensures ok { OnOk result (self.new ≡ record self.old { votes = votes_begin t.0 r (actors_at (act_of t.0 self.old.orders.acts)) self.old.votes }) }
        ensures err { OnErr result (self.new ≡ self.old) }
    {
        let actors = joined_actors(alloc, self.orders.joined(t))?;
        self.votes.ended(alloc, t, r, actors.as_slice())
    }

    /// The record of the state that ACT `t` left on actor `a` is added to a log.
    pub fn prepare(&mut self, t: Tid, a: ActorId)
        ensures { self.new ≡ record self.old { votes = act_prepared t.0 a.0 self.old.votes } }
    {
        self.votes.prepared(t, a);
    }

    /// The record of the state that ACT `t` left on actor `a` is durable.
    pub fn vouch(&mut self, t: Tid, a: ActorId)
        ensures { self.new ≡ record self.old { votes = act_vouched t.0 a.0 self.old.votes } }
    {
        self.votes.vouched(t, a);
    }

    /// ACT `t`, which failed or is vouched on all its actors, gets its place in the serial order and the number of the
    /// next commit, which is the result.
    pub fn decide(&mut self, t: Tid) -> u64
        requires ready { IsTrue (holds is_ready (act_of t.0 self.old.votes.acts)) }
        requires fits { self.old.votes.next_c < 2 ^ 63 }
        ensures number { result ≡ self.old.votes.next_c }
        ensures decided { self.new ≡ record self.old { orders = has_place t.0 self.old.orders; votes = act_decided t.0 self.old.votes } }
    {
        self.orders.decide(t);
        self.votes.decide(t)
    }

    /// The commit of ACT `t`, if it is decided, is durable.
    pub fn seal(&mut self, t: Tid)
        ensures { self.new ≡ record self.old { votes = act_sealed t.0 self.old.votes } }
    {
        self.votes.seal(t);
    }

    /// ACT `t` leaves actor `a`: nobody stands behind it there any more.
    pub fn finish(&mut self, t: Tid, a: ActorId)
        ensures { self.new ≡ record self.old { orders = act_finished t.0 a.0 self.old.orders } }
    {
        self.orders.finished(t, a);
    }

    /// The PACT of transaction `by` failed with `code` and took the batches from `first` to `upto` along.
    pub fn abort(&mut self, first: Bid, upto: Bid, by: TxNo, code: u16)
        requires room { length self.old.cascades < self.old.most }
        requires some { first.0 ≤ upto.0 }
        // All cascades up to now end below it.
        requires above { AllByRecursion (λ c. c.upto < first.0) self.old.cascades }
        ensures { self.new ≡ record self.old { orders = orders_cascaded first.0 by.0 self.old.orders; cascades = with_cascade first.0 upto.0 by.0 code self.old } }
    {
        let at = self.votes.next_c();
        self.cascades.push(first, upto, by, at, code);
        self.orders.cascade(first, by);
    }
}
