//! The book: the orders of all ACTs, each call that changes them and each asking.
ghost use Rattle.std.specs.Prelude.{◌≡◌, ℕ, ◌<◌, ◌==◌, not, max, IsTrue, List, [], ◌∷◌, ◌++◌, map, is_some, OnOk, OnErr, Some, None, IfSome, find};
ghost use Rattle.std.specs.List.{All};
ghost use Rattle.std.specs.Option.{option_map};
ghost use Rattle.protocol.specs.Meant.{tid_number};
ghost use Rattle.protocol.specs.Rivals.{Lock};
ghost use Rattle.protocol.specs.Words.{act_of, count, holds, is_doomed, is_live_act, is_live_status, joined_of};
ghost use Rattle.protocol.specs.Verdicts.{died};
ghost use Rattle.protocol.specs.OnBook.{act_admitted, act_asked, act_finished, batch_arrived, changed_act, doomed_by};
ghost use Rattle.protocol.specs.BookParts.{no_orders, has_place, orders_cascaded};
ghost use Rattle.order_book.specs.Asked.{AreLocksOf, doom_of, before_of, after_of, tx_of, joined_in, place_of, tid_of_act};
ghost use Rattle.order_book.specs.Fates.{bid_number, tx_number};
ghost use Rattle.order_book.specs.Kept.{seen};

use crate::act::Act;
use crate::change::Change;
use crate::mark::Mark;
use crate::pair::Pair;
use crate::placing::{join, lower_each, new_pairs};
use crate::register::Register;
use crate::walk::{change_walked, keep_walked, spread};
use snap_base::{ActorId, Bid, Memory, Tid, TxNo, Verdict};
use std::alloc::Global;
use std::marker::Model;

/// The orders of all ACTs that were admitted. Contracts see the machine's book with nothing but orders in it: who has
/// its place in the serial order shows as sealed with number 0.
#[derive(Drop)]
pub struct Book {
    pub(crate) register: Register,
    pairs: Vec<Pair>,
    /// The places of those that an event may change though it does not name them, ascending. Who is over is none of
    /// them, unless it still stands behind one that is not.
    walked: Vec<usize>,
}

impl Model for Book {
    ghost use Rattle.std.specs.Prelude.{◌≡◌, []};
    ghost use Rattle.protocol.specs.Parts as machine;
    ghost use Rattle.order_book.specs.Walking.{is_walked, places_of};

    ghost Value = { machine.Book };

    ghost view = { λ b. record { next_c = 0; cascades = []; acts = b.register; pairs = b.pairs.items } };

    ghost invariant = { λ b. b.walked.items ≡ places_of (is_walked b.pairs.items) 0 b.register };
}

impl Book {
    /// No ACT yet.
    pub fn new(alloc: Global) -> Self
        ensures { result ≡ no_orders }
    {
        Book {
            register: Register::new(alloc),
            pairs: Vec::new(alloc),
            walked: Vec::new(alloc),
        }
    }

    /// Transaction `tx` begins as ACT `t`, a reader or not, which is above all others. Batch `base` and those up to it
    /// stand before it. For want of memory the book is as before.
    pub fn admit(
        &mut self,
        alloc: Global,
        t: Tid,
        tx: TxNo,
        reader: bool,
        base: Bid,
    ) -> Result<(), Memory>
        requires { All (λ x. x.tid < t.0) self.old.acts }
        ensures ok { OnOk result (self.new ≡ act_admitted t.0 tx.0 reader base.0 self.old) }
        ensures err { OnErr result (self.new ≡ self.old) }
    {
        self.walked.reserve(1)?;
        let at = self.register.len();
        self.register.push(alloc, t, tx, reader, base)?;
        let _walked = self.walked.push(at);
        Ok(())
    }

    /// ACT `t` joins actor `a`, behind the last batch there, the floor that counts for it, and those of its `rivals` ahead
    /// that are not doomed: numbers rise along the pairs, and whose numbers then cross is given up. For want of memory the
    /// book is as before.
    pub fn place(
        &mut self,
        alloc: Global,
        t: Tid,
        rivals: &[Tid],
        last: Bid,
        floor: Bid,
        a: ActorId,
    ) -> Result<(), Memory>
        requires { IsTrue (holds (λ x. not (is_doomed x.status)) (act_of t.0 self.old.acts)) }
        ensures ok { OnOk result ((locks : List Lock) → AreLocksOf rivals.now locks → self.new ≡ act_asked None locks t.0 a.0 (max last.0 floor.0) self.old) }
        ensures err { OnErr result (self.new ≡ self.old) }
    {
        let behind = Bid(last.0.max(floor.0));
        let made = new_pairs(alloc, &self.register, t, rivals, a)?;
        let at = self.register.place_of(t);
        join(&mut self.register, &mut self.pairs, at, made, behind, a)?;
        spread(
            &mut self.register,
            &mut self.walked,
            self.pairs.as_slice(),
            a,
        );
        Ok(())
    }

    /// Batch `bid` arrives on actor `a`, behind the ACTs of `acts`. An ACT whose numbers then cross is given up.
    pub fn lower(&mut self, acts: &[Tid], bid: Bid, a: ActorId)
        ensures { self.new ≡ batch_arrived bid.0 a.0 (map tid_number acts.now) self.old }
    {
        lower_each(&mut self.register, acts, bid);
        change_walked(
            &mut self.register,
            &mut self.walked,
            self.pairs.as_slice(),
            Change::Cross(a),
        );
    }

    /// ACT `t` gives way to an older one on actor `a`. Who is given up already stays so for the first reason.
    pub fn die(&mut self, t: Tid, older: Tid, a: ActorId)
        ensures { self.new ≡ record self.old { acts = changed_act t.0 (doomed_by (died a.0 older.0 t.0)) self.old.acts } }
    {
        let at = self.register.place_of(t);
        self.register.change(
            at,
            Change::Doom(Verdict::Died {
                actor: a,
                older,
                own: t,
            }),
        );
        keep_walked(&mut self.walked, &self.register, self.pairs.as_slice());
    }

    /// ACT `t` gets its place in the serial order, if it is neither given up nor has it already.
    pub fn decide(&mut self, t: Tid)
        ensures { self.new ≡ has_place t.0 self.old }
    {
        let at = self.register.place_of(t);
        self.register.change(at, Change::Place);
        keep_walked(&mut self.walked, &self.register, self.pairs.as_slice());
    }

    /// The batches from `bid` on are aborted, since transaction `by` failed: who stands behind one of them is given up,
    /// and all after numbers are forgotten.
    pub fn cascade(&mut self, bid: Bid, by: TxNo)
        ensures { self.new ≡ orders_cascaded bid.0 by.0 self.old }
    {
        change_walked(
            &mut self.register,
            &mut self.walked,
            self.pairs.as_slice(),
            Change::TakeAlong(bid, by),
        );
        self.register.forget();
    }

    /// ACT `t` leaves actor `a`: nobody stands behind it there any more.
    pub fn finished(&mut self, t: Tid, a: ActorId)
        ensures { self.new ≡ act_finished t.0 a.0 self.old }
    {
        let at = self.register.place_of(t);
        self.register.change(at, Change::Leave(a));
        self.pairs.retain(|p| !p.is_ended(t, a));
        keep_walked(&mut self.walked, &self.register, self.pairs.as_slice());
    }

    /// All ACTs, in the order in which they were admitted. What is kept of one does not tell whether a cascade has come since
    /// its after number was set.
    pub fn acts(&self) -> &[Act]
        ensures { (epoch : ℕ) × (self.now.acts ≡ map (seen epoch) result.now) }
    {
        self.register.acts().rows()
    }

    /// How many ACTs are live: they have an actor still to leave, or have joined none and are not given up.
    pub fn live(&self) -> usize
        ensures { result ≡ count is_live_act self.now.acts }
    {
        self.register.live()
    }

    /// Whether there is an ACT `t`.
    pub fn is_act(&self, t: Tid) -> bool
        ensures { result ≡ is_some (act_of t.0 self.now.acts) }
    {
        let at = self.register.place_of(t);
        self.register.acts().is_act(at)
    }

    /// Whether ACT `t` only reads.
    pub fn is_reader(&self, t: Tid) -> bool
        ensures { result ≡ holds (λ x. x.reader) (act_of t.0 self.now.acts) }
    {
        let at = self.register.place_of(t);
        self.register.acts().is_reader(at)
    }

    /// The transaction of ACT `t`; `None` where there is no such ACT.
    pub fn tx(&self, t: Tid) -> Option<TxNo>
        ensures { option_map tx_number result ≡ tx_of (act_of t.0 self.now.acts) }
    {
        let at = self.register.place_of(t);
        self.register.acts().tx(at)
    }

    /// The tid of the first ACT of a transaction; `None` exactly where it has none.
    pub fn act_with(&self, tx: TxNo) -> Option<Tid>
        ensures first { option_map tid_number result ≡ tid_of_act (find (λ x. x.tx == tx.0) self.now.acts) }
        ensures found { IfSome result (λ t. act_of t.0 self.now.acts ≡ find (λ x. x.tx == tx.0) self.now.acts) }
    {
        self.register.act_with(tx)
    }

    /// The actors that ACT `t` joined, in that order; none where there is no such ACT.
    pub fn joined(&self, t: Tid) -> &[Mark]
        ensures { result.now ≡ joined_in (act_of t.0 self.now.acts) }
    {
        let at = self.register.place_of(t);
        self.register.acts().marks(at)
    }

    /// Whether ACT `t` has joined actor `a` and not left it.
    pub fn stands_on(&self, t: Tid, a: ActorId) -> bool
        ensures { result ≡ holds (λ x. holds (λ p. not p.finished) (joined_of a.0 x)) (act_of t.0 self.now.acts) }
    {
        let at = self.register.place_of(t);
        self.register.acts().stands_on(at, a)
    }

    /// Whether ACT `t` is live: it has an actor still to leave, or has joined none and is not given up.
    pub fn is_live(&self, t: Tid) -> bool
        ensures { result ≡ holds is_live_act (act_of t.0 self.now.acts) }
    {
        let at = self.register.place_of(t);
        self.register.acts().is_live(at)
    }

    /// Whether ACT `t` is given up.
    pub fn is_given_up(&self, t: Tid) -> bool
        ensures { result ≡ holds (λ x. is_doomed x.status) (act_of t.0 self.now.acts) }
    {
        let at = self.register.place_of(t);
        self.register.acts().is_given_up(at)
    }

    /// Whether there is an ACT `t` that is not given up.
    pub fn is_undoomed(&self, t: Tid) -> bool
        ensures { result ≡ holds (λ x. not (is_doomed x.status)) (act_of t.0 self.now.acts) }
    {
        let at = self.register.place_of(t);
        self.register.acts().is_undoomed(at)
    }

    /// Whether ACT `t` is neither given up nor has its place.
    pub fn is_undecided(&self, t: Tid) -> bool
        ensures { result ≡ holds (λ x. is_live_status x.status) (act_of t.0 self.now.acts) }
    {
        let at = self.register.place_of(t);
        self.register.acts().is_undecided(at)
    }

    /// Why ACT `t` is given up, and the greatest batch that stands before it where it has its place in the serial order.
    pub fn standing(&self, t: Tid) -> (Option<Verdict>, Option<Bid>)
        ensures doom { result.0 ≡ doom_of (act_of t.0 self.now.acts) }
        ensures place { option_map bid_number result.1 ≡ place_of (act_of t.0 self.now.acts) }
    {
        let at = self.register.place_of(t);
        self.register.acts().standing(at)
    }

    /// The greatest batch that stands before ACT `t`; 0 where there is no such ACT.
    pub fn before(&self, t: Tid) -> Bid
        ensures { result.0 ≡ before_of (act_of t.0 self.now.acts) }
    {
        let at = self.register.place_of(t);
        self.register.acts().before(at)
    }

    /// The least batch that stands behind ACT `t`; `None` exactly where there is none.
    pub fn after(&self, t: Tid) -> Option<Bid>
        ensures { option_map bid_number result ≡ after_of (act_of t.0 self.now.acts) }
    {
        let at = self.register.place_of(t);
        self.register.acts().after(at)
    }
}
