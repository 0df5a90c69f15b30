//! The ACTs by their places in the list.
ghost use Rattle.std.specs.Prelude.{◌≡◌, ℕ, ◌==◌, ◌≤◌, ◌+◌, not, List, [], ◌∷◌, ◌++◌, length, map, max, if◌then◌else◌, true, is_ok, is_some, slice_get, option_copied, OnOk, OnErr};
ghost use Rattle.std.specs.Option.{option_map};
ghost use Rattle.protocol.specs.Words.{is_doomed, is_live_status, is_ordered, is_live_act, joined_of, holds};
ghost use Rattle.protocol.specs.OnBook.{new_act, joins};
ghost use Rattle.protocol.specs.Spread.{reaches};
ghost use Rattle.order_book.specs.Asked.{doom_of, before_of, after_of, tx_of, joined_in, place_of};
ghost use Rattle.order_book.specs.Fates.{bid_number, tx_number};
ghost use Rattle.order_book.specs.Kept.{without_after, forgotten, seen};
ghost use Rattle.order_book.specs.Changes.{changed_by, changed_at};
ghost use Rattle.order_book.specs.Walking.{is_walked_at};

use crate::act::Act;
use crate::change::Change;
use crate::mark::Mark;
use crate::pair::Pair;
use snap_base::{ActorId, Bid, Memory, Tid, TxNo, Verdict};
use std::alloc::Global;
use std::marker::Model;

/// ACTs by place. Contracts see them as the machine's. An after number counts while there was no cascade since it was
/// set, so a cascade forgets all of them in one step.
#[derive(Drop)]
pub(crate) struct Acts {
    pub(crate) rows: Vec<Act>,
    epoch: u64,
}

impl Model for Acts {
    ghost use Rattle.std.specs.Prelude.{List, map};
    ghost use Rattle.std.specs.List.{AllByRecursion};
    ghost use Rattle.protocol.specs.Parts as machine;
    ghost use Rattle.order_book.specs.Kept.{seen, IsUnder};

    ghost Value = { List machine.Act };

    ghost view = { λ a. map (seen a.epoch) a.rows.items };

    ghost invariant = { λ a. AllByRecursion (IsUnder a.epoch) a.rows.items };
}

impl Acts {
    pub(crate) fn new(alloc: Global) -> Self
        ensures { result ≡ [] }
    {
        Acts {
            rows: Vec::new(alloc),
            epoch: 0,
        }
    }

    pub(crate) fn len(&self) -> usize
        ensures { result ≡ length self.now }
    {
        self.rows.len()
    }

    /// All of them, as they are kept.
    pub(crate) fn rows(&self) -> &[Act]
        ensures { (epoch : ℕ) × (self.now ≡ map (seen epoch) result.now) }
    {
        self.rows.as_slice()
    }

    /// One more ACT, at the end. For want of memory all is as before.
    pub(crate) fn push(
        &mut self,
        alloc: Global,
        tid: Tid,
        tx: TxNo,
        reader: bool,
        base: Bid,
    ) -> Result<(), Memory>
        ensures ok { OnOk result (self.new ≡ self.old ++ new_act tid.0 tx.0 reader base.0 ∷ []) }
        ensures err { OnErr result (self.new ≡ self.old) }
    {
        self.rows.push(Act::new(alloc, tid, tx, reader, base))?;
        Ok(())
    }

    /// What becomes of the ACT at this place, where there is one.
    pub(crate) fn change(&mut self, at: usize, change: Change)
        ensures { self.new ≡ changed_at at (changed_by change) self.old }
    {
        if at < self.rows.len() {
            let epoch = self.epoch;
            let row = &mut self.rows[at];
            row.change(change, epoch);
        }
    }

    /// The ACT at this place joins an actor, behind a batch. For want of memory all is as before.
    pub(crate) fn join(&mut self, at: usize, actor: ActorId, behind: Bid) -> Result<(), Memory>
        ensures ok { OnOk result (self.new ≡ changed_at at (joins actor.0 behind.0) self.old) }
        ensures err { OnErr result (self.new ≡ self.old) }
    {
        if at < self.rows.len() {
            let row = &mut self.rows[at];
            row.join(actor, behind)?;
        }
        Ok(())
    }

    /// Forgets all after numbers.
    pub(crate) fn forget(&mut self)
        ensures { self.new ≡ map forgotten self.old }
    {
        match self.epoch.checked_add(1) {
            Some(next) => self.epoch = next,
            // Numbers of cascades begin anew: once in 2^64 cascades.
            None => {
                cut_rows(&mut self.rows);
                self.epoch = 0;
            }
        }
    }

    pub(crate) fn is_act(&self, at: usize) -> bool
        ensures { result ≡ is_some (slice_get self.now at) }
    {
        at < self.rows.len()
    }

    pub(crate) fn is_reader(&self, at: usize) -> bool
        ensures { result ≡ holds (λ x. x.reader) (slice_get self.now at) }
    {
        match self.rows.get(at) {
            Some(row) => row.is_reader(),
            None => false,
        }
    }

    pub(crate) fn is_live(&self, at: usize) -> bool
        ensures { result ≡ holds is_live_act (slice_get self.now at) }
    {
        match self.rows.get(at) {
            Some(row) => row.is_live(),
            None => false,
        }
    }

    pub(crate) fn is_placed(&self, at: usize) -> bool
        ensures { result ≡ holds (λ x. is_ordered x.status) (slice_get self.now at) }
    {
        match self.rows.get(at) {
            Some(row) => row.is_placed(),
            None => false,
        }
    }

    pub(crate) fn is_given_up(&self, at: usize) -> bool
        ensures { result ≡ holds (λ x. is_doomed x.status) (slice_get self.now at) }
    {
        match self.rows.get(at) {
            Some(row) => row.is_given_up(),
            None => false,
        }
    }

    pub(crate) fn is_undoomed(&self, at: usize) -> bool
        ensures { result ≡ holds (λ x. not (is_doomed x.status)) (slice_get self.now at) }
    {
        match self.rows.get(at) {
            Some(row) => !row.is_given_up(),
            None => false,
        }
    }

    pub(crate) fn is_undecided(&self, at: usize) -> bool
        ensures { result ≡ holds (λ x. is_live_status x.status) (slice_get self.now at) }
    {
        match self.rows.get(at) {
            Some(row) => row.is_undecided(),
            None => false,
        }
    }

    pub(crate) fn is_walked(&self, at: usize, pairs: &[Pair]) -> bool
        ensures { result ≡ is_walked_at pairs.now self.now at }
    {
        match self.rows.get(at) {
            Some(row) => row.is_walked(pairs),
            None => false,
        }
    }

    pub(crate) fn stands_on(&self, at: usize, actor: ActorId) -> bool
        ensures { result ≡ holds (λ x. holds (λ p. not p.finished) (joined_of actor.0 x)) (slice_get self.now at) }
    {
        match self.rows.get(at) {
            Some(row) => row.stands_on(actor),
            None => false,
        }
    }

    /// Why the ACT at this place is given up, and the greatest batch before it where it has its place.
    pub(crate) fn standing(&self, at: usize) -> (Option<Verdict>, Option<Bid>)
        ensures doom { result.0 ≡ doom_of (slice_get self.now at) }
        ensures place { option_map bid_number result.1 ≡ place_of (slice_get self.now at) }
    {
        match self.rows.get(at) {
            Some(row) => (row.doom(), row.place()),
            None => (None, None),
        }
    }

    /// Its before number; 0 where there is none.
    pub(crate) fn before(&self, at: usize) -> Bid
        ensures { result.0 ≡ before_of (slice_get self.now at) }
    {
        match self.rows.get(at) {
            Some(row) => row.before(),
            None => Bid(0),
        }
    }

    pub(crate) fn after(&self, at: usize) -> Option<Bid>
        ensures { option_map bid_number result ≡ after_of (slice_get self.now at) }
    {
        match self.rows.get(at) {
            Some(row) => row.after(self.epoch),
            None => None,
        }
    }

    fn reaches(&self, at: usize) -> bool
        ensures { result ≡ holds (λ x. reaches x.m x.n) (slice_get self.now at) }
    {
        match self.rows.get(at) {
            Some(row) => row.reaches(self.epoch),
            None => false,
        }
    }

    /// Whether this leaves the ACT at this place as it is, as is seen at once.
    pub(crate) fn is_left(&self, at: usize, change: Change) -> bool
        ensures { result ≡ true → changed_at at (changed_by change) self.now ≡ self.now }
    {
        match change {
            Change::Cross(_) => !self.reaches(at),
            _ => false,
        }
    }

    pub(crate) fn tx(&self, at: usize) -> Option<TxNo>
        ensures { option_map tx_number result ≡ tx_of (slice_get self.now at) }
    {
        match self.rows.get(at) {
            Some(row) => Some(row.tx()),
            None => None,
        }
    }

    pub(crate) fn marks(&self, at: usize) -> &[Mark]
        ensures { result.now ≡ joined_in (slice_get self.now at) }
    {
        match self.rows.get(at) {
            Some(row) => row.marks(),
            None => &[],
        }
    }
}

fn cut_rows(rows: &mut Vec<Act>)
    ensures { rows.new.items ≡ map without_after rows.old.items }
{
    for row in rows.iter_mut() {
        row.cut();
    }
}
