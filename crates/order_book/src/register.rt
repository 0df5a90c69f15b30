//! All ACTs, found by tid and by transaction.
ghost use Rattle.std.specs.Prelude.{◌≡◌, ◌<◌, ◌≤◌, ◌+◌, ◌==◌, ◌^◌, ℕ, map, List, [], ◌∷◌, ◌++◌, length, if◌then◌else◌, filter, IfOk, OnOk, OnErr, slice_get, slice_index, slice_index_or, find, IfSome, None, drop, vec_len, vec_capacity};
ghost use Rattle.std.specs.List.{All, position_or_len};
ghost use Rattle.std.specs.Option.{option_map};
ghost use Rattle.protocol.specs.Cutting.{Ascends};
ghost use Rattle.protocol.specs.Meant.{tid_number};
ghost use Rattle.protocol.specs.Words.{act_of, count, holds, is_doomed, is_live_act};
ghost use Rattle.protocol.specs.OnBook.{new_act, joins};
ghost use Rattle.order_book.specs.Asked.{tid_of_act};
ghost use Rattle.order_book.specs.Kept.{forgotten};
ghost use Rattle.order_book.specs.Changes.{changed_by, changed_at, carried_at};
ghost use Rattle.order_book.specs.Walking.{is_walked_at};
ghost use Rattle.protocol.specs.Numbers.{one_if};
ghost use Rattle.order_book.specs.Registered.{IsPlaceOfAct, first_kept, tids_of_acts, before_undoomed, brought_by};

use crate::acts::Acts;
use crate::change::Change;
use crate::pair::Pair;
use snap_base::{ActorId, Bid, Memory, Tid, TxNo};
use std::alloc::Global;
use std::marker::Model;

/// So many ACTs are looked at one by one, the last first, before all are searched.
const LAST_FEW: usize = 32;

/// All ACTs, in the order of their admission, which is that of their tids: found by tid and by transaction, and
/// counted while they are live. Contracts see the list of them.
#[derive(Drop)]
pub(crate) struct Register {
    acts: Acts,
    tids: Vec<u64>,
    /// By transaction the tid of its first ACT.
    by_tx: Vec<Option<u64>>,
    live: usize,
}

impl Model for Register {
    ghost use Rattle.std.specs.Prelude.{List};
    ghost use Rattle.protocol.specs.Parts as machine;
    ghost use Rattle.order_book.specs.Registered.{IsRegistered};

    ghost Value = { List machine.Act };

    ghost view = { λ r. r.acts };

    ghost invariant = { λ r. IsRegistered r.acts r.tids.items r.by_tx.items r.live };
}

impl Register {
    pub(crate) fn new(alloc: Global) -> Self
        ensures { result ≡ [] }
    {
        Register {
            acts: Acts::new(alloc),
            tids: Vec::new(alloc),
            by_tx: Vec::new(alloc),
            live: 0,
        }
    }

    pub(crate) fn len(&self) -> usize
        ensures { result ≡ length self.now }
    {
        self.acts.len()
    }

    pub(crate) fn acts(&self) -> &Acts
        ensures { result.now ≡ self.now }
    {
        &self.acts
    }

    /// How many are live.
    pub(crate) fn live(&self) -> usize
        ensures { result ≡ count is_live_act self.now }
    {
        self.live
    }

    /// Whether an event may change the ACT at this place though it does not name it.
    pub(crate) fn is_walked(&self, at: usize, pairs: &[Pair]) -> bool
        ensures { result ≡ is_walked_at pairs.now self.now at }
    {
        self.acts.is_walked(at, pairs)
    }

    /// Whether ACT `t` is given up.
    pub(crate) fn is_given_up(&self, t: Tid) -> bool
        ensures { result ≡ holds (λ x. is_doomed x.status) (act_of t.0 self.now) }
    {
        let at = self.place_of(t);
        self.acts.is_given_up(at)
    }

    /// The live ones that are given up, in the order of their tids.
    pub(crate) fn given_up(&self, alloc: Global) -> Result<Vec<Tid>, Memory>
        ensures { IfOk result (λ tids. map tid_number tids.items ≡ filter (λ t. holds (λ x. is_doomed x.status) (act_of t self.now)) (tids_of_acts (filter is_live_act self.now))) }
    {
        let tids = self.acts.leaving(alloc, self.live)?;
        Ok(tids)
    }

    /// The tid of the first ACT of a transaction.
    pub(crate) fn act_with(&self, tx: TxNo) -> Option<Tid>
        ensures first { option_map tid_number result ≡ tid_of_act (find (λ x. x.tx == tx.0) self.now) }
        ensures found { IfSome result (λ t. act_of t.0 self.now ≡ find (λ x. x.tx == tx.0) self.now) }
    {
        tid_at(self.by_tx.as_slice(), tx)
    }

    /// The place of the ACT with this tid, or the length of the list.
    pub(crate) fn place_of(&self, t: Tid) -> usize
        ensures { IsPlaceOfAct t.0 result self.now }
    {
        place_in(self.tids.as_slice(), t.0)
    }

    /// One more ACT, above all others. For want of memory all is as before.
    pub(crate) fn push(
        &mut self,
        alloc: Global,
        t: Tid,
        tx: TxNo,
        reader: bool,
        base: Bid,
    ) -> Result<(), Memory>
        requires { All (λ x. x.tid < t.0) self.old }
        ensures ok { OnOk result (self.new ≡ self.old ++ new_act t.0 tx.0 reader base.0 ∷ []) }
        ensures err { OnErr result (self.new ≡ self.old) }
    {
        make_room(&mut self.tids, &mut self.by_tx, tx)?;
        self.acts.push(alloc, t, tx, reader, base)?;
        let _listed = self.tids.push(t.0);
        note(&mut self.by_tx, tx, t);
        self.live += 1;
        Ok(())
    }

    /// What becomes of the ACT at this place, where there is one.
    pub(crate) fn change(&mut self, at: usize, change: Change)
        ensures { self.new ≡ changed_at at (changed_by change) self.old }
    {
        if self.acts.is_left(at, change) {
            return;
        }
        let was = self.acts.is_live(at);
        self.acts.change(at, change);
        let is = self.acts.is_live(at);
        self.live = recounted(self.live, was, is);
    }

    /// The ACT at this place joins an actor, behind a batch. For want of memory all is as before.
    pub(crate) fn join(&mut self, at: usize, actor: ActorId, behind: Bid) -> Result<(), Memory>
        ensures ok { OnOk result (self.new ≡ changed_at at (joins actor.0 behind.0) self.old) }
        ensures err { OnErr result (self.new ≡ self.old) }
    {
        let was = self.acts.is_live(at);
        self.acts.join(at, actor, behind)?;
        let is = self.acts.is_live(at);
        self.live = recounted(self.live, was, is);
        Ok(())
    }

    /// Forgets all after numbers.
    pub(crate) fn forget(&mut self)
        ensures { self.new ≡ map forgotten self.old }
    {
        self.acts.forget();
    }

    /// What those behind it in the list carry to the ACT at this place.
    pub(crate) fn carried(&self, at: usize, pairs: &[Pair]) -> Bid
        ensures { result.0 ≡ carried_at pairs.now at self.now }
    {
        if at >= self.tids.len() {
            return Bid(0);
        }
        if self.acts.is_placed(at) {
            return Bid(0);
        }
        self.brought_by(at, pairs)
    }

    /// The greatest number that one of the pairs brings to the ACT at this place.
    fn brought_by(&self, at: usize, pairs: &[Pair]) -> Bid
        requires { at < length self.now }
        ensures { result.0 ≡ brought_by pairs.now (slice_index (tids_of_acts self.now) at) (drop (at + 1) self.now) }
    {
        let mut most = Bid(0);
        for pair in pairs {
            if pair.behind().0 == self.tids[at] {
                most = most.max(self.number_of(at, pair.ahead()));
            }
        }
        most
    }

    /// The before number of ACT `t` where it stands behind this place in the list and is not doomed, or 0.
    fn number_of(&self, at: usize, t: Tid) -> Bid
        requires { at < length self.now }
        ensures { result.0 ≡ before_undoomed (act_of t.0 (drop (at + 1) self.now)) }
    {
        let tids = self.tids.as_slice();
        let next = at + 1;
        let place = next + place_in(&tids[next..], t.0);
        if self.acts.is_given_up(place) {
            Bid(0)
        } else {
            self.acts.before(place)
        }
    }
}

/// The place of a number among rising ones, or their length. Mostly it is one of the last, as that of a live ACT.
fn place_in(tids: &[u64], t: u64) -> usize
    requires { Ascends tids.now }
    ensures { result ≡ position_or_len (λ n. n == t) tids.now }
{
    let mut at = tids.len();
    let first = at.saturating_sub(LAST_FEW);
    while at > first {
        at -= 1;
        if tids[at] == t {
            return at;
        }
        if tids[at] < t {
            return tids.len();
        }
    }
    place_among_all(tids, t)
}

fn place_among_all(tids: &[u64], t: u64) -> usize
    requires { Ascends tids.now }
    ensures { result ≡ position_or_len (λ n. n == t) tids.now }
{
    match tids.binary_search(&t) {
        Ok(at) => at,
        Err(_) => tids.len(),
    }
}

fn tid_at(by_tx: &[Option<u64>], tx: TxNo) -> Option<Tid>
    ensures { option_map tid_number result ≡ slice_index_or by_tx.now tx.0 None }
{
    match by_tx.get(tx.0 as usize) {
        Some(Some(tid)) => Some(Tid(*tid)),
        _ => None,
    }
}

/// How many are live, where one of them was and is live or not.
fn recounted(live: usize, was: bool, is: bool) -> usize
    requires was { one_if was ≤ live }
    requires fits { live + one_if is < 2 ^ 64 }
    ensures { result + one_if was ≡ live + one_if is }
{
    match (was, is) {
        (true, false) => live - 1,
        (false, true) => live + 1,
        _ => live,
    }
}

/// Room to list one more, and a place for its transaction.
fn make_room(tids: &mut Vec<u64>, by_tx: &mut Vec<Option<u64>>, tx: TxNo) -> Result<(), Memory>
    ensures tids { tids.new.items ≡ tids.old.items }
    ensures same { (n : ℕ) → slice_index_or by_tx.new.items n None ≡ slice_index_or by_tx.old.items n None }
    ensures ok { OnOk result (tx.0 < length by_tx.new.items) }
    ensures room { OnOk result (vec_len tids.new < vec_capacity tids.new) }
{
    tids.reserve(1)?;
    grow(by_tx, tx.0 as usize)?;
    Ok(())
}

/// Places for the transactions up to this one.
fn grow(by_tx: &mut Vec<Option<u64>>, upto: usize) -> Result<(), Memory>
    ensures same { (n : ℕ) → slice_index_or by_tx.new.items n None ≡ slice_index_or by_tx.old.items n None }
    ensures ok { OnOk result (upto < length by_tx.new.items) }
{
    while by_tx.len() <= upto {
        by_tx.push(None)?;
    }
    Ok(())
}

/// ACT `t` is one of this transaction; the first stays.
fn note(by_tx: &mut Vec<Option<u64>>, tx: TxNo, t: Tid)
    requires { tx.0 < length by_tx.old.items }
    ensures { (n : ℕ) → slice_index_or by_tx.new.items n None ≡ first_kept (slice_index_or by_tx.old.items n None) (tx.0 == n) t.0 }
{
    let place = tx.0 as usize;
    if by_tx[place].is_none() {
        by_tx[place] = Some(t.0);
    }
}
