//! What the event Abort adds to what is told: a cascade takes batches along, and ACTs.
ghost use Rattle.std.specs.Prelude.{◌≡◌, ◌==◌, ◌+◌, ◌<◌, ◌≤◌, ◌^◌, Bool, true, length, map, drop, filter, slice_get};
ghost use Rattle.snap_base.specs.declared.transactions.Tx as base;
ghost use Rattle.protocol.specs.Events as machine;
ghost use Rattle.protocol.specs.Fixed.{Text};
ghost use Rattle.protocol.specs.Words.{holds, is_among};
ghost use Rattle.audit_words.specs.Happenings.{happened};
ghost use Rattle.audit_words.specs.Happenings as happenings;
ghost use Rattle.audit_words.specs.Seen.{Seen};
ghost use Rattle.audit_tale.specs.Cutting.{CutsActs, CutsBatches, Falls, LeavesBelow, cut_act, least_below, marked_cut};
ghost use Rattle.audit_tale.specs.Fitting.{FitsTale};
ghost use Rattle.audit_tale.specs.Knows.{bid_number};
ghost use Rattle.audit_tale.specs.Stands.{IsSound, KnowsAll};
ghost use Rattle.audit_tale.specs.Touching.{AreEased, AreTouched, lives};

use crate::arriving::place_of_batch;
use crate::easing::{ease_at, is_live, is_live_at};
use crate::tales::{ActTale, Reason};
use crate::told::{ActTies, BatchWay, Fall, Told};
use snap_base::Bid;

/// The cascade of batch k: each batch from k on that no cascade took along is taken along, each live ACT that has one of them
/// before it is given up, and none of them stands behind another one any more. Where the batch was not formed, or was taken
/// along, only the ring is cut.
pub(crate) fn abort(told: &mut Told, k: Bid)
    requires { told.old.tale.ring.epoch + 1 < 2 ^ 64 }
    ensures { (reads : base.Tx → Bool) (w : Text) (s : Seen) → IsSound s → FitsTale w s → KnowsAll w told.old s → KnowsAll w told.new (happened reads w (machine.Abort k.0) s) }
{
    if !may_abort(told, k) {
        told.tale.ring.cut();
        return;
    }
    cut_batches(told, k);
    tell_fall(told, k);
    cut_acts(told, k);
    told.tale.ring.cut();
}

/// Whether the batch was formed, and no cascade took it along.
fn may_abort(told: &Told, k: Bid) -> bool
    ensures within { result ≡ true → (1 ≤ k.0) × (k.0 ≤ length told.now.ways.items) }
    ensures value { (w : Text) (s : Seen) → IsSound s → KnowsAll w told.now s → result ≡ happenings.may_abort k.0 s }
{
    match place_of_batch(told, k) {
        None => false,
        Some(at) => !told.ways[at].is_cut,
    }
}

// ---- the batches

/// Each batch from k on that no cascade took along is taken along.
fn cut_batches(told: &mut Told, k: Bid)
    ensures { CutsBatches k told.old told.new }
{
    let left = cut_ways(told.uncut.as_slice(), told.ways.as_mut_slice(), k);
    told.uncut.truncate(left);
}

/// Takes those of the batches along that stand at the end from k on. How many are left before these.
fn cut_ways(uncut: &[Bid], ways: &mut [BatchWay], k: Bid) -> usize
    ensures cut { LeavesBelow k result uncut.now }
    ensures ways { AreTouched marked_cut (λ i. is_among (i + 1) (map bid_number (drop result uncut.now))) ways.old ways.new }
{
    let mut left = uncut.len();
    while left > 0 {
        let last = uncut[left - 1];
        if last.0 < k.0 {
            return left;
        }
        cut_way(ways, last);
        left -= 1;
    }
    0
}

/// Batch k is taken along, where it was formed.
fn cut_way(ways: &mut [BatchWay], k: Bid)
    ensures { AreTouched marked_cut (λ i. k.0 == i + 1) ways.old ways.new }
{
    if k.0 == 0 || k.0 > ways.len() as u64 {
        return;
    }
    ways[k.0 as usize - 1].is_cut = true;
}

/// It is told that a cascade began with batch k: with the last batch that was formed and the number that the next Decide draws.
fn tell_fall(told: &mut Told, k: Bid)
    requires batch { 1 ≤ k.0 }
    requires formed { k.0 ≤ length told.old.ways.items }
    ensures { Falls k told.old told.new }
{
    let fall = Fall {
        upto: Bid(told.tale.batches.len() as u64),
        at: told.tale.next_c,
    };
    told.ways[k.0 as usize - 1].fall = Some(fall);
}

// ---- the ACTs

/// Of the live ACTs those are given up, and nobody gains from them any more, that k or a later batch stands before; behind the
/// others none of these batches stands any more. Who is not live goes out of the list of those that may be.
fn cut_acts(told: &mut Told, k: Bid)
    ensures { CutsActs k told.old told.new }
{
    cut_each(told.going.as_slice(), told.tale.acts.as_mut_slice(), k);
    ease_each(
        told.going.as_slice(),
        told.tale.acts.as_slice(),
        told.ties.as_mut_slice(),
    );
    keep_going(&mut told.going, told.tale.acts.as_slice());
}

/// The ACTs at these places, at the cascade of batch k.
fn cut_each(going: &[usize], acts: &mut [ActTale], k: Bid)
    ensures { AreTouched (cut_act k) (λ i. is_among i going.now) acts.old acts.new }
{
    for at in going {
        cut_at(acts, *at, k);
    }
}

/// The ACT at this place, where one is kept there, at the cascade of batch k.
fn cut_at(acts: &mut [ActTale], at: usize, k: Bid)
    ensures { AreTouched (cut_act k) (λ i. at == i) acts.old acts.new }
{
    if at < acts.len() {
        acts[at] = cut_act(acts[at], k);
    }
}

/// An ACT at the cascade of batch k: where it is live, it is given up if k or a later batch stands before it; else none of these
/// stands behind it any more.
fn cut_act(act: ActTale, k: Bid) -> ActTale
    ensures { result ≡ cut_act k act }
{
    if !is_live(&act) {
        return act;
    }
    if k.0 <= act.before.0 {
        return ActTale {
            tid: act.tid,
            tx: act.tx,
            reader: act.reader,
            before: act.before,
            behind: act.behind,
            given_up: Some(Reason::Taken(k)),
            decided: act.decided,
        };
    }
    ActTale {
        tid: act.tid,
        tx: act.tx,
        reader: act.reader,
        before: act.before,
        behind: least_below(k, act.behind),
        given_up: act.given_up,
        decided: act.decided,
    }
}

/// The least batch behind an ACT, where only those below k are left of them.
fn least_below(k: Bid, behind: Option<Bid>) -> Option<Bid>
    ensures { result ≡ least_below k behind }
{
    match behind {
        None => None,
        Some(least) => { if k.0 <= least.0 { None } else { Some(least) } }
    }
}

/// Nobody gains any more from those of the ACTs at these places that are given up.
fn ease_each(going: &[usize], acts: &[ActTale], ties: &mut [ActTies])
    ensures { AreEased (λ i. is_among i going.now) acts.now ties.old ties.new }
{
    for at in going {
        ease_at(acts, ties, *at);
    }
}

/// Leaves out the places where no live ACT is kept.
fn keep_going(going: &mut Vec<usize>, acts: &[ActTale])
    ensures { going.new.items ≡ filter (λ i. holds lives (slice_get acts.now i)) going.old.items }
{
    going.retain(|at| is_live_at(acts, *at));
}
