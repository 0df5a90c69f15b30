//! What the event Arrive adds to what is told: a batch comes to an actor.
ghost use Rattle.std.specs.Prelude.{◌≡◌, ◌==◌, ◌&&◌, ◌<◌, ◌≤◌, ◌+◌, ◌⊎◌, ℕ, Bool, true, false, not, Some, length, slice_get, OnOk, MatchOption};
ghost use Rattle.std.specs.List.{list_any};
ghost use Rattle.snap_base.specs.declared.ids.ActorId.{ActorId};
ghost use Rattle.snap_base.specs.declared.transactions.SubBatch as parts;
ghost use Rattle.snap_base.specs.declared.transactions.Tx as base;
ghost use Rattle.protocol.specs.Events as machine;
ghost use Rattle.protocol.specs.Fixed.{Text};
ghost use Rattle.protocol.specs.Words.{is_among};
ghost use Rattle.audit_words.specs.Happenings.{happened};
ghost use Rattle.audit_words.specs.Happenings as happenings;
ghost use Rattle.audit_words.specs.Seen.{Seen};
ghost use Rattle.audit_tale.specs.Coming.{CameThere, IsJoined, Joins, Lowers, crossing_of, is_act_at, is_kept_among, is_kept_at, lesser, lowered_act};
ghost use Rattle.audit_tale.specs.Knows.{owner_of};
ghost use Rattle.audit_tale.specs.Fitting.{FitsTale};
ghost use Rattle.audit_tale.specs.Stands.{IsSound, KnowsAll};
ghost use Rattle.audit_tale.specs.Touching.{AreEased, AreTouched};
ghost use Rattle.audit_tale.specs.declared.told.ActorTale.{ActorTale};

use crate::easing::{ease_at, is_live};
use crate::tales::{ActTale, BatchTale, Owner, Reason};
use crate::told::{ActTies, ActorTale, BatchWay, Told};
use protocol::Formed;
use snap_base::{ActorId, Bid, Memory, SubBatch, Tid, Who};

/// Batch k comes to actor a: it stands last there, behind each live ACT that stands there, and who crosses so is given up.
/// Where the batch was not formed, has nothing for the actor, came there before or was taken along, nothing is added. After
/// `Memory` nothing is said of the told.
pub(crate) fn arrive(told: &mut Told, k: Bid, a: ActorId) -> Result<(), Memory>
    ensures { OnOk result ((reads : base.Tx → Bool) (w : Text) (s : Seen) → IsSound s → FitsTale w s → KnowsAll w told.old s → KnowsAll w told.new (happened reads w (machine.Arrive k.0 a.0) s)) }
{
    if !comes(told, k, a) {
        return Ok(());
    }
    lower_there(told, k, a);
    join_there(told, k, a)
}

// ---- whether it comes

/// Whether the batch was formed, has something for the actor, did not come there before and was not taken along.
fn comes(told: &Told, k: Bid, a: ActorId) -> bool
    ensures within { result ≡ true → (1 ≤ k.0) × (k.0 ≤ length told.now.ways.items) × (a.0 < length told.now.actors.items) }
    ensures value { (w : Text) (s : Seen) → IsSound s → FitsTale w s → KnowsAll w told.now s → result ≡ happenings.comes k.0 a.0 s }
{
    if a.0 as usize >= told.actors.len() {
        return false;
    }
    let Some(at) = place_of_batch(told, k) else {
        return false;
    };
    goes_on(&told.tale.batches[at], &told.ways[at], a)
}

/// Where the batch of a number is kept, and its way; `None` exactly where none was formed with it.
pub(crate) fn place_of_batch(told: &Told, k: Bid) -> Option<usize>
    ensures { MatchOption result (length told.now.ways.items ≡ length told.now.tale.batches.items → (k.0 ≡ 0) ⊎ (length told.now.tale.batches.items < k.0)) (λ at. (k.0 ≡ at + 1) × (at < length told.now.tale.batches.items) × (at < length told.now.ways.items)) }
{
    if k.0 == 0 || k.0 > told.tale.batches.len() as u64 || k.0 > told.ways.len() as u64 {
        return None;
    }
    Some(k.0 as usize - 1)
}

/// Whether a batch that was formed has something for the actor, did not come there before, and was not taken along.
fn goes_on(batch: &BatchTale, way: &BatchWay, a: ActorId) -> bool
    ensures { result ≡ (is_among a.0 batch.now.formed.actors && (not (list_any (λ (b : ActorId). b.0 == a.0) way.now.came.items) && not way.now.is_cut)) }
{
    goes_to(&batch.formed, a) && is_new(way, a)
}

/// Whether a batch has something for the actor.
fn goes_to(formed: &Formed, a: ActorId) -> bool
    ensures { result ≡ is_among a.0 formed.now.actors }
{
    is_told(formed.subs.as_slice(), a)
}

/// Whether one of these is for the actor.
fn is_told(subs: &[SubBatch], a: ActorId) -> bool
    ensures { result ≡ list_any (λ (sub : parts.SubBatch). sub.actor.0 == a.0) subs.now }
{
    subs.iter().any(|sub| sub.actor.0 == a.0)
}

/// Whether a batch did not come to the actor before, and no cascade took it along.
fn is_new(way: &BatchWay, a: ActorId) -> bool
    ensures { result ≡ (not (list_any (λ (b : ActorId). b.0 == a.0) way.now.came.items) && not way.now.is_cut) }
{
    !is_listed(way.came.as_slice(), a) && !way.is_cut
}

/// Whether the actor is one of these.
fn is_listed(actors: &[ActorId], a: ActorId) -> bool
    ensures { result ≡ list_any (λ (b : ActorId). b.0 == a.0) actors.now }
{
    actors.iter().any(|b| b.0 == a.0)
}

// ---- it stands behind the ACTs there

/// The batch stands behind each live ACT that stands on the actor; who crosses so is given up, and nobody gains from it.
fn lower_there(told: &mut Told, k: Bid, a: ActorId)
    requires { a.0 < length told.old.actors.items }
    ensures { (x : ActorTale) → slice_get told.old.actors.items a.0 ≡ Some x → Lowers k a x.entries.items told.old told.new }
{
    let entries = told.actors[a.0 as usize].entries.as_slice();
    let owners = told.tale.owners.as_slice();
    lower_all(entries, owners, told.tale.acts.as_mut_slice(), k, a);
    ease_all(
        entries,
        owners,
        told.tale.acts.as_slice(),
        told.ties.as_mut_slice(),
    );
}

/// The batch stands behind each live ACT among these; who crosses so is given up.
fn lower_all(entries: &[Who], owners: &[Owner], acts: &mut [ActTale], k: Bid, a: ActorId)
    ensures { AreTouched (lowered_act k a) (is_kept_among owners.now entries.now) acts.old acts.new }
{
    for who in entries {
        lower_who(*who, owners, acts, k, a);
    }
}

/// The batch stands behind this one, where it is a live ACT.
fn lower_who(who: Who, owners: &[Owner], acts: &mut [ActTale], k: Bid, a: ActorId)
    ensures { AreTouched (lowered_act k a) (λ i. is_kept_at owners.now i who) acts.old acts.new }
{
    if let Some(at) = place_of(owners, who) {
        lower_at(acts, at, k, a);
    }
}

/// The batch stands behind the ACT at this place, where one is kept there that is live.
fn lower_at(acts: &mut [ActTale], at: usize, k: Bid, a: ActorId)
    ensures { AreTouched (lowered_act k a) (λ i. at == i) acts.old acts.new }
{
    if at < acts.len() {
        acts[at] = lowered(acts[at], k, a);
    }
}

/// Where an ACT that stands somewhere is kept; `None` of a batch, or of an ACT that drew no tid.
fn place_of(owners: &[Owner], who: Who) -> Option<usize>
    ensures { MatchOption result ((i : ℕ) → is_kept_at owners.now i who ≡ false) (λ at. (i : ℕ) → is_kept_at owners.now i who ≡ (at == i)) }
{
    match who {
        Who::Batch(_batch) => None,
        Who::Act(tid) => place_of_act(owners, tid),
    }
}

/// Where the ACT of a tid is kept; `None` where no ACT drew it.
fn place_of_act(owners: &[Owner], t: Tid) -> Option<usize>
    ensures { MatchOption result ((i : ℕ) → is_act_at i (owner_of t.0 owners.now) ≡ false) (λ at. (i : ℕ) → is_act_at i (owner_of t.0 owners.now) ≡ (at == i)) }
{
    if t.0 == 0 || t.0 > owners.len() as u64 {
        return None;
    }
    match owners[t.0 as usize - 1] {
        Owner::Pact(_batch) => None,
        Owner::Act(at) => Some(at),
    }
}

/// An ACT with batch k behind it too, where it is live. It is given up at an event on actor a if it crosses so.
fn lowered(act: ActTale, k: Bid, a: ActorId) -> ActTale
    ensures { result ≡ lowered_act k a act }
{
    if !is_live(&act) {
        return act;
    }
    let least = lesser(k, act.behind);
    ActTale {
        tid: act.tid,
        tx: act.tx,
        reader: act.reader,
        before: act.before,
        behind: Some(least),
        given_up: crossing(act.before, least, a),
        decided: act.decided,
    }
}

/// The lesser of a batch and the least one behind an ACT.
fn lesser(k: Bid, behind: Option<Bid>) -> Bid
    ensures { result ≡ lesser k behind }
{
    match behind {
        None => k,
        Some(least) => { if least.0 < k.0 { least } else { k } }
    }
}

/// Why an ACT is given up of which these are the greatest batch before it and the least behind it; `None` where they don't
/// cross.
fn crossing(before: Bid, behind: Bid, a: ActorId) -> Option<Reason>
    ensures { result ≡ crossing_of before behind a }
{
    if behind.0 <= before.0 {
        Some(Reason::Crossed(before, behind, a))
    } else {
        None
    }
}

/// Nobody gains any more from those of the ACTs among these that are given up.
fn ease_all(entries: &[Who], owners: &[Owner], acts: &[ActTale], ties: &mut [ActTies])
    ensures { AreEased (is_kept_among owners.now entries.now) acts.now ties.old ties.new }
{
    for who in entries {
        ease_who(*who, owners, acts, ties);
    }
}

/// Nobody gains any more from this one, where it is an ACT that is given up.
fn ease_who(who: Who, owners: &[Owner], acts: &[ActTale], ties: &mut [ActTies])
    ensures { AreEased (λ i. is_kept_at owners.now i who) acts.now ties.old ties.new }
{
    if let Some(at) = place_of(owners, who) {
        ease_at(acts, ties, at);
    }
}

// ---- it stands there

/// The batch stands last on the actor, and has come there.
fn join_there(told: &mut Told, k: Bid, a: ActorId) -> Result<(), Memory>
    requires batch { 1 ≤ k.0 }
    requires formed { k.0 ≤ length told.old.ways.items }
    requires actor { a.0 < length told.old.actors.items }
    ensures { OnOk result (Joins k a told.old told.new) }
{
    join(&mut told.actors[a.0 as usize], k)?;
    come(&mut told.ways[k.0 as usize - 1], a)
}

/// The batch stands last on the actor, and is placed there.
fn join(actor: &mut ActorTale, k: Bid) -> Result<(), Memory>
    ensures { OnOk result (IsJoined k actor.old actor.new) }
{
    actor.entries.push(Who::Batch(k))?;
    actor.placed.push(Who::Batch(k))?;
    actor.kept.push(k)?;
    actor.last = actor.last.max(k);
    Ok(())
}

/// The batch was placed on the actor.
fn come(way: &mut BatchWay, a: ActorId) -> Result<(), Memory>
    ensures { OnOk result (CameThere a way.old way.new) }
{
    way.came.push(a)?;
    Ok(())
}
