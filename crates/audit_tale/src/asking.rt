//! What the event Ask adds: an ACT that an older one is in the way of is given up; any other one stands on the actor, behind
//! those that it can't stand beside.
ghost use Rattle.std.specs.Prelude.{◌≡◌, ℕ, ◌<◌, max, Bool, true, false, if◌then◌else◌, Some, None, [], ◌∷◌, ◌++◌, length, map, OnOk, MatchOption};
ghost use Rattle.std.specs.List.{AllByRecursion};
ghost use Rattle.snap_base.specs.declared.transactions.Tx as base;
ghost use Rattle.protocol.specs.Events as machine;
ghost use Rattle.protocol.specs.Fixed.{Text};
ghost use Rattle.protocol.specs.Words as words;
ghost use Rattle.audit_words.specs.Happenings as happenings;
ghost use Rattle.audit_words.specs.Seen.{Seen, was_admitted};
ghost use Rattle.audit_tale.specs.GivenUp.{ChangesWaiters};
ghost use Rattle.audit_tale.specs.Knows.{RiseFrom, owner_of};
ghost use Rattle.audit_tale.specs.Rivalry.{Enters, locks, pairs_of, with_entry};
ghost use Rattle.audit_tale.specs.Stands.{IsSound, KnowsAll};
ghost use Rattle.audit_tale.specs.declared.tales.Owner.TheVariants as owners;

use crate::giving_up::{cross_each, give_up};
use crate::rising::{later, rise};
use crate::tail_group::{
    greatest_before, least_older, not_given_up, rivals_in, stands, tail_group,
};
use crate::tales::Reason;
use crate::telling::act_at;
use crate::told::{ActTies, ActorTale, Told, Waiter};
use snap_base::{ActorId, Bid, Memory, Tid, Who};
use std::alloc::Global;

/// ACT t asks for an actor. Where it did not begin, or is given up, or the actor does not exist, or it stands there, nothing
/// changes. After `Memory` nothing is said of what is told. It costs what stands on the actor, and who rises.
pub(crate) fn ask(alloc: Global, told: &mut Told, t: Tid, a: ActorId) -> Result<(), Memory>
    ensures { OnOk result ((reads : base.Tx → Bool) (w : Text) (s : Seen) → IsSound s → KnowsAll w told.old s → KnowsAll w told.new (happenings.happened reads w (machine.Ask t.0 a.0) s)) }
{
    let Some(at) = asker(told, t, a) else {
        return Ok(());
    };
    let reader = told.tale.acts[at].reader;
    let tail = tail_group(alloc, told.actors[a.0 as usize].entries.as_slice())?;
    let met = rivals_in(alloc, &told.tale, tail.as_slice(), reader)?;
    let Some(older) = least_older(t, met.as_slice()) else {
        return stand(alloc, told, at, t, a, met.as_slice());
    };
    give_up(told, at, Reason::Older(a, older));
    Ok(())
}

/// Where the ACT is kept that asks; `None` exactly where its Ask changes nothing.
fn asker(told: &Told, t: Tid, a: ActorId) -> Option<usize>
    ensures { MatchOption result ((w : Text) (s : Seen) → KnowsAll w told.now s → happenings.may_ask w t.0 a.0 s ≡ false) (λ at. (at < length told.now.tale.acts.items) × (a.0 < length told.now.actors.items) × (owner_of t.0 told.now.tale.owners.items ≡ Some (owners.Act at)) × ((w : Text) (s : Seen) → KnowsAll w told.now s → happenings.may_ask w t.0 a.0 s ≡ true)) }
{
    let Some(at) = act_at(&told.tale, t) else {
        return None;
    };
    if told.tale.acts[at].given_up.is_some() {
        return None;
    }
    let place = a.0 as usize;
    if place >= told.actors.len() {
        return None;
    }
    if stands(told.actors[place].entries.as_slice(), t) {
        return None;
    }
    Some(at)
}

/// The ACT stands last on the actor, behind those of its rivals there that are not given up; its number rises, and with it
/// that of those that stand behind it elsewhere; and who crosses is given up.
fn stand(
    alloc: Global,
    told: &mut Told,
    at: usize,
    t: Tid,
    a: ActorId,
    met: &[Tid],
) -> Result<(), Memory>
    requires act { at < length told.old.tale.acts.items }
    requires actor { a.0 < length told.old.actors.items }
    ensures { OnOk result ((w : Text) (s : Seen) → IsSound s → KnowsAll w told.old s → owner_of t.0 told.old.tale.owners.items ≡ Some (owners.Act at) → happenings.may_ask w t.0 a.0 s ≡ true → locks s met.now ≡ happenings.met t.0 a.0 s → words.least_older t.0 (happenings.met t.0 a.0 s) ≡ None → KnowsAll w told.new (happenings.cross_out a.0 (happenings.act_placed_last t.0 a.0 s))) }
{
    let ahead = not_given_up(alloc, &told.tale, met)?;
    let number = number_behind(told, at, a, ahead.as_slice());
    stand_last(told, a, t)?;
    wait_behind(told, ahead.as_slice(), t, a)?;
    let risen = rise(alloc, told, at, t, number)?;
    cross_each(told, risen.as_slice(), a);
    Ok(())
}

/// The greatest batch before the ACT that is kept at `at`, once it stands on the actor behind these.
fn number_behind(told: &Told, at: usize, a: ActorId, ahead: &[Tid]) -> Bid
    requires act { at < length told.now.tale.acts.items }
    requires actor { a.0 < length told.now.actors.items }
    ensures { (w : Text) (s : Seen) (t : ℕ) → KnowsAll w told.now s → owner_of t told.now.tale.owners.items ≡ Some (owners.Act at) → AllByRecursion (λ x. was_admitted x.tid s ≡ true) (locks s ahead.now) → locks s ahead.now ≡ happenings.ahead_of t a.0 s → result.0 ≡ max (words.greatest (s.before t)) (words.greatest (happenings.gain t a.0 s)) }
{
    let act = told.tale.acts[at];
    let there = gained_there(&told.actors[a.0 as usize], act.reader);
    let behind = greatest_before(&told.tale, ahead);
    let gained = later(there, behind);
    later(act.before, gained)
}

/// The greatest batch that an ACT gains by what is kept on the actor, and by those that left it sealed.
fn gained_there(actor: &ActorTale, reader: bool) -> Bid
    ensures { result.0 ≡ max actor.now.last.0 (if reader then actor.now.write_floor.0 else actor.now.floor.0) }
{
    if reader {
        return later(actor.last, actor.write_floor);
    }
    later(actor.last, actor.floor)
}

/// The ACT stands last on the actor. After `Memory` nothing is said of what is told; so it is of each call here.
fn stand_last(told: &mut Told, a: ActorId, t: Tid) -> Result<(), Memory>
    requires { a.0 < length told.old.actors.items }
    ensures owners { OnOk result (told.new.tale ≡ told.old.tale) }
    ensures knows { OnOk result ((w : Text) (s : Seen) → KnowsAll w told.old s → KnowsAll w told.new (with_entry t.0 a.0 s)) }
{
    enter(&mut told.actors[a.0 as usize], t)?;
    Ok(())
}

/// ACT t is placed on the actor, and stands there.
fn enter(actor: &mut ActorTale, t: Tid) -> Result<(), Memory>
    ensures { OnOk result (Enters t actor.old actor.new) }
{
    actor.entries.push(Who::Act(t))?;
    actor.placed.push(Who::Act(t))?;
    Ok(())
}

/// ACT t stands behind each of these on the actor.
fn wait_behind(told: &mut Told, ahead: &[Tid], t: Tid, a: ActorId) -> Result<(), Memory>
    ensures owners { OnOk result (told.new.tale ≡ told.old.tale) }
    ensures knows { OnOk result ((w : Text) (s : Seen) → RiseFrom 1 s.acts → KnowsAll w told.old s → KnowsAll w told.new (record s { gains = s.gains ++ pairs_of t.0 a.0 ahead.now })) }
{
    for u in ahead {
        wait_for(told, *u, t, a)?;
    }
    Ok(())
}

/// ACT t stands behind ACT u on the actor. A tid u that no ACT drew changes nothing that is kept.
fn wait_for(told: &mut Told, u: Tid, t: Tid, a: ActorId) -> Result<(), Memory>
    ensures owners { OnOk result (told.new.tale ≡ told.old.tale) }
    ensures knows { OnOk result ((w : Text) (s : Seen) → RiseFrom 1 s.acts → KnowsAll w told.old s → KnowsAll w told.new (record s { gains = s.gains ++ record { behind = t.0; ahead = u.0; actor = a.0 } ∷ [] })) }
{
    let Some(at) = act_at(&told.tale, u) else {
        return Ok(());
    };
    add_waiter(&mut told.ties, at, Waiter { tid: t, actor: a })?;
    Ok(())
}

/// One more stands behind the ACT that is kept at `at`.
fn add_waiter(ties: &mut Vec<ActTies>, at: usize, waiter: Waiter) -> Result<(), Memory>
    ensures { OnOk result (ChangesWaiters at (λ ws. ws ++ waiter ∷ []) ties.old.items ties.new.items) }
{
    if at >= ties.len() {
        return Ok(());
    }
    ties[at].waiters.push(waiter)?;
    Ok(())
}
