//! The greatest batch before an ACT rises, and with it that of whoever stands behind it.
ghost use Rattle.std.specs.Prelude.{◌≡◌, ℕ, ◌+◌, ◌<◌, ◌≤◌, max, true, Some, List, [], ◌∷◌, ◌++◌, length, map, slice_get, slice_index_or, IfOk, OnOk};
ghost use Rattle.std.specs.List.{AllByRecursion};
ghost use Rattle.protocol.specs.Fixed.{Text};
ghost use Rattle.protocol.specs.Words.{greatest, is_among};
ghost use Rattle.audit_words.specs.Seen.{Seen, was_admitted};
ghost use Rattle.audit_tale.specs.Knows.{owner_of};
ghost use Rattle.audit_tale.specs.Risen.{HasRisen, IsClosed, MayRise, behind_it, left_in, lifted, lifted_along, lifted_at, lower, risen, tids};
ghost use Rattle.audit_tale.specs.Stands.{KnowsAll, actor_number};
ghost use Rattle.audit_tale.specs.declared.tales.ActTale.{ActTale};
ghost use Rattle.audit_tale.specs.declared.tales.Owner.TheVariants as owners;

use crate::telling::act_at;
use crate::told::{ActTies, ActorTale, Told, Waiter};
use snap_base::{ActorId, Bid, Memory, Tid};
use std::alloc::Global;

/// The greater of two batches.
pub(crate) fn later(a: Bid, b: Bid) -> Bid
    ensures { result ≡ record { 0 = max a.0 b.0 } }
{
    Bid(a.0.max(b.0))
}

/// ACT t, which is kept at `at`, rises to a number that it is not above, and with it whoever stands behind it and is below.
/// Gives the tids of those that rose, and t. After `Memory` nothing is said of what is told.
pub(crate) fn rise(
    alloc: Global,
    told: &mut Told,
    at: usize,
    t: Tid,
    number: Bid,
) -> Result<Vec<Tid>, Memory>
    requires { at < length told.old.tale.acts.items }
    ensures { IfOk result (λ us. (w : Text) (s : Seen) → MayRise s → KnowsAll w told.old s → owner_of t.0 told.old.tale.owners.items ≡ Some (owners.Act at) → greatest (s.before t.0) ≤ number.0 → HasRisen w number.0 t.0 (tids us.items) (tids us.items) told.new s) }
{
    let mut rising = Vec::new(alloc);
    rising.push(t)?;
    raise(told, at, number);
    let mut next = 0;
    while next < rising.len() {
        let visited = rising[next];
        lift_waiters(alloc, told, visited, number, &mut rising)?;
        next += 1;
    }
    Ok(rising)
}

/// Whoever stands behind ACT u rises to the number, if it is below, and joins those that rose. After `Memory` nothing is said
/// of what is told.
fn lift_waiters(
    alloc: Global,
    told: &mut Told,
    u: Tid,
    number: Bid,
    rising: &mut Vec<Tid>,
) -> Result<(), Memory>
    ensures longer { OnOk result (length rising.old.items ≤ length rising.new.items) }
    ensures fewer { OnOk result (lower number.0 told.new.tale.acts.items + length rising.new.items ≡ lower number.0 told.old.tale.acts.items + length rising.old.items) }
    ensures more { OnOk result ((us : List ℕ) × (tids rising.new.items ≡ tids rising.old.items ++ us)) }
    ensures knows { OnOk result ((w : Text) (s : Seen) (t : ℕ) (visited : List ℕ) → MayRise s → is_among u.0 (tids rising.old.items) ≡ true → HasRisen w number.0 t (tids rising.old.items) visited told.old s → HasRisen w number.0 t (tids rising.new.items) (visited ++ u.0 ∷ []) told.new s) }
{
    let behind = waiting(alloc, told, u)?;
    for v in &behind {
        lift(told, *v, number, rising)?;
    }
    Ok(())
}

/// The tids of those that stand behind ACT u, once for each actor on which they do. `Memory` where they find no room.
fn waiting(alloc: Global, told: &Told, u: Tid) -> Result<Vec<Tid>, Memory>
    ensures { IfOk result (λ vs. (w : Text) (s : Seen) → KnowsAll w told.now s → was_admitted u.0 s ≡ true → tids vs.items ≡ behind_it u.0 s.gains) }
{
    let Some(at) = act_at(&told.tale, u) else {
        return Ok(Vec::new(alloc));
    };
    let Some(ties) = told.ties.get(at) else {
        return Ok(Vec::new(alloc));
    };
    waiter_tids(alloc, ties.waiters.as_slice())
}

/// The tids of these waiters, in order.
fn waiter_tids(alloc: Global, waiters: &[Waiter]) -> Result<Vec<Tid>, Memory>
    ensures { IfOk result (λ vs. vs.items ≡ map (λ x. x.tid) waiters.now) }
{
    let mut tids = Vec::new(alloc);
    for waiter in waiters {
        tids.push(waiter.tid)?;
    }
    Ok(tids)
}

/// ACT v rises to the number, if it is below, and joins those that rose. A tid that no ACT drew changes nothing.
fn lift(told: &mut Told, v: Tid, number: Bid, rising: &mut Vec<Tid>) -> Result<(), Memory>
    ensures longer { OnOk result (length rising.old.items ≤ length rising.new.items) }
    ensures fewer { OnOk result (lower number.0 told.new.tale.acts.items + length rising.new.items ≡ lower number.0 told.old.tale.acts.items + length rising.old.items) }
    ensures more { OnOk result ((us : List ℕ) × (tids rising.new.items ≡ tids rising.old.items ++ us)) }
    ensures knows { OnOk result ((w : Text) (s : Seen) (t : ℕ) (visited : List ℕ) → MayRise s → ((r : ℕ → ℕ) → IsClosed r s.gains → number.0 ≤ r t → number.0 ≤ r v.0) → HasRisen w number.0 t (tids rising.old.items) visited told.old s → HasRisen w number.0 t (tids rising.new.items) visited told.new s × (was_admitted v.0 s ≡ true → number.0 ≤ greatest (risen number.0 (tids rising.new.items) s.before v.0))) }
{
    let Some(at) = act_at(&told.tale, v) else {
        return Ok(());
    };
    if told.tale.acts[at].before.0 >= number.0 {
        return Ok(());
    }
    rising.push(v)?;
    raise(told, at, number);
    Ok(())
}

/// The ACT that is kept at `at` has this number before it, and so have the floors of the actors that it left sealed.
fn raise(told: &mut Told, at: usize, number: Bid)
    requires { at < length told.old.tale.acts.items }
    ensures fewer { (d : ActTale) → (slice_index_or told.old.tale.acts.items at d).before.0 < number.0 → lower number.0 told.new.tale.acts.items + 1 ≡ lower number.0 told.old.tale.acts.items }
    ensures knows { (w : Text) (s : Seen) (u : ℕ) → MayRise s → KnowsAll w told.old s → owner_of u told.old.tale.owners.items ≡ Some (owners.Act at) → greatest (s.before u) ≤ number.0 → KnowsAll w told.new (record s { before = risen number.0 (u ∷ []) s.before }) }
{
    let reader = told.tale.acts[at].reader;
    told.tale.acts[at].before = number;
    lift_left(&mut told.actors, &told.ties, at, number, reader);
}

/// The floors of the actors that the ACT which is kept at `at` left sealed are at least this number.
fn lift_left(actors: &mut Vec<ActorTale>, ties: &Vec<ActTies>, at: usize, number: Bid, reader: bool)
    ensures { actors.new.items ≡ lifted_along (left_in (slice_get ties.now.items at)) number.0 reader actors.old.items }
{
    match ties.get(at) {
        Some(left) => lift_floors(actors, left.left.as_slice(), number, reader),
        None => {}
    }
}

/// The floors of each of these actors are at least this number: of one that only reads the floor of all alone.
fn lift_floors(actors: &mut Vec<ActorTale>, left: &[ActorId], number: Bid, reader: bool)
    ensures { actors.new.items ≡ lifted_along (map actor_number left.now) number.0 reader actors.old.items }
{
    for actor in left {
        lift_floor(actors, *actor, number, reader);
    }
}

/// The floors of one actor; nothing where there is no such actor.
fn lift_floor(actors: &mut Vec<ActorTale>, a: ActorId, number: Bid, reader: bool)
    ensures { actors.new.items ≡ lifted_at a.0 number.0 reader actors.old.items }
{
    let place = a.0 as usize;
    if place >= actors.len() {
        return;
    }
    lift_both(&mut actors[place], number, reader);
}

/// The floors of an actor, where an ACT that left it sealed rises to this number.
fn lift_both(actor: &mut ActorTale, number: Bid, reader: bool)
    ensures { actor.new ≡ lifted number.0 reader actor.old }
{
    actor.floor = later(actor.floor, number);
    if reader {
        return;
    }
    actor.write_floor = later(actor.write_floor, number);
}
