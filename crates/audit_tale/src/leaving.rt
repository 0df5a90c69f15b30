//! What the events Run, Trim, Rollback and Finish add to what is told: who ran on an actor, and who leaves it.
ghost use Rattle.std.specs.Prelude.{◌≡◌, ◌<◌, Bool, not, ◌&&◌, ◌==◌, filter, is_some, length, map, slice_index_or, slice_set, OnOk};
ghost use Rattle.std.specs.List.{list_any};
ghost use Rattle.snap_base.specs.declared.transactions.Tx as base;
ghost use Rattle.protocol.specs.Events as machine;
ghost use Rattle.protocol.specs.Fixed.{Text};
ghost use Rattle.protocol.specs.Meant.{who_meant};
ghost use Rattle.protocol.specs.Parts.{OfAct, OfBatch};
ghost use Rattle.protocol.specs.Words.{greatest, is_who};
ghost use Rattle.audit_words.specs.Happenings.{happened};
ghost use Rattle.audit_words.specs.Seen.{Seen};
ghost use Rattle.audit_tale.specs.Knows.{bid_number};
ghost use Rattle.audit_tale.specs.Leaves.{LeavesActor, Unties, cut_by, goes_by, risen, staying_by};
ghost use Rattle.audit_tale.specs.Stands.{IsSound, KnowsAll};

use crate::tales::ActTale;
use crate::telling::act_at;
use crate::told::{ActTies, ActorTale, BatchWay, Told, Waiter};
use snap_base::{ActorId, Bid, Memory, Tid, Who};

// ---- who is meant

/// Whether it is the batch.
fn is_batch(who: &Who, k: Bid) -> bool
    ensures { result ≡ is_who (who_meant who.now) (OfBatch k.0) }
{
    match *who {
        Who::Batch(j) => j.0 == k.0,
        Who::Act(_t) => false,
    }
}

/// Whether it is the ACT.
fn is_act(who: &Who, t: Tid) -> bool
    ensures { result ≡ is_who (who_meant who.now) (OfAct t.0) }
{
    match *who {
        Who::Batch(_k) => false,
        Who::Act(u) => u.0 == t.0,
    }
}

/// The batch leaves.
fn drop_batch(entries: &mut Vec<Who>, k: Bid)
    ensures { entries.new.items ≡ filter (λ who. not (is_who (who_meant who) (OfBatch k.0))) entries.old.items }
{
    entries.retain(|who| !is_batch(who, k));
}

/// The ACT leaves.
fn drop_act(entries: &mut Vec<Who>, t: Tid)
    ensures { entries.new.items ≡ filter (λ who. not (is_who (who_meant who) (OfAct t.0))) entries.old.items }
{
    entries.retain(|who| !is_act(who, t));
}

/// Whether the ACT stands there.
fn has_act(entries: &[Who], t: Tid) -> bool
    ensures { result ≡ list_any (λ who. is_who (who_meant who) (OfAct t.0)) entries.now }
{
    entries.iter().any(|who| is_act(who, t))
}

// ---- a slice runs, a batch is trimmed

/// Transaction t runs on actor a. Where there is no such actor nothing is kept. After `Memory` nothing is said of what is told.
pub(crate) fn run(told: &mut Told, t: Tid, a: ActorId) -> Result<(), Memory>
    ensures { OnOk result ((reads : base.Tx → Bool) (w : Text) (s : Seen) → IsSound s → KnowsAll w told.old s → KnowsAll w told.new (happened reads w (machine.Run t.0 a.0) s)) }
{
    let at = a.0 as usize;
    if at >= told.actors.len() {
        return Ok(());
    }
    told.actors[at].ran.push(t)?;
    Ok(())
}

/// Batch k leaves actor a. Where it does not stand there, or there is no such actor, nothing changes.
pub(crate) fn trim(told: &mut Told, k: Bid, a: ActorId)
    ensures { (reads : base.Tx → Bool) (w : Text) (s : Seen) → IsSound s → KnowsAll w told.old s → KnowsAll w told.new (happened reads w (machine.Trim k.0 a.0) s) }
{
    let at = a.0 as usize;
    if at >= told.actors.len() {
        return;
    }
    drop_batch(&mut told.actors[at].entries, k);
}

// ---- a rollback

/// Whether a cascade took the batch along; not where none was formed with its number.
fn is_cut(ways: &[BatchWay], k: Bid) -> bool
    ensures { result ≡ cut_by ways.now k.0 }
{
    if k.0 == 0 || k.0 > ways.len() as u64 {
        return false;
    }
    ways[k.0 as usize - 1].is_cut
}

/// Whether it goes at a rollback: a cut batch does, and an ACT where one was passed.
fn goes(ways: &[BatchWay], passed: bool, who: Who) -> bool
    ensures { result ≡ goes_by (cut_by ways.now) passed (who_meant who) }
{
    match who {
        Who::Batch(k) => is_cut(ways, k),
        Who::Act(_t) => passed,
    }
}

/// The cut batches leave, and the ACTs behind the first of them.
fn drop_cut(entries: &mut Vec<Who>, ways: &[BatchWay])
    ensures { entries.new.items ≡ staying_by ways.now entries.old.items }
{
    let mut put = 0;
    let mut passed = false;
    for at in 0..entries.len() {
        let who = entries[at];
        if goes(ways, passed, who) {
            passed = true;
        } else {
            entries[put] = who;
            put += 1;
        }
    }
    entries.truncate(put);
}

/// The cut batches go.
fn drop_cut_batches(kept: &mut Vec<Bid>, ways: &[BatchWay])
    ensures { kept.new.items ≡ filter (λ k. not (cut_by ways.now k.0)) kept.old.items }
{
    kept.retain(|k| !is_cut(ways, *k));
}

/// The greatest of them; 0 of none.
fn greatest_of(kept: &[Bid]) -> Bid
    ensures { result.0 ≡ greatest (map bid_number kept.now) }
{
    let mut most = 0;
    for k in kept {
        most = most.max(k.0);
    }
    Bid(most)
}

/// Actor a is rolled back. Where there is no such actor nothing changes.
pub(crate) fn rollback(told: &mut Told, a: ActorId)
    ensures { (reads : base.Tx → Bool) (w : Text) (s : Seen) → IsSound s → KnowsAll w told.old s → KnowsAll w told.new (happened reads w (machine.Rollback a.0) s) }
{
    let at = a.0 as usize;
    if at >= told.actors.len() {
        return;
    }
    let actor = &mut told.actors[at];
    drop_cut(&mut actor.entries, &told.ways);
    drop_cut_batches(&mut actor.kept, &told.ways);
    actor.last = greatest_of(&actor.kept);
}

// ---- an ACT leaves

/// A floor, risen to this batch where somebody leaves sealed.
fn floor_behind(floor: Bid, sealed: bool, before: Bid) -> Bid
    ensures { result.0 ≡ risen sealed before.0 floor.0 }
{
    if sealed && floor.0 < before.0 {
        return before;
    }
    floor
}

/// Whether an ACT that leaves now leaves sealed: it has its place, and is not given up.
fn seals(act: &ActTale) -> bool
    ensures { result ≡ (act.now.decided && not (is_some act.now.given_up)) }
{
    act.decided && act.given_up.is_none()
}

/// The ACT leaves the actor. Where it leaves sealed the floors rise to the greatest batch before it, that of writers only
/// where it is one.
fn leave(actor: &mut ActorTale, act: &ActTale, sealed: bool)
    ensures { LeavesActor act.now sealed actor.old actor.new }
{
    drop_act(&mut actor.entries, act.tid);
    actor.floor = floor_behind(actor.floor, sealed, act.before);
    actor.write_floor = floor_behind(actor.write_floor, sealed && !act.reader, act.before);
}

/// Who waits on the actor goes.
fn drop_waiters(waiters: &mut Vec<Waiter>, a: ActorId)
    ensures { waiters.new.items ≡ filter (λ x. not (x.actor.0 == a.0)) waiters.old.items }
{
    waiters.retain(|x| x.actor.0 != a.0);
}

/// Nobody gains from the ACT on the actor any more; where it leaves it sealed, that is kept. After `Memory` nothing is said of
/// the ties.
fn untie(ties: &mut ActTies, a: ActorId, sealed: bool) -> Result<(), Memory>
    ensures { OnOk result (Unties a sealed ties.old ties.new) }
{
    drop_waiters(&mut ties.waiters, a);
    if sealed {
        ties.left.push(a)?;
    }
    Ok(())
}

/// ACT t leaves actor a. Where it does not stand there nothing changes. After `Memory` nothing is said of what is told.
pub(crate) fn finish(told: &mut Told, t: Tid, a: ActorId) -> Result<(), Memory>
    ensures { OnOk result ((reads : base.Tx → Bool) (w : Text) (s : Seen) → IsSound s → KnowsAll w told.old s → KnowsAll w told.new (happened reads w (machine.Finish t.0 a.0) s)) }
{
    let Some(place) = act_at(&told.tale, t) else {
        return Ok(());
    };
    let at = a.0 as usize;
    if at >= told.actors.len() {
        return Ok(());
    }
    if place >= told.ties.len() {
        return Ok(());
    }
    if !has_act(&told.actors[at].entries, t) {
        return Ok(());
    }
    let act = told.tale.acts[place];
    let sealed = seals(&act);
    leave(&mut told.actors[at], &act, sealed);
    untie(&mut told.ties[place], a, sealed)?;
    Ok(())
}
