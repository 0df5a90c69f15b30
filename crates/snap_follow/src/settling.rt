//! Whom a round takes: of those whose commits the round before read, all but those that rest on somebody who is left out.
ghost use Rattle.std.specs.Prelude.{◌≡◌, ℕ, ◌%◌, ◌<◌, [], ◌∷◌, length, MatchOption, IfOk, OnOk};
ghost use Rattle.txn_records.specs.declared.keys.Key.{Key};
ghost use Rattle.snap_recover.specs.Logs.{states_in};
ghost use Rattle.snap_follow.specs.Followed.{Tells};
ghost use Rattle.snap_follow.specs.Passes.{AddsLeaving, AreLeaving, BlocksOwn, HoldsOwn, IsSettled, LeavesBlocked, NotesBlocked, NotesLeaving, NotesStates, Settles};

use crate::changing::changes;
use crate::commits::{Commits, has, remove_all};
use snap_base::{Memory, Sequence, State};
use std::alloc::Global;
use std::collections::{BTreeMap, BTreeSet};
use txn_records::{Key, Record};

/// Leaves out of the set whoever rests on somebody who is committed and not in it, again and again, until there is none. Who
/// was taken before stays. The actors began with the states `first`. Each pass but the last one leaves out somebody, so there are at most as many passes as those that
/// are left out, and one.
pub(crate) fn settle(
    alloc: Global,
    now: &[Sequence<Record>],
    first: &[State],
    there: &Commits,
    taken: &Commits,
    set: &mut Commits,
) -> Result<(), Memory>
    requires some { 0 < length now.now }
    ensures settles { OnOk result (Settles first.now there.now taken.now now.now set.old set.new) }
    ensures settled { OnOk result (IsSettled first.now there.now taken.now now.now set.new) }
{
    'pass: loop {
        let leaving = leaving_in(alloc, now, first, there, taken, set)?;
        if leaving.len() == 0 {
            return Ok(());
        }
        remove_all(set, leaving.as_slice());
    }
}

/// The keys of those of the set that are new and rest on somebody who is committed and not in it, by one pass over each log.
fn leaving_in(
    alloc: Global,
    now: &[Sequence<Record>],
    first: &[State],
    there: &Commits,
    taken: &Commits,
    set: &Commits,
) -> Result<Sequence<Key>, Memory>
    requires some { 0 < length now.now }
    ensures { IfOk result (λ leaving. AreLeaving first.now there.now taken.now set.now now.now leaving) }
{
    let mut leaving = Sequence::new(alloc);
    let count = now.len() as u64;
    for i in 0..now.len() {
        let rs = now[i].as_slice();
        add_leaving(
            alloc,
            &mut leaving,
            rs,
            i as u64,
            count,
            first,
            there,
            taken,
            set,
        )?;
    }
    Ok(leaving)
}

/// Adds those of this log, number `log` of `logs`.
fn add_leaving(
    alloc: Global,
    leaving: &mut Sequence<Key>,
    rs: &[Record],
    log: u64,
    logs: u64,
    first: &[State],
    there: &Commits,
    taken: &Commits,
    set: &Commits,
) -> Result<(), Memory>
    requires some { 0 < logs }
    ensures { OnOk result (AddsLeaving first.now there.now taken.now set.now log logs rs.now leaving.old leaving.new) }
{
    let mut blocked = BTreeSet::new(alloc);
    let mut states = BTreeMap::new(alloc);
    for r in rs {
        note(
            leaving,
            &mut blocked,
            &mut states,
            r,
            log,
            logs,
            first,
            there,
            taken,
            set,
        )?;
    }
    Ok(())
}

/// Adds the one whose record this is, where it is new and its actor blocked. Where it is left out, and the record tells another state
/// than is held of its actor, the actor is blocked from here on. Where it is committed the state is held of the actor from here on.
fn note(
    leaving: &mut Sequence<Key>,
    blocked: &mut BTreeSet<u16>,
    states: &mut BTreeMap<u16, State>,
    r: &Record,
    log: u64,
    logs: u64,
    first: &[State],
    there: &Commits,
    taken: &Commits,
    set: &Commits,
) -> Result<(), Memory>
    requires some { 0 < logs }
    ensures leaving { OnOk result (NotesLeaving taken.now set.now log logs r.now blocked.old leaving.old leaving.new) }
    ensures blocked { OnOk result (NotesBlocked first.now there.now set.now log logs r.now states.old blocked.old blocked.new) }
    ensures states { OnOk result (NotesStates first.now there.now log logs r.now states.old states.new) }
{
    let Some((key, actor, state)) = told_here(r, log, logs) else {
        return Ok(());
    };
    add_blocked(leaving, blocked, key, actor, taken, set)?;
    note_blocked(blocked, states, key, actor, state, first, there, set)?;
    Ok(())
}

/// Adds this one, where it is new and the actor blocked.
fn add_blocked(
    leaving: &mut Sequence<Key>,
    blocked: &BTreeSet<u16>,
    key: Key,
    actor: u16,
    taken: &Commits,
    set: &Commits,
) -> Result<(), Memory>
    ensures { OnOk result (LeavesBlocked taken.now set.now key actor blocked.now leaving.old leaving.new) }
{
    let is_blocked = blocked.contains(&actor);
    if !is_blocked {
        return Ok(());
    }
    let is_in = has(set, key);
    if !is_in {
        return Ok(());
    }
    let was_taken = has(taken, key);
    if was_taken {
        return Ok(());
    }
    leaving.push(key)?;
    Ok(())
}

/// The actor is blocked from here on, where this one is left out and changes it to this state.
fn note_blocked(
    blocked: &mut BTreeSet<u16>,
    states: &mut BTreeMap<u16, State>,
    key: Key,
    actor: u16,
    state: &State,
    first: &[State],
    there: &Commits,
    set: &Commits,
) -> Result<(), Memory>
    ensures blocked { OnOk result (BlocksOwn first.now there.now set.now key actor state.now states.old blocked.old blocked.new) }
    ensures states { OnOk result (HoldsOwn first.now there.now key actor state.now states.old states.new) }
{
    let changed = changes(states, first, there, key, actor, state)?;
    if !changed {
        return Ok(());
    }
    let is_in = has(set, key);
    if is_in {
        return Ok(());
    }
    blocked.insert(actor)?;
    Ok(())
}

/// The key of the commit of the one whose state of an actor the record tells, the actor, and the state, where the log is that actor's.
pub(crate) fn told_here(r: &Record, log: u64, logs: u64) -> Option<(Key, u16, &State)>
    requires some { 0 < logs }
    ensures { MatchOption result ((a : ℕ) (k : Key) → a % logs ≡ log → ¬ Tells a k r.now) (λ x. (x.1 % logs ≡ log) × Tells x.1 x.0 r.now × (states_in r.now ≡ x.2.now ∷ [])) }
{
    match r {
        Record::BatchComplete { bid, actor, state } if actor.0 as u64 % logs == log => {
            Some((Key::Commit(*bid), actor.0, state))
        }
        Record::ActPrepare { tid, actor, state } if actor.0 as u64 % logs == log => {
            Some((Key::Act(*tid), actor.0, state))
        }
        _ => None,
    }
}
