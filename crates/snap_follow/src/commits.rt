//! Sets of commits.
ghost use Rattle.std.specs.Prelude.{◌≡◌, ◌<◌, ◌↔◌, List, ◌∷◌, Contains, IsTrue, IfOk, OnOk};
ghost use Rattle.txn_records.specs.declared.keys.Key.{Key};
ghost use Rattle.snap_recover.specs.Opening.{commit_of};
ghost use Rattle.txn_records.specs.declared.keys.Key.TheVariants as keys;
ghost use Rattle.snap_follow.specs.Passes.{AddsCommit, HasMembers, IsInSet, IsOfCommit, Removes, size};

use snap_base::{Bid, Memory, Tid};
use snap_recover::Kept;
use std::alloc::Global;
use std::collections::BTreeSet;
use txn_records::Key;

/// A set of commits: the numbers of batches, and the tids of undeclared transactions. Other keys are in no set.
#[derive(Drop)]
pub(crate) struct Commits {
    pub(crate) batches: BTreeSet<u64>,
    pub(crate) acts: BTreeSet<u64>,
}

/// The empty set.
pub(crate) fn no_commits(alloc: Global) -> Commits
    ensures { (k : Key) → ¬ IsInSet result k }
{
    Commits {
        batches: BTreeSet::new(alloc),
        acts: BTreeSet::new(alloc),
    }
}

/// Whether the set has the commit with this key.
pub(crate) fn has(set: &Commits, key: Key) -> bool
    ensures { IsTrue result ↔ IsInSet set.now key }
{
    match key {
        Key::Commit(bid) => set.batches.contains(&bid.0),
        Key::Act(tid) => set.acts.contains(&tid.0),
        _ => false,
    }
}

/// Adds the commit with this key.
pub(crate) fn add(set: &mut Commits, key: Key) -> Result<(), Memory>
    requires { IsOfCommit key }
    ensures { OnOk result (AddsCommit key set.old set.new) }
{
    match key {
        Key::Commit(bid) => add_batch(set, bid),
        Key::Act(tid) => add_act(set, tid),
        _ => unreachable!(),
    }
}

fn add_batch(set: &mut Commits, bid: Bid) -> Result<(), Memory>
    ensures { OnOk result (AddsCommit (keys.Commit bid) set.old set.new) }
{
    set.batches.insert(bid.0)?;
    Ok(())
}

fn add_act(set: &mut Commits, tid: Tid) -> Result<(), Memory>
    ensures { OnOk result (AddsCommit (keys.Act tid) set.old set.new) }
{
    set.acts.insert(tid.0)?;
    Ok(())
}

/// Takes the commit with this key out of the set.
pub(crate) fn remove(set: &mut Commits, key: Key)
    ensures { Removes key set.old set.new }
{
    match key {
        Key::Commit(bid) => remove_batch(set, bid),
        Key::Act(tid) => remove_act(set, tid),
        _ => (),
    }
}

fn remove_batch(set: &mut Commits, bid: Bid)
    ensures { Removes (keys.Commit bid) set.old set.new }
{
    set.batches.remove(&bid.0);
}

fn remove_act(set: &mut Commits, tid: Tid)
    ensures { Removes (keys.Act tid) set.old set.new }
{
    set.acts.remove(&tid.0);
}

/// Takes the commits with these keys out of the set.
pub(crate) fn remove_all(set: &mut Commits, gone: &[Key])
    ensures others { (k : Key) → IsInSet set.new k ↔ (IsInSet set.old k × ¬ Contains gone.now k) }
    ensures fewer { (k : Key) (more : List Key) → gone.now ≡ k ∷ more → IsInSet set.old k → size set.new < size set.old }
{
    for key in gone {
        remove(set, *key);
    }
}

/// The commits of these members.
pub(crate) fn commits_of_members(alloc: Global, members: &[Kept]) -> Result<Commits, Memory>
    ensures { IfOk result (λ set. HasMembers members.now set) }
{
    let mut set = no_commits(alloc);
    for member in members {
        add(&mut set, key_of_commit(member))?;
    }
    Ok(set)
}

/// The key of the commit of a member.
fn key_of_commit(member: &Kept) -> Key
    ensures key { result ≡ commit_of member.now }
    ensures is_commit { IsOfCommit result }
{
    match member {
        Kept::Batch { bid, .. } => Key::Commit(*bid),
        Kept::Act { tid, .. } => Key::Act(*tid),
    }
}
