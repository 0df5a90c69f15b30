//! A round: its checks, in the order in which a refusal is told, and what it finds.
ghost use Rattle.std.specs.Prelude.{◌≡◌, ◌<◌, ◌≤◌, ⊤, None, [], length, IfOk, MatchOption, MatchResult};
ghost use Rattle.std.specs.List.{AllByRecursion};
ghost use Rattle.log_compact.specs.Sets.{HasNoStray};
ghost use Rattle.snap_recover.specs.Logs.{all_of, geneses};
ghost use Rattle.snap_recover.specs.Opening.{AreBegunWith, AreWhollyCommitted, IsInRange};
ghost use Rattle.snap_follow.specs.Finding.{IsFound, IsSettledFrom, LeavesStates};
ghost use Rattle.snap_follow.specs.Passes.{IsBadBeginning, IsNotWhole, chosen_lists};
ghost use Rattle.snap_follow.specs.Refusals.{IsNotFollowed};
ghost use Rattle.snap_follow.specs.Rounds.{AreInLists};

use crate::FollowNo;
use crate::choosing::{chosen, members_of};
use crate::commits::{Commits, commits_of_members};
use crate::comparing::first_back;
use crate::ordering::settle_in_order;
use crate::plain::plain_copies;
use crate::reading::commits_in;
use snap_base::{Memory, Sequence, State};
use snap_recover::{Kept, RecoverNo, committed, first_states, replayed};
use std::alloc::Global;
use txn_records::Record;

/// What a round finds.
#[derive(Drop)]
pub(crate) struct Found {
    /// The members, in the order of their places.
    pub(crate) members: Sequence<Kept>,
    /// The states that they left; none where there is no Genesis.
    pub(crate) states: Option<Sequence<State>>,
}

/// What a round over these lists finds, where the round before read those and these were the members.
pub(crate) fn find(
    alloc: Global,
    before: &[Sequence<Record>],
    members: &[Kept],
    lists: &[Sequence<Record>],
) -> Result<Found, FollowNo>
    requires some { 0 < length before.now }
    requires few { length before.now ≤ 4 }
    requires as_many { length lists.now ≡ length before.now }
    requires no_stray { HasNoStray lists.now }
    requires are_in { AreInLists before.now members.now }
    ensures { MatchResult result (λ found. IsFound before.now members.now lists.now found) (λ no. IsNotFollowed before.now lists.now no) }
{
    if let Some(log) = first_back(before, lists) {
        return Err(FollowNo::Back { log: log as u8 });
    }
    let now = plain_copies(alloc, lists)?;
    let first = first_read(now.as_slice())?;
    let seen = commits_in(alloc, before)?;
    let whole = seen_whole(alloc, now.as_slice(), &seen)?;
    let taken = commits_of_members(alloc, members)?;
    let begun = begun_states(first);
    let set = settled(alloc, now.as_slice(), begun, &taken, whole.as_slice(), seen)?;
    let states = states_left(alloc, now.as_slice(), first, &set)?;
    let members = members_of(whole, &set);
    Ok(Found { members, states })
}

/// The states with which the logs began; none where they have no Genesis yet.
fn first_read(now: &[Sequence<Record>]) -> Result<Option<&Sequence<State>>, FollowNo>
    ensures { MatchResult result
        (λ first. MatchOption first (geneses now.now ≡ []) (λ f. AreBegunWith now.now f.now))
        (λ no. IsBadBeginning now.now no) }
{
    match first_states(now) {
        Ok(first) => Ok(Some(first)),
        Err(RecoverNo::NoGenesis) => Ok(None),
        Err(RecoverNo::TwoGenesis) => Err(FollowNo::TwoGenesis),
        Err(RecoverNo::LogCount { kept, found }) => Err(FollowNo::LogCount { kept, found }),
        Err(RecoverNo::Range { key, log }) => Err(FollowNo::Range { key, log }),
        Err(RecoverNo::Missing { .. }) => unreachable!(),
        Err(RecoverNo::Values { .. }) => unreachable!(),
        Err(RecoverNo::Memory) => unreachable!(),
    }
}

/// What is committed of those commits alone that the round before read, where nothing is lacking of it.
fn seen_whole(
    alloc: Global,
    now: &[Sequence<Record>],
    seen: &Commits,
) -> Result<Sequence<Kept>, FollowNo>
    requires some { 0 < length now.now }
    requires few { length now.now ≤ 4 }
    ensures { MatchResult result (λ whole. AreWhollyCommitted (chosen_lists seen.now now.now) whole) (λ no. IsNotWhole (chosen_lists seen.now now.now) no) }
{
    let some = chosen(alloc, now, seen)?;
    match committed(alloc, some.as_slice()) {
        Ok(whole) => Ok(whole),
        Err(RecoverNo::NoGenesis) => unreachable!(),
        Err(RecoverNo::TwoGenesis) => unreachable!(),
        Err(RecoverNo::LogCount { .. }) => unreachable!(),
        Err(RecoverNo::Range { .. }) => unreachable!(),
        Err(RecoverNo::Missing { key, log }) => Err(FollowNo::Missing { key, log }),
        Err(
            RecoverNo::Values {
                key,
                log,
                kept,
                found,
            },
        ) => Err(FollowNo::Values {
            key,
            log,
            kept,
            found,
        }),
        Err(RecoverNo::Memory) => Err(FollowNo::Memory),
    }
}

/// The states with which the actors began, as far as they are known.
fn begun_states(first: Option<&Sequence<State>>) -> &[State]
    ensures { MatchOption first.entry (result.now ≡ []) (λ f. result.now ≡ f.now) }
{
    match first {
        Some(first) => first.as_slice(),
        None => &[],
    }
}

/// Whom the round takes: of those whose commits the round before read, all but those that rest on somebody who is left out.
fn settled(
    alloc: Global,
    now: &[Sequence<Record>],
    first: &[State],
    taken: &Commits,
    whole: &[Kept],
    seen: Commits,
) -> Result<Commits, Memory>
    requires some { 0 < length now.now }
    ensures { IfOk result (λ set. IsSettledFrom now.now first.now taken.now seen set) }
{
    let there = commits_in(alloc, now)?;
    let mut set = seen;
    settle_in_order(alloc, now, first, &there, taken, whole, &mut set)?;
    Ok(set)
}

/// The states of the actors after the commits of the set alone; none where there is no Genesis.
fn states_left(
    alloc: Global,
    now: &[Sequence<Record>],
    first: Option<&Sequence<State>>,
    set: &Commits,
) -> Result<Option<Sequence<State>>, Memory>
    requires some { 0 < length now.now }
    requires range { MatchOption first ⊤ (λ f. AllByRecursion (IsInRange (length f.now)) (all_of now.now)) }
    ensures { IfOk result (λ found. MatchOption first.entry (found ≡ None) (λ f. LeavesStates set.now now.now f.now found)) }
{
    let Some(first) = first else {
        return Ok(None);
    };
    let some = chosen(alloc, now, set)?;
    let states = replayed(alloc, some.as_slice(), first.as_slice())?;
    Ok(Some(states))
}
