//! The follower.
ghost use Rattle.std.specs.Prelude.{◌≡◌, ◌≤◌, [], None, Some, length, replicate, IfErr, IfOk, MatchOption, OnErr, OnOk};
ghost use Rattle.log_compact.specs.Sets.{HasNoStray};
ghost use Rattle.snap_follow.specs.Finding.{newer_states};
ghost use Rattle.snap_follow.specs.Refusals.{IsNotFollowed};
ghost use Rattle.snap_follow.specs.Rounds.{IsRound};

use crate::FollowNo;
use crate::rounds::find;
use snap_base::{Memory, Sequence, State};
use snap_recover::Kept;
use std::alloc::Global;
use std::marker::Model;
use std::mem;
use txn_records::Record;

/// A follower of logs that others write: it reads them in rounds, and knows which transactions of theirs are committed and closed under
/// what they rest on, and the states that these left. Contracts see the lists of its last round, the members, and the states.
#[derive(Drop)]
pub struct Follower {
    before: Sequence<Sequence<Record>>,
    members: Sequence<Kept>,
    states: Option<Sequence<State>>,
}

impl Model for Follower {
    ghost use Rattle.std.specs.Prelude.{◌≤◌, length};
    ghost use Rattle.snap_follow.specs.Rounds.{Following, IsFollower};

    ghost Value = { Following };

    ghost view = { λ f. record { before = f.before; members = f.members; states = f.states } };

    // There are one to four logs, and each member's commit stands in the lists of the last round.
    ghost invariant = { λ f. IsFollower f.before f.members };
}

impl Follower {
    /// A follower of so many logs, one to four, that has read nothing. `Memory` where the list of logs cannot be allocated.
    pub fn new(alloc: Global, logs: u8) -> Result<Follower, Memory>
        requires some { 1 ≤ logs }
        requires few { logs ≤ 4 }
        ensures { IfOk result (λ f. f ≡ record { before = replicate logs []; members = []; states = None }) }
    {
        let before = empty_lists(alloc, logs)?;
        Ok(Follower {
            before,
            members: Sequence::new(alloc),
            states: None,
        })
    }

    /// A round over these lists, one for each log: the records that stand in it now, in order. A checkpoint may stand in second place of
    /// the first list, behind a Genesis with as many states, and nowhere else. Whoever was a member stays one. Others become members
    /// whose commits the round before read, with all that changed an actor ahead of them and are committed, in so far as these
    /// are members too. Where the round is refused the follower stays as it was.
    pub fn round(
        &mut self,
        alloc: Global,
        lists: Sequence<Sequence<Record>>,
    ) -> Result<(), FollowNo>
        requires as_many { length lists ≡ length self.old.before }
        requires no_stray { HasNoStray lists }
        ensures followed { OnOk result (IsRound self.old lists self.new) }
        ensures unchanged { OnErr result (self.new ≡ self.old) }
        ensures refused { IfErr result (λ no. IsNotFollowed self.old.before lists no) }
    {
        let found = find(
            alloc,
            self.before.as_slice(),
            self.members.as_slice(),
            lists.as_slice(),
        )?;
        let old = mem::replace(&mut self.states, None);
        self.before = lists;
        self.members = found.members;
        self.states = newer(found.states, old);
        Ok(())
    }

    /// The state of each actor, in the order of their numbers, as the members left them: of the last round's last record of a member for
    /// the actor, else the checkpoint's, else Genesis's. `None` exactly where no round that was not refused read a Genesis.
    pub fn states(&self) -> Option<&[State]>
        ensures { MatchOption result (self.now.states ≡ None) (λ states. self.now.states ≡ Some states.now) }
    {
        match &self.states {
            Some(states) => Some(states.as_slice()),
            None => None,
        }
    }

    /// The members, in the order of their places.
    pub fn members(&self) -> &[Kept]
        ensures { result.now ≡ self.now.members }
    {
        self.members.as_slice()
    }
}

/// The states that were found, or the old ones where there are none.
fn newer(found: Option<Sequence<State>>, old: Option<Sequence<State>>) -> Option<Sequence<State>>
    ensures { result ≡ newer_states found old }
{
    match found {
        Some(states) => Some(states),
        None => old,
    }
}

/// So many empty lists.
fn empty_lists(alloc: Global, logs: u8) -> Result<Sequence<Sequence<Record>>, Memory>
    ensures { IfOk result (λ lists. lists ≡ replicate logs []) }
{
    let mut lists = Sequence::new(alloc);
    for _log in 0..logs {
        lists.push(Sequence::new(alloc))?;
    }
    Ok(lists)
}
