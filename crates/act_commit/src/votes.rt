//! The votes on all ACTs that ended, found by tid.
ghost use Rattle.std.specs.Prelude.{◌≡◌, ◌<◌, ◌++◌, [], ◌∷◌, None, nat_eq, option_copied, IfOk, OnOk, OnErr};
ghost use Rattle.std.specs.HashMap.{get};
ghost use Rattle.protocol.specs.OnBook.{changed_act};
ghost use Rattle.protocol.specs.Words.{act_of};
ghost use Rattle.act_commit.specs.Changes.{change_of, MayChange};
ghost use Rattle.act_commit.specs.Index.{IsIndex};

use crate::vote::{Change, Vote};
use snap_base::{Memory, Tid};
use std::alloc::Global;
use std::collections::HashMap;
use std::marker::Model;

/// So many ACTs end before room has to grow.
const FIRST_ROOM: usize = 32;

/// The places of so many ACTs are found with no hash.
const AT_HAND: u64 = 64;

/// The ACTs that ended, in the order in which they did.
#[derive(Drop)]
pub(crate) struct Votes {
    list: Vec<Vote>,
    /// Where each stands, by its tid.
    places: HashMap<u64, usize>,
    /// Of the ACTs whose tids leave the same rest by `AT_HAND`, where the last one stands.
    at_hand: [usize; AT_HAND as usize],
}

impl Model for Votes {
    ghost use Rattle.std.specs.Prelude.{List, nat_eq};
    ghost use Rattle.std.specs.HashMap.{get};
    ghost use Rattle.protocol.specs.Parts.{Act};
    ghost use Rattle.act_commit.specs.Index.{IsIndex};

    ghost Value = { List Act };

    ghost view = { λ v. v.list.items };

    ghost invariant = { λ v. IsIndex (get nat_eq v.places) v.list.items };
}

impl Votes {
    /// No votes, with room for the first ones. `Memory` where that room cannot be allocated.
    pub fn new(alloc: Global) -> Result<Votes, Memory>
        ensures { IfOk result (λ v. v ≡ []) }
    {
        Ok(Votes {
            list: Vec::with_capacity(alloc, FIRST_ROOM)?,
            places: HashMap::with_capacity(alloc, FIRST_ROOM)?,
            at_hand: [0; AT_HAND as usize],
        })
    }

    /// Adds the votes on an ACT that has none yet. For want of memory nothing is added.
    pub fn add(&mut self, vote: Vote) -> Result<(), Memory>
        requires { act_of vote.tid self.old ≡ None }
        ensures ok { OnOk result (self.new ≡ self.old ++ vote ∷ []) }
        ensures err { OnErr result (self.new ≡ self.old) }
    {
        let place = self.list.len();
        self.list.reserve(1)?;
        self.places.insert(vote.tid(), place)?;
        self.at_hand[rest_of(vote.tid())] = place;
        let _pushed = self.list.push(vote);
        Ok(())
    }

    /// The votes on ACT `t`, in constant time; `None` exactly where it has not ended.
    pub fn get(&self, t: Tid) -> Option<&Vote>
        ensures { option_copied result ≡ act_of t.0 self.now }
    {
        match place_of(self.list.as_slice(), &self.places, &self.at_hand, t.0) {
            Some(place) => Some(&self.list[place]),
            None => None,
        }
    }

    /// Notes what came about of ACT `t`, if it has votes.
    pub fn change(&mut self, t: Tid, change: Change)
        requires { MayChange change (act_of t.0 self.old) }
        ensures { self.new ≡ changed_act t.0 (change_of change) self.old }
    {
        match place_of(self.list.as_slice(), &self.places, &self.at_hand, t.0) {
            Some(place) => self.list[place].change(change),
            None => {}
        }
    }
}

/// The rest that a tid leaves.
fn rest_of(t: u64) -> usize
    ensures { result < 64 }
{
    (t % AT_HAND) as usize
}

/// The place of an ACT, by its tid.
fn place_of(
    list: &[Vote],
    places: &HashMap<u64, usize>,
    at_hand: &[usize; AT_HAND as usize],
    t: u64,
) -> Option<usize>
    requires { IsIndex (get nat_eq places.now) list.now }
    ensures { result ≡ get nat_eq places.now t }
{
    let place = at_hand[rest_of(t)];
    match list.get(place) {
        Some(vote) if vote.tid() == t => Some(place),
        _ => places.get(&t).copied(),
    }
}
