//! The two phases of all ACTs that ended, and the number of the next commit.
ghost use Rattle.std.specs.Prelude.{◌≡◌, ◌+◌, ◌<◌, ◌^◌, not, ◌&&◌, None, IsTrue, IfOk, OnOk, OnErr};
ghost use Rattle.protocol.specs.BookParts.{no_votes, votes_begin, result_by};
ghost use Rattle.protocol.specs.OnBook.{act_prepared, act_vouched, act_decided, act_sealed};
ghost use Rattle.protocol.specs.Words.{act_of, holds, joined_of, is_decided, is_sealed};
ghost use Rattle.act_commit.specs.Words.{actor_numbers, sealing_by, actors_by, is_undecided, is_ready, votes_may_decide};

use crate::seats::Mark;
use crate::vote::{Change, Vote};
use crate::votes::Votes;
use snap_base::{ActorId, Bid, Memory, Sequence, Tid, TxResult};
use std::alloc::Global;
use std::marker::Model;

/// The votes on the ACTs that ended, and the number of the next commit. Contracts see a book of them, in which nobody
/// stands anywhere and nobody is doomed.
#[derive(Drop)]
pub struct Acts {
    next_c: u64,
    votes: Votes,
}

impl Model for Acts {
    ghost use Rattle.std.specs.Prelude.{[]};
    ghost use Rattle.protocol.specs.Parts.{Book};

    ghost Value = { Book };

    ghost view = { λ a. record { next_c = a.next_c; cascades = []; acts = a.votes; pairs = [] } };
}

impl Acts {
    /// No ACT has ended; the next commit has this number.
    pub fn new(alloc: Global, next_c: u64) -> Result<Acts, Memory>
        ensures { IfOk result (λ a. a ≡ no_votes next_c) }
    {
        Ok(Acts {
            next_c,
            votes: Votes::new(alloc)?,
        })
    }

    /// ACT t, which had not ended, ended with result `r`, on the actors that it joined, in that order. For want of memory
    /// nothing is noted.
    pub fn ended(
        &mut self,
        alloc: Global,
        t: Tid,
        r: TxResult,
        actors: &[ActorId],
    ) -> Result<(), Memory>
        requires { act_of t.0 self.old.acts ≡ None }
        ensures ok { OnOk result (self.new ≡ votes_begin t.0 r (actor_numbers actors.now) self.old) }
        ensures err { OnErr result (self.new ≡ self.old) }
    {
        let vote = Vote::new(alloc, t, r, actors)?;
        self.votes.add(vote)
    }

    /// The record of the state that ACT t left on the actor is added to a log.
    pub fn prepared(&mut self, t: Tid, a: ActorId)
        ensures { self.new ≡ act_prepared t.0 a.0 self.old }
    {
        self.votes.change(t, Change::Marked(Mark::Prepared, a));
    }

    /// The record of the state that ACT t left on the actor is durable: the ACT is vouched there.
    pub fn vouched(&mut self, t: Tid, a: ActorId)
        ensures { self.new ≡ act_vouched t.0 a.0 self.old }
    {
        self.votes.change(t, Change::Marked(Mark::Vouched, a));
    }

    /// ACT t, which failed or is vouched on all its actors, is decided, and gets the number of the next commit. One that
    /// failed is sealed with it.
    pub fn decide(&mut self, t: Tid) -> u64
        requires ready { IsTrue (holds is_ready (act_of t.0 self.old.acts)) }
        requires fits { self.old.next_c < 2 ^ 63 }
        ensures number { result ≡ self.old.next_c }
        ensures decided { self.new ≡ act_decided t.0 self.old }
    {
        let number = self.next_c;
        self.votes.change(t, Change::Decided(number));
        self.next_c += 1;
        number
    }

    /// ACT t, if it is decided, is sealed: its commit is durable.
    pub fn seal(&mut self, t: Tid)
        ensures { self.new ≡ act_sealed t.0 self.old }
    {
        self.votes.change(t, Change::Sealed);
    }

    /// The number of the next commit.
    pub fn next_c(&self) -> u64
        ensures { result ≡ self.now.next_c }
    {
        self.next_c
    }

    /// How ACT t ended; `None` exactly where it has not.
    pub fn result(&self, t: Tid) -> Option<TxResult>
        ensures { result ≡ result_by (act_of t.0 self.now.acts) }
    {
        match self.votes.get(t) {
            Some(vote) => Some(vote.result()),
            None => None,
        }
    }

    /// Whether ACT t ended, and is prepared on the actor.
    pub fn is_prepared(&self, t: Tid, a: ActorId) -> bool
        ensures { result ≡ holds (λ x. holds (λ p. p.prepared) (joined_of a.0 x)) (act_of t.0 self.now.acts) }
    {
        match self.votes.get(t) {
            Some(vote) => vote.is_prepared(a),
            None => false,
        }
    }

    /// Whether ACT t ended, and is vouched on the actor.
    pub fn is_vouched(&self, t: Tid, a: ActorId) -> bool
        ensures { result ≡ holds (λ x. holds (λ p. p.vouched) (joined_of a.0 x)) (act_of t.0 self.now.acts) }
    {
        match self.votes.get(t) {
            Some(vote) => vote.is_vouched(a),
            None => false,
        }
    }

    /// Whether ACT t ended, joined the actor and is not prepared there.
    pub fn is_unprepared(&self, t: Tid, a: ActorId) -> bool
        ensures { result ≡ holds (λ x. holds (λ p. not p.prepared) (joined_of a.0 x)) (act_of t.0 self.now.acts) }
    {
        match self.votes.get(t) {
            Some(vote) => vote.is_unprepared(a),
            None => false,
        }
    }

    /// Whether ACT t is prepared on the actor and not vouched there.
    pub fn is_unvouched(&self, t: Tid, a: ActorId) -> bool
        ensures { result ≡ holds (λ x. holds (λ p. p.prepared && not p.vouched) (joined_of a.0 x)) (act_of t.0 self.now.acts) }
    {
        match self.votes.get(t) {
            Some(vote) => vote.is_unvouched(a),
            None => false,
        }
    }

    /// Whether ACT t ended and is neither decided nor sealed.
    pub fn is_undecided(&self, t: Tid) -> bool
        ensures { result ≡ holds is_undecided (act_of t.0 self.now.acts) }
    {
        match self.votes.get(t) {
            Some(vote) => vote.is_undecided(),
            None => false,
        }
    }

    /// Whether ACT t failed, or is vouched on all its actors.
    pub fn is_ready(&self, t: Tid) -> bool
        ensures { result ≡ holds is_ready (act_of t.0 self.now.acts) }
    {
        match self.votes.get(t) {
            Some(vote) => vote.is_ready(),
            None => false,
        }
    }

    /// Whether ACT t, which stands behind the batches up to m, may be decided when those up to `settled` are settled.
    /// Whether it is doomed is not known here.
    pub fn may_decide(&self, t: Tid, m: Bid, settled: Bid) -> bool
        ensures { result ≡ votes_may_decide t.0 m.0 settled.0 self.now }
    {
        self.is_undecided(t) && self.is_ready(t) && m <= settled
    }

    /// Whether ACT t is decided and not sealed. It failed then, or is vouched on all its actors.
    pub fn is_decided(&self, t: Tid) -> bool
        ensures ready { IsTrue result → IsTrue (holds is_ready (act_of t.0 self.now.acts)) }
        ensures decided { result ≡ holds (λ x. is_decided x.status) (act_of t.0 self.now.acts) }
    {
        match self.votes.get(t) {
            Some(vote) => vote.is_decided(),
            None => false,
        }
    }

    /// Whether ACT t is sealed. It failed then, or is vouched on all its actors.
    pub fn is_sealed(&self, t: Tid) -> bool
        ensures ready { IsTrue result → IsTrue (holds is_ready (act_of t.0 self.now.acts)) }
        ensures sealed { result ≡ holds (λ x. is_sealed x.status) (act_of t.0 self.now.acts) }
    {
        match self.votes.get(t) {
            Some(vote) => vote.is_sealed(),
            None => false,
        }
    }

    /// The number of ACT t's commit and how it ended; `None` exactly where it is not sealed.
    pub fn sealing(&self, t: Tid) -> Option<(u64, TxResult)>
        ensures { result ≡ sealing_by (act_of t.0 self.now.acts) }
    {
        match self.votes.get(t) {
            Some(vote) => vote.sealing(),
            None => None,
        }
    }

    /// The actors that ACT t joined, ascending; none where it has not ended.
    pub fn actors(&self, alloc: Global, t: Tid) -> Result<Sequence<ActorId>, Memory>
        ensures { IfOk result (λ actors. actor_numbers actors ≡ actors_by (act_of t.0 self.now.acts)) }
    {
        match self.votes.get(t) {
            Some(vote) => Ok(Sequence::from_vec(vote.actors(alloc)?)),
            None => Ok(Sequence::new(alloc)),
        }
    }
}
