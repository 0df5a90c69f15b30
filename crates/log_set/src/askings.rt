//! What the conditions of the events ask of a log. Each answer is about whatever log the part shows.
ghost use Rattle.std.specs.Prelude.{◌≡◌, drop, length, map, nat_lt};
ghost use Rattle.protocol.specs.Left.{log_left};
ghost use Rattle.protocol.specs.Parts.{Log};
ghost use Rattle.protocol.specs.Records.{is_info, is_complete, is_commit, is_prepare, is_act_commit};
ghost use Rattle.protocol.specs.Words.{is_durable};
ghost use Rattle.log_set.specs.Shown.{ShowsLog, told_key};

use crate::LogPart;
use snap_base::{ActorId, Bid, Tid};
use txn_records::Key;

impl LogPart {
    /// Whether a record is not synced.
    pub fn has_waiting(&self) -> bool
        ensures { (l : Log) → ShowsLog self.now.log l → result ≡ nat_lt l.synced (length l.records) }
    {
        0 < self.pending.waiting()
    }

    /// How many records are not synced.
    pub fn waiting(&self) -> usize
        ensures log { result ≡ length self.now.log.waiting }
        ensures shows { (l : Log) → ShowsLog self.now.log l → result ≡ log_left l }
    {
        self.pending.waiting()
    }

    /// The keys of the records that are not synced, in the order in which they were added: those that the next sync makes durable.
    pub fn waiting_keys(&self) -> &[Key]
        ensures { (l : Log) → ShowsLog self.now.log l → result.now ≡ map told_key (drop l.synced l.records) }
    {
        self.pending.waiting_keys()
    }

    /// Whether it is durable that the batch was formed.
    pub fn has_info(&self, bid: Bid) -> bool
        ensures { (l : Log) → ShowsLog self.now.log l → result ≡ is_durable (is_info bid.0) l }
    {
        self.pending.is_durable(Key::Info(bid))
    }

    /// Whether it is durable that the batch is complete on the actor.
    pub fn has_complete(&self, bid: Bid, actor: ActorId) -> bool
        ensures { (l : Log) → ShowsLog self.now.log l → result ≡ is_durable (is_complete bid.0 actor.0) l }
    {
        self.pending.is_durable(Key::Complete(bid, actor))
    }

    /// Whether the commit of the batch is durable.
    pub fn has_commit(&self, bid: Bid) -> bool
        ensures { (l : Log) → ShowsLog self.now.log l → result ≡ is_durable (is_commit bid.0) l }
    {
        self.pending.is_durable(Key::Commit(bid))
    }

    /// Whether the state that the ACT left on the actor is durable.
    pub fn has_prepare(&self, tid: Tid, actor: ActorId) -> bool
        ensures { (l : Log) → ShowsLog self.now.log l → result ≡ is_durable (is_prepare tid.0 actor.0) l }
    {
        self.pending.is_durable(Key::Prepare(tid, actor))
    }

    /// Whether the commit of the ACT is durable.
    pub fn has_act_commit(&self, tid: Tid) -> bool
        ensures { (l : Log) → ShowsLog self.now.log l → result ≡ is_durable (is_act_commit tid.0) l }
    {
        self.pending.is_durable(Key::Act(tid))
    }
}
