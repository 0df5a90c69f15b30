//! Where an event may have made something allowed: the one table of this, for the host with all parts at hand and for workers with
//! some.
ghost use Rattle.std.specs.Prelude.{◌≡◌};
ghost use Rattle.core_events.specs.Meant.{event_meant};
ghost use Rattle.ready_news.specs.Looks.{looks_of, names_of, of_batch, of_tid, of_tx};

use core_events::Event;
use snap_base::{ActorId, Bid, Tid, TxNo};

/// A place where an event may have made something allowed. What is allowed there, the parts tell. It is about what the event names.
#[derive(Clone, Copy, Debug, PartialEq, Eq)]
pub enum Look {
    // ---- the ring, and the logs
    /// What is next, where the transaction has joined its queue.
    Submitted,
    /// The token: nothing may wait at its holder.
    Token,
    /// The next batch: one may wait, or there may be a place for it.
    NextBatch,
    /// The next ACT: one may wait, or there may be a place for it.
    NextAct,
    /// The log to which a record of the batch was added.
    BatchLog,
    /// The log to which a record of the ACT was added.
    ActLog,
    /// The log to which a record of the actor was added.
    ActorLog,
    // ---- what is under way
    /// The actors that the batch, which was formed, goes to.
    Formed,
    /// Where the control of the transaction goes.
    Control,
    /// Whether the control of the ACT, which has left the actor, goes there again.
    Again,
    /// The sub-batches that go to the actor.
    Arrivals,
    /// The controls that go to the actor.
    Comings,
    /// The sub-batch that goes to the actor behind the batch, which has arrived there.
    Follower,
    /// The controls that go to the actor and are of the batch, which has arrived there.
    LetIn,
    // ---- an actor
    /// The actor, where the batch has arrived.
    Arrived,
    /// The PACTs of the batch, which has arrived at the actor: some may have ended before.
    Late,
    /// The transaction, whose control has come to the actor.
    Placed,
    /// What a slice of the transaction has left on the actor.
    Left,
    /// The actor, where others may go on.
    Woken,
    /// The actor, which the batch has left.
    Trimmed,
    /// The actor, which has followed a cascade.
    Back,
    // ---- a batch
    /// The actors where the PACT, which ended, has accesses left. It may be an ACT.
    Closes,
    /// How the next batch ends.
    NextEnds,
    /// Whether the batch commits.
    Noted,
    /// The batch, which commits once its record is durable.
    Committed,
    /// The actors that the batch leaves.
    Trims,
    /// The replies of the batch's transactions.
    Answers,
    /// All that waits, where the batch and those behind it are aborted.
    Aborted,
    // ---- ACTs
    /// Whether the ACT is prepared on its actors. It may be a PACT.
    Preparing,
    /// Whether the ACT is decided. It may be a PACT.
    Deciding,
    /// Whether any ACT is decided.
    Decisions,
    /// The actors that the ACT leaves.
    Leaving,
    /// The reply of the ACT's transaction.
    Over,
    /// The ACTs that are given up: some may have fallen at the actor, where a batch has arrived.
    Fallen,
    /// The ACTs that are given up.
    GivenUp,
}

/// What an event names; 0 for what it does not name.
#[derive(Clone, Copy, Debug, PartialEq, Eq)]
pub struct Names {
    pub tx: TxNo,
    pub batch: Bid,
    pub tid: Tid,
    pub actor: ActorId,
}

/// The looks of an event. Each event is named here, so that a new one does not compile before it is thought of.
pub fn looks_of(e: Event) -> &'static [Look]
    ensures { result.now ≡ looks_of (event_meant e) }
{
    match e {
        // By the ring.
        Event::Submit(_) => &[Look::Submitted],
        Event::Pass(_) => &[Look::Token, Look::NextBatch, Look::NextAct],
        Event::Form(_) => &[
            Look::Formed,
            Look::BatchLog,
            Look::NextEnds,
            Look::Token,
            Look::NextBatch,
            Look::NextAct,
        ],
        Event::Admit(_) => &[Look::Control, Look::Token, Look::NextAct],
        // On an actor.
        Event::Arrive(_, _) => &[
            Look::Late,
            Look::Arrived,
            Look::Follower,
            Look::LetIn,
            Look::NextAct,
            Look::Fallen,
        ],
        Event::Ask(_, _) => &[Look::Placed, Look::NextAct, Look::Over, Look::GivenUp],
        Event::Take(_, _) => &[Look::Placed],
        Event::Run(_, _) => &[Look::Left, Look::Woken],
        Event::Send(_, _) => &[Look::Control],
        Event::End(_, _) => &[
            Look::Closes,
            Look::NextEnds,
            Look::Deciding,
            Look::Preparing,
            Look::Over,
        ],
        Event::Close(_, _) => &[Look::Woken],
        Event::Complete(_, _) => &[Look::Woken, Look::ActorLog],
        Event::Prepare(_, _) => &[Look::ActorLog],
        Event::Finish(_, _) => &[Look::Woken, Look::Again, Look::NextAct],
        Event::Rollback(_) => &[Look::Back, Look::Arrivals, Look::Comings],
        // Of a batch.
        Event::Note(_, _) => &[Look::Noted],
        Event::Commit(_) => &[Look::Committed, Look::BatchLog],
        Event::Settle(_) => &[Look::Trims, Look::NextEnds, Look::Answers, Look::Decisions],
        Event::Trim(_, _) => &[Look::Trimmed, Look::NextBatch],
        Event::AbortBatch(_) => &[Look::Aborted],
        Event::DropSub(_, _) => &[],
        // Of an ACT.
        Event::Vouch(_, _) => &[Look::Deciding],
        Event::Decide(_) => &[Look::ActLog, Look::NextAct, Look::Leaving, Look::Over],
        Event::Seal(_) => &[Look::NextAct, Look::Leaving, Look::Over],
        Event::DropControl(_) => &[],
        // To the outside. What a Sync makes allowed is listed ahead of it.
        Event::Sync(_) => &[],
        Event::Reply(_) => &[],
    }
}

fn of_tx(n: TxNo) -> Names
    ensures { result ≡ of_tx n.0 }
{
    Names {
        tx: n,
        batch: Bid(0),
        tid: Tid(0),
        actor: ActorId(0),
    }
}

fn of_batch(k: Bid, a: ActorId) -> Names
    ensures { result ≡ of_batch k.0 a.0 }
{
    Names {
        tx: TxNo(0),
        batch: k,
        tid: Tid(0),
        actor: a,
    }
}

fn of_tid(t: Tid, a: ActorId) -> Names
    ensures { result ≡ of_tid t.0 a.0 }
{
    Names {
        tx: TxNo(0),
        batch: Bid(0),
        tid: t,
        actor: a,
    }
}

/// What the event names.
pub fn names_of(e: Event) -> Names
    ensures { result ≡ names_of (event_meant e) }
{
    match e {
        Event::Submit(n) | Event::Reply(n) => of_tx(n),
        Event::Pass(_) | Event::Sync(_) => of_tx(TxNo(0)),
        Event::Form(k) | Event::Commit(k) | Event::Settle(k) | Event::AbortBatch(k) => {
            of_batch(k, ActorId(0))
        }
        Event::Arrive(k, a) | Event::Complete(k, a) | Event::Note(k, a) => of_batch(k, a),
        Event::DropSub(k, a) | Event::Trim(k, a) => of_batch(k, a),
        Event::Rollback(a) => of_batch(Bid(0), a),
        Event::Admit(t) | Event::DropControl(t) | Event::Decide(t) | Event::Seal(t) => {
            of_tid(t, ActorId(0))
        }
        Event::Ask(t, a) | Event::Take(t, a) | Event::Run(t, a) => of_tid(t, a),
        Event::Send(t, a) | Event::End(t, a) | Event::Close(t, a) => of_tid(t, a),
        Event::Prepare(t, a) | Event::Vouch(t, a) | Event::Finish(t, a) => of_tid(t, a),
    }
}
