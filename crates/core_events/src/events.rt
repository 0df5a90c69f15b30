//! The kinds of events.
use snap_base::{ActorId, Bid, Tid, TxNo};

/// An atomic step of the machine.
#[derive(Clone, Copy, Debug, PartialEq, Eq)]
pub enum Event {
    /// The next transaction of the text joins its queue.
    Submit(TxNo),
    /// The token goes to this coordinator.
    Pass(u8),
    /// A batch is made of waiting PACTs.
    Form(Bid),
    /// A waiting ACT begins.
    Admit(Tid),
    /// A batch is placed on an actor.
    Arrive(Bid, ActorId),
    /// An ACT is placed on an actor, or dies there.
    Ask(Tid, ActorId),
    /// A control comes to an actor that its transaction has an entry on.
    Take(Tid, ActorId),
    /// A slice of a transaction runs on an actor.
    Run(Tid, ActorId),
    /// The control of a transaction goes to another actor.
    Send(Tid, ActorId),
    /// The result of a transaction is noted.
    End(Tid, ActorId),
    /// A PACT that ended owes the actor nothing.
    Close(Tid, ActorId),
    /// A batch is complete on an actor, and its record is added.
    Complete(Bid, ActorId),
    /// All records of this log become durable.
    Sync(u8),
    /// The batch is known to be complete on the actor, durably.
    Note(Bid, ActorId),
    /// The commit record of a batch is added.
    Commit(Bid),
    /// The commit record of a batch is known to be durable.
    Settle(Bid),
    /// A batch failed, and takes all behind it along.
    AbortBatch(Bid),
    /// An actor gives back what aborted batches did there.
    Rollback(ActorId),
    /// A sub-batch that nobody will take is dropped.
    DropSub(Bid, ActorId),
    /// A control that nobody will take is dropped.
    DropControl(Tid),
    /// The record of an ACT's state on an actor is added.
    Prepare(Tid, ActorId),
    /// The record of an ACT's state on an actor is known to be durable.
    Vouch(Tid, ActorId),
    /// An ACT gets its place in the serial order.
    Decide(Tid),
    /// The commit record of an ACT is known to be durable.
    Seal(Tid),
    /// An ACT leaves an actor.
    Finish(Tid, ActorId),
    /// A transaction is answered.
    Reply(TxNo),
    /// A settled batch leaves an actor.
    Trim(Bid, ActorId),
}
