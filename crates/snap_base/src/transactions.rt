//! Transactions as a work text asks for them, the states of actors, and what an actor is told of a batch.
use crate::{ActorId, Bid, Sequence, Tid};

/// How many fields an actor has.
pub const FIELDS: usize = 16;

/// An actor's state: its fields `f0` to `f15`.
#[derive(Clone, Copy, Debug, PartialEq, Eq)]
pub struct State(pub [i64; FIELDS]);

/// Whether a transaction declares its actors.
#[derive(Clone, Copy, Debug, PartialEq, Eq, Hash)]
pub enum Kind {
    /// A PACT declares the actors that it calls, and how often it calls each: batches run it.
    Pact,
    /// An ACT declares nothing: locks run it.
    Act,
}

/// A transaction as the work text asks for it: a call of a method on an actor.
#[derive(Drop)]
pub struct Tx {
    pub kind: Kind,
    /// The actor of the first call, the root.
    pub actor: ActorId,
    /// The method's place in the program, from 0 on.
    pub method: u16,
    /// An argument for each parameter, in order.
    pub args: Sequence<i64>,
    /// Of a PACT the actors that it declares, ascending, each with its number of calls; of an ACT
    /// nothing.
    pub uses: Sequence<(ActorId, u8)>,
}

/// How a transaction's own code ended.
#[derive(Clone, Copy, Debug, PartialEq, Eq, Hash)]
pub enum TxResult {
    /// The root's value.
    Value(i64),
    /// The code of the failure that ended it.
    Fail(u16),
}

/// What one actor is told of a batch: the PACTs that it is to run, in this order.
#[derive(Drop)]
pub struct SubBatch {
    pub bid: Bid,
    /// How many cascades of aborts lie before it.
    pub epoch: u64,
    /// The batch before it on this actor in this epoch, or 0.
    pub prev: Bid,
    pub actor: ActorId,
    /// The tids of its PACTs, ascending.
    pub tids: Sequence<Tid>,
}

/// Whose an entry or a message is.
#[derive(Clone, Copy, Debug, PartialEq, Eq, Hash)]
pub enum Who {
    Batch(Bid),
    Act(Tid),
}
