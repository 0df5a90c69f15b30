//! The kinds of records and their fields.
use snap_base::{ActorId, Bid, Sequence, State, Tid};

/// What is written down of transactions.
#[derive(Drop)]
pub enum Record {
    /// How many logs there are, and the state that each actor begins with, in the order of their numbers.
    Genesis {
        logs: u8,
        states: Sequence<State>,
    },
    /// A batch that was formed: the actors that take part in it and the transactions that it runs, both
    /// ascending.
    BatchInfo {
        bid: Bid,
        actors: Sequence<ActorId>,
        tids: Sequence<Tid>,
    },
    /// An actor has run its part of a batch, and this is its state then.
    BatchComplete {
        bid: Bid,
        actor: ActorId,
        state: State,
    },
    /// A batch is committed.
    BatchCommit {
        bid: Bid,
    },
    /// An undeclared transaction ended with a value, and this is the state of an actor on which it ran.
    ActPrepare {
        tid: Tid,
        actor: ActorId,
        state: State,
    },
    /// An undeclared transaction is committed: the batch behind which it comes, the number of its commit, and
    /// the actors on which it ran, ascending.
    ActCommit {
        tid: Tid,
        m: Bid,
        c: u64,
        actors: Sequence<ActorId>,
    },
    /// A batch is committed with the values of its transactions, by their tids. Format 2 has it in place of a
    /// BatchCommit.
    BatchDone {
        bid: Bid,
        values: Sequence<i64>,
    },
    /// An undeclared transaction is committed with its value. Format 2 has it in place of an ActCommit.
    ActDone {
        tid: Tid,
        m: Bid,
        c: u64,
        value: i64,
        actors: Sequence<ActorId>,
    },
    /// What stands in place of the records of all that was committed before it: the generation of the logs that it begins,
    /// at least 1, the next numbers, each at least 1, how many batches and undeclared transactions were committed, and the
    /// state of each actor then, in the order of their numbers. It stands behind Genesis, in second place of the first log.
    Checkpoint {
        generation: u64,
        next_tid: Tid,
        next_bid: Bid,
        next_c: u64,
        batches: u64,
        acts: u64,
        states: Sequence<State>,
    },
}
