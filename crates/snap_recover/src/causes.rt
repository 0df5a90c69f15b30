//! Why what a log holds is refused, as whoever opens the logs tells it.
use snap_base::ActorId;
use txn_records::Key;

/// Why what a log holds is refused.
#[derive(Clone, Copy, Debug, PartialEq, Eq)]
pub enum LogCause {
    /// The file holds more than nine bytes and is no log: the first byte that differs.
    NotALog,
    /// Behind an open gate there is no whole group: the gate.
    Damage,
    /// The log is of format 1 and has an item, so no run and no compaction may go on with it.
    OldFormat,
    /// An item is no record: the first byte at which none goes on.
    BadRecord,
    /// A checkpoint stands elsewhere than behind the Genesis with which log 0 begins, or tells as many states as that does not.
    Stray,
    /// The log does not begin with the records that it had when it was read before.
    Back,
    /// No log has a Genesis.
    NoGenesis,
    /// The logs have more than one Genesis.
    TwoGenesis,
    /// Genesis says that there are `kept` logs. Where it stands in front of the logs in use, `found` is the number that the text asks for,
    /// else how many logs are here.
    LogCount { kept: u64, found: u64 },
    /// The record with the key names an actor that there is not, or a number above 2^62.
    Range { key: Key },
    /// What rests on the record with the key is committed, and that is not in its log.
    Missing { key: Key },
    /// The batch with the commit of this key has `kept` transactions, and its commit tells `found` values.
    Values { key: Key, kept: u64, found: u64 },
    /// The next number of transactions, batches or commits is above 2^62 - 2^20; where logs are compacted also that of checkpoints, or a
    /// count of what was committed.
    Spent { number: u64 },
    /// The logs began with another text: what differs first, with both values.
    Differs { what: What, kept: i64, text: i64 },
}

/// What of two texts differs.
#[derive(Clone, Copy, Debug, PartialEq, Eq)]
pub enum What {
    /// The number of actors.
    Actors,
    /// A field of an actor's first state.
    Field { actor: ActorId, field: u8 },
}
