//! What a record is about.
ghost use Rattle.std.specs.Prelude.{◌≡◌};
ghost use Rattle.txn_records.specs.Records.{key};

use crate::Record;
use snap_base::{ActorId, Bid, Tid};

/// What a record is about. Of two records with one key, one is written in vain.
#[derive(Clone, Copy, Debug, PartialEq, Eq, Hash)]
pub enum Key {
    Genesis,
    Info(Bid),
    Complete(Bid, ActorId),
    Commit(Bid),
    Prepare(Tid, ActorId),
    Act(Tid),
    Checkpoint,
}

/// What a record is about.
pub fn key_of(r: &Record) -> Key
    ensures { result ≡ key r.now }
{
    match r {
        Record::Genesis { .. } => Key::Genesis,
        Record::BatchInfo { bid, .. } => Key::Info(*bid),
        Record::BatchComplete { bid, actor, .. } => Key::Complete(*bid, *actor),
        Record::BatchCommit { bid } => Key::Commit(*bid),
        Record::ActPrepare { tid, actor, .. } => Key::Prepare(*tid, *actor),
        Record::ActCommit { tid, .. } => Key::Act(*tid),
        Record::BatchDone { bid, .. } => Key::Commit(*bid),
        Record::ActDone { tid, .. } => Key::Act(*tid),
        Record::Checkpoint { .. } => Key::Checkpoint,
    }
}
