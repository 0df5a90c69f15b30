//! What the commit record of an ACT says.
use snap_base::{ActorId, Bid, Sequence, Tid};

/// What the commit record of an ACT says: who it is, the greatest batch that stands before it, the number of the commit,
/// its value, and the actors that it joined, ascending.
#[derive(Drop)]
pub struct Commit {
    pub tid: Tid,
    pub before: Bid,
    pub number: u64,
    pub value: i64,
    pub actors: Sequence<ActorId>,
}
