//! The key by which a sub-batch under way is found.
use snap_base::{ActorId, Bid};

/// By what a sub-batch is found.
#[derive(Clone, Copy, PartialEq, Eq, Hash)]
pub struct SubKey {
    pub bid: Bid,
    pub actor: ActorId,
}
