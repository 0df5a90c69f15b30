//! Whose images a call speaks of.
ghost use Rattle.std.specs.Prelude.{◌≡◌};
ghost use Rattle.protocol.specs.Meant.{who_meant};

use snap_base::{Bid, Who};

/// Whose images a call speaks of.
#[derive(Clone, Copy)]
pub(crate) enum Meant {
    /// Those of one batch or ACT.
    One(Who),
    /// Those of the batches from `bid` on, and, where `acts` is true, of all ACTs too.
    From { bid: Bid, acts: bool },
}

impl Meant {
    ghost use Rattle.actor_cell.specs.Calls.{is_meant};

    pub(crate) fn includes(self, who: Who) -> bool
        ensures { result ≡ is_meant self (who_meant who) }
    {
        match self {
            Meant::One(Who::Batch(bid)) => match who {
                Who::Batch(other) => bid.0 == other.0,
                Who::Act(_) => false,
            },
            Meant::One(Who::Act(tid)) => match who {
                Who::Batch(_) => false,
                Who::Act(other) => tid.0 == other.0,
            },
            Meant::From { bid, acts } => match who {
                Who::Batch(other) => bid.0 <= other.0,
                Who::Act(_) => acts,
            },
        }
    }
}
