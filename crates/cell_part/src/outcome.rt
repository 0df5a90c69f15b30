//! What a slice ended with, and whose it is.
ghost use Rattle.std.specs.Prelude.{◌≡◌, ◌==◌};
ghost use Rattle.protocol.specs.Words.{is_going, is_ended};
ghost use Rattle.cell_part.specs.Contents.{outcome_result};

use crate::kept::Kept;
use snap_base::{Next, Tid, TxResult};
use std::marker::Model;

/// What a slice of this transaction ended with. Contracts see the machine's `Outcome`.
#[derive(Drop)]
pub(crate) struct Outcome<C> {
    pub(crate) tid: Tid,
    pub(crate) next: Next<C>,
}

impl<C> Model for Outcome<C> {
    ghost use Rattle.protocol.specs.Parts.{Outcome as Left};

    ghost Value = { Left C };

    ghost use Rattle.protocol.specs.Meant.{next_meant};

    ghost view = { λ o. record { tid = o.tid.0; next = next_meant o.next } };
}

impl<C> Kept for Outcome<C> {
    ghost number = { λ o. o.tid };

    fn tid(&self) -> Tid {
        self.tid
    }

    fn is_of(&self, t: Tid) -> bool {
        self.tid.0 == t.0
    }
}

impl<C> Outcome<C> {
    pub(crate) fn is_going(&self) -> bool
        ensures { result ≡ is_going self.now.next }
    {
        match &self.next {
            Next::Go(_, _) => true,
            Next::Ended(_) => false,
        }
    }

    pub(crate) fn is_ended(&self) -> bool
        ensures { result ≡ is_ended self.now.next }
    {
        !self.is_going()
    }

    /// The result that it ended with. `None` exactly where it goes on.
    pub(crate) fn result(&self) -> Option<TxResult>
        ensures { result ≡ outcome_result self.now }
    {
        match &self.next {
            Next::Go(_, _) => None,
            Next::Ended(ended) => Some(*ended),
        }
    }
}
