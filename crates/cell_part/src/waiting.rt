//! A control that waits, and whose it is.
ghost use Rattle.std.specs.Prelude.{◌≡◌, ◌==◌};

use crate::kept::Kept;
use snap_base::Tid;
use std::marker::Model;

/// A control that has arrived, and the transaction that it is of. Contracts see the machine's `Waiting`.
#[derive(Drop)]
pub(crate) struct Waiting<C> {
    pub(crate) tid: Tid,
    pub(crate) control: C,
}

impl<C> Model for Waiting<C> {
    ghost use Rattle.protocol.specs.Parts.{Waiting as Arrived};

    ghost Value = { Arrived C };

    ghost view = { λ w. record { tid = w.tid.0; control = w.control } };
}

impl<C> Kept for Waiting<C> {
    ghost number = { λ w. w.tid };

    fn tid(&self) -> Tid {
        self.tid
    }

    fn is_of(&self, t: Tid) -> bool {
        self.tid.0 == t.0
    }
}
