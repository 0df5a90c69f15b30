//! A part of the machine, and what stands beside it under the same turn.
ghost use Rattle.std.specs.Prelude.{◌≡◌};
ghost use Rattle.crew_parts.specs.Shares.{share_of};
ghost use Rattle.snap_hand.specs.Shown.{shown};

use crate::Beside;
use snap_hand::Part;
use snap_outside::{LogDev, Sink};
use std::marker::Model;

/// A part of the machine with what stands beside it. Contracts see what the part shows.
pub struct Share<D: LogDev, O: Sink> {
    part: Part,
    beside: Beside<D, O>,
}

impl<D: LogDev, O: Sink> Model for Share<D, O> {
    ghost use Rattle.crew_parts.specs.Shares.{ShareState};
    ghost use Rattle.snap_hand.specs.Shown.{shown};

    ghost Value = { ShareState };

    ghost view = { λ s. record { part = shown s.part; beside = s.beside } };
}

// Written out, since a derived drop is proved again in each crate that lets a share go.
impl<D: LogDev + Drop, O: Sink + Drop> Drop for Share<D, O> {
    fn drop(self) {
        let (_part, _beside) = self.open();
    }
}

impl<D: LogDev, O: Sink> Share<D, O> {
    /// A share of this part, with this beside it.
    pub fn new(part: Part, beside: Beside<D, O>) -> Self
        ensures { result ≡ share_of (shown part) beside }
    {
        Share { part, beside }
    }

    /// What stands beside the part: a log's journal, the desk's output, or nothing.
    pub fn beside(&self) -> &Beside<D, O>
        ensures { result.now ≡ self.now.beside }
    {
        &self.beside
    }

    /// Takes the share apart, into the part and what stands beside it. `Share::new` puts these together again.
    pub fn open(self) -> (Part, Beside<D, O>)
        ensures { self ≡ share_of (shown result.0) result.1 }
    {
        let Share { part, beside } = self;
        (part, beside)
    }
}
