//! The tables that events are read with, and what single rows take from them.
ghost use Rattle.std.specs.Prelude.{◌≡◌, ◌%◌};
ghost use Rattle.protocol.specs.Fixed as fixed;
ghost use Rattle.snap_hand.specs.Tables.{AreTables, text_of};

use snap_base::Bid;
use snap_recover::Opening;
use snap_work::Work;

/// What events are read with, and what no event changes: the work text, and what earlier runs left.
pub struct Tables {
    /// The work that the run is asked for.
    pub work: Work,
    /// The states and the next numbers with which the run begins.
    pub opening: Opening,
}

// Written out, so that a crate above calls it and does not repeat it.
impl Drop for Tables {
    fn drop(self) {
        let Tables {
            work: _work,
            opening: _opening,
        } = self;
    }
}

/// The log to which the batch, the transaction or the actor of this number writes.
pub(crate) fn log_of(tables: &Tables, number: u64) -> usize
    requires { AreTables tables.now }
    ensures { result ≡ number % (text_of tables.now).logs }
{
    (number % tables.work.logs as u64) as usize
}

/// The last batch of earlier runs.
pub(crate) fn base(tables: &Tables) -> Bid
    requires { AreTables tables.now }
    ensures { fixed.base (text_of tables.now) ≡ result.0 }
{
    Bid(tables.opening.next_bid.0 - 1)
}
