//! Where the PACT of each transaction is kept.
ghost use Rattle.std.specs.Prelude.{◌≡◌, ◌<◌, length};
ghost use Rattle.std.specs.List.{AllByRecursion};
ghost use Rattle.batch_table.specs.Joining.{AllTxsBelow, pact_txs};
ghost use Rattle.batch_table.specs.Spots.{with_spots};

use crate::pacts::PactEntry;

/// Where a PACT is kept: the place of its batch among all batches, and its own place in the batch.
#[derive(Clone, Copy)]
pub(crate) struct Spot {
    pub batch: usize,
    pub place: usize,
}

/// Writes down where the PACTs of the batch at this place are, by transaction.
pub(crate) fn write_spots(spots: &mut [Spot], batch: usize, pacts: &[PactEntry])
    requires { AllTxsBelow (length spots.old) pacts.now }
    ensures { spots.new ≡ with_spots batch 0 (pact_txs pacts.now) spots.old }
{
    for place in 0..pacts.len() {
        let tx = pacts[place].tx();
        spots[tx.0 as usize] = Spot { batch, place };
    }
}
