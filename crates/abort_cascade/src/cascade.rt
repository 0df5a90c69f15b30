//! One cascade: which batches it covers, and who failed.
ghost use Rattle.std.specs.Prelude.{◌≡◌, nat_lt, Some, option_copied, find, slice_get};
ghost use Rattle.protocol.specs.Settling.{CascadesAscend};
ghost use Rattle.protocol.specs.Verdicts.{aborted_by};
ghost use Rattle.protocol.specs.Words.{covers};
ghost use Rattle.abort_cascade.specs.Kept.{begun_by};

use snap_base::{Bid, TxNo, Verdict};
use std::marker::Model;

/// A failing PACT took the batches from one to another along.
#[derive(Drop)]
pub(crate) struct Cascade {
    /// The first and the last batch that it covers.
    pub first: Bid,
    pub upto: Bid,
    /// The transaction that failed.
    pub by: TxNo,
    /// The commit number that the next ACT would have drawn.
    pub at: u64,
    /// The code of the failure.
    pub code: u16,
}

impl Model for Cascade {
    ghost use Rattle.protocol.specs.Parts as parts;

    ghost Value = { parts.Cascade };

    ghost view = { λ c. record { first = c.first.0; upto = c.upto.0; by = c.by.0; at = c.at; code = c.code } };
}

impl Cascade {
    fn ends_below(&self, bid: Bid) -> bool
        ensures { result ≡ nat_lt self.now.upto bid.0 }
    {
        self.upto < bid
    }

    /// This one, if it begins at the batch or below.
    fn if_begun_by(&self, bid: Bid) -> Option<&Cascade>
        ensures { option_copied result ≡ begun_by bid.0 (Some self.now) }
    {
        if self.first <= bid { Some(self) } else { None }
    }

    /// The number of its first batch.
    pub fn first(&self) -> Bid
        ensures { result.0 ≡ self.now.first }
    {
        self.first
    }

    /// What became of a PACT of a batch that it covers.
    pub fn verdict(&self, tx: TxNo) -> Verdict
        ensures { result ≡ aborted_by self.now tx.0 }
    {
        if self.by == tx {
            Verdict::BatchCode {
                batch: self.first,
                at: self.at,
                code: self.code,
            }
        } else {
            Verdict::Cascade {
                batch: self.first,
                by: self.by,
            }
        }
    }
}

/// The cascade that covers a batch.
pub(crate) fn covering(cascades: &[Cascade], bid: Bid) -> Option<&Cascade>
    requires { CascadesAscend 0 cascades.now }
    ensures { option_copied result ≡ find (covers bid.0) cascades.now }
{
    match cascades.get(count_below(cascades, bid)) {
        Some(cascade) => cascade.if_begun_by(bid),
        None => None,
    }
}

/// How many cascades end below a batch. The next one is the only one that may cover it.
fn count_below(cascades: &[Cascade], bid: Bid) -> usize
    requires { CascadesAscend 0 cascades.now }
    ensures { find (covers bid.0) cascades.now ≡ begun_by bid.0 (slice_get cascades.now result) }
{
    cascades.partition_point(
        |c: &Cascade| -> bool
            ensures { result ≡ nat_lt c.now.upto bid.0 }
        { c.ends_below(bid) },
    )
}
