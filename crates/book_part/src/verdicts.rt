//! The verdict of an ACT that has its place, from what the votes tell of it.
ghost use Rattle.std.specs.Prelude.{◌≡◌, Some};
ghost use Rattle.protocol.specs.Verdicts.{ended_at};
ghost use Rattle.book_part.specs.Told.{sealed_verdict};

use snap_base::{Bid, Place, TxResult, Verdict};

/// Of an ACT that stands behind the batches up to `before`, by its votes: the number of its commit and its result, where
/// it is sealed.
pub(crate) fn sealed_verdict(before: Bid, sealing: Option<(u64, TxResult)>) -> Option<Verdict>
    ensures { result ≡ sealed_verdict before.0 sealing }
{
    match sealing {
        Some((order, outcome)) => Some(ended_at(
            Place {
                batch: before,
                side: 1,
                order,
            },
            outcome,
        )),
        None => None,
    }
}

/// At its place, with its own result.
fn ended_at(place: Place, outcome: TxResult) -> Verdict
    ensures { Some result ≡ ended_at place (Some outcome) }
{
    match outcome {
        TxResult::Value(value) => Verdict::Committed { place, value },
        TxResult::Fail(code) => Verdict::Code { place, code },
    }
}
