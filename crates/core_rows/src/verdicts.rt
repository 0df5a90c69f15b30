//! What became of a transaction, as the book and the desk tell.
ghost use Rattle.std.specs.Prelude.{◌≡◌};
ghost use Rattle.protocol.specs.Parts.{Book};
ghost use Rattle.protocol.specs.Verdicts.{pact_place, settled_verdict, verdict};
ghost use Rattle.batch_table.specs.Found.{verdict_found};
ghost use Rattle.batch_table.specs.Stages.{stage_meant};
ghost use Rattle.book_part.specs.Halves.{Shows};

use batch_table::{Desk, FoundPact, Stage};
use book_part::BookPart;
use snap_base::{Bid, Place, Tid, TxNo, TxResult, Verdict};

/// What became of transaction `n`, `None` where it is not known yet.
pub fn verdict(book: &BookPart, desk: &Desk, n: TxNo) -> Option<Verdict>
    ensures { (b : Book) → Shows book.now b → result ≡ verdict n.0 b desk.now }
{
    match of_pact(book, desk.pact_with_tx(n), n) {
        Some(known) => Some(known),
        None => book.act_verdict(n),
    }
}

/// What became of a transaction that has this PACT: what the cascade over its batch says, or its own result.
fn of_pact(book: &BookPart, found: Option<FoundPact>, n: TxNo) -> Option<Verdict>
    ensures { (b : Book) → Shows book.now b → result ≡ verdict_found b.cascades n.0 found }
{
    let pact = found?;
    match book.pact_verdict(pact.bid, n) {
        Some(known) => Some(known),
        None => of_settled(pact.stage, pact.bid, pact.tid, pact.result),
    }
}

/// What became of a PACT of a batch that is not aborted.
fn of_settled(stage: Stage, bid: Bid, tid: Tid, outcome: Option<TxResult>) -> Option<Verdict>
    ensures { result ≡ settled_verdict (stage_meant stage) (pact_place bid.0 tid.0) outcome }
{
    let place = Place {
        batch: bid,
        side: 0,
        order: tid.0,
    };
    match stage {
        Stage::Settled => match outcome {
            Some(TxResult::Value(value)) => Some(Verdict::Committed { place, value }),
            Some(TxResult::Fail(code)) => Some(Verdict::Code { place, code }),
            None => None,
        },
        Stage::Formed | Stage::Committing => None,
    }
}
