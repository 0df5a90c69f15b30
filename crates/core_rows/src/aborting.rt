//! The row by which a batch fails.
ghost use Rattle.std.specs.Prelude.{◌≡◌, OnOk, OnErr, IfErr};
ghost use Rattle.protocol.specs.Events.{Abort};
ghost use Rattle.core_rows.specs.Showing.{HasRoomForCascades, ShowsBook, ShowsDesk, ShowsRing};
ghost use Rattle.core_rows.specs.Taken.{IsOfRun, IsTaken, IsRefusal, IsNo, IsRule};

use crate::StepNo;
use crate::asking::first_no;
use crate::laws::{books_go_on, rows_may};
use batch_table::Desk;
use book_part::BookPart;
use snap_base::Bid;
use token_ring::Ring;

/// Abort: which of its conditions is the first false one, or 0.
pub fn abort_refusal<C>(desk: &Desk, k: Bid) -> u8
    ensures { IsRefusal {C = C} (Abort k.0) (λ w s. ShowsDesk desk.now s) result }
{
    let next = desk.is_next(k);
    let failed = desk.first_failed(k).is_some();
    first_no(&[next, failed])
}

/// Abort: the batch failed, and takes all behind it along. The book has room for as many cascades as the text has
/// transactions.
pub fn abort<C>(ring: &mut Ring, book: &mut BookPart, desk: &mut Desk, k: Bid) -> Result<(), StepNo>
    requires { IsOfRun {C = C} (λ w s. HasRoomForCascades book.old w × ShowsRing ring.old s × ShowsBook book.old s × ShowsDesk desk.old s) }
    ensures ok { OnOk result (IsTaken {C = C} (Abort k.0) (λ w s. ShowsRing ring.old s × ShowsBook book.old s × ShowsDesk desk.old s) (λ w s. ShowsRing ring.new s × ShowsBook book.new s × ShowsDesk desk.new s)) }
    ensures room { book.new.most ≡ book.old.most }
    ensures no { IfErr result (IsNo {C = C} (Abort k.0) (λ w s. ShowsRing ring.old s × ShowsBook book.old s × ShowsDesk desk.old s)) }
    ensures rule { IfErr result IsRule }
    ensures ring { OnErr result (ring.new ≡ ring.old) }
    ensures book { OnErr result (book.new ≡ book.old) }
    ensures desk { OnErr result (desk.new ≡ desk.old) }
{
    rows_may::<C>();
    books_go_on::<C>();
    let rule = abort_refusal::<C>(desk, k);
    if rule != 0 {
        return Err(StepNo::NotNow { rule });
    }
    let (by, code) = desk.first_failed(k).unwrap();
    let next = ring.next_bid();
    let upto = Bid(next.0.saturating_sub(1));
    ring.cut();
    book.abort(k, upto, by, code);
    desk.abort_from(k);
    Ok(())
}
