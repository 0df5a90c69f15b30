//! The row by which transactions are answered.
ghost use Rattle.std.specs.Prelude.{◌≡◌, OnOk, OnErr, IfErr};
ghost use Rattle.protocol.specs.Events.{Reply};
ghost use Rattle.core_rows.specs.Showing.{ShowsBook, ShowsDesk};
ghost use Rattle.core_rows.specs.Taken.{IsOfRun, IsTaken, IsRefusal, IsNo, IsRule};

use crate::StepNo;
use crate::asking::first_no;
use crate::verdicts::verdict;
use batch_table::Desk;
use book_part::BookPart;
use snap_base::TxNo;

/// Reply: which of its conditions is the first false one, or 0.
pub fn reply_refusal<C>(book: &BookPart, desk: &Desk, n: TxNo) -> u8
    ensures { IsRefusal {C = C} (Reply n.0) (λ w s. ShowsBook book.now s × ShowsDesk desk.now s) result }
{
    let waiting = desk.is_waiting_for_reply(n);
    let known = verdict(book, desk, n).is_some();
    first_no(&[waiting, known])
}

/// Reply: transaction `n` is answered.
pub fn reply<C>(book: &BookPart, desk: &mut Desk, n: TxNo) -> Result<(), StepNo>
    requires { IsOfRun {C = C} (λ w s. ShowsBook book.now s × ShowsDesk desk.old s) }
    ensures ok { OnOk result (IsTaken {C = C} (Reply n.0) (λ w s. ShowsBook book.now s × ShowsDesk desk.old s) (λ w s. ShowsBook book.now s × ShowsDesk desk.new s)) }
    ensures no { IfErr result (IsNo {C = C} (Reply n.0) (λ w s. ShowsBook book.now s × ShowsDesk desk.old s)) }
    ensures rule { IfErr result IsRule }
    ensures unchanged { OnErr result (desk.new ≡ desk.old) }
{
    let rule = reply_refusal::<C>(book, desk, n);
    if rule != 0 {
        return Err(StepNo::NotNow { rule });
    }
    desk.mark_replied(n);
    Ok(())
}
