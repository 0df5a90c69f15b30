//! The row by which an ACT leaves an actor.
ghost use Rattle.std.specs.Prelude.{◌≡◌, OnOk, OnErr, IfErr};
ghost use Rattle.protocol.specs.Events.{Finish};
ghost use Rattle.core_rows.specs.Showing.{ShowsBook, ShowsCell};
ghost use Rattle.core_rows.specs.Taken.{IsTaken, IsRefusal, IsNo, IsRule};

use crate::StepNo;
use crate::asking::first_no;
use crate::laws::books_go_on;
use book_part::BookPart;
use cell_part::CellPart;
use snap_base::{ActorId, Tid};

/// Finish: which of its conditions is the first false one, or 0.
pub fn finish_refusal<C>(book: &BookPart, t: Tid, a: ActorId) -> u8
    ensures { IsRefusal {C = C} (Finish t.0 a.0) (λ w s. ShowsBook book.now s) result }
{
    let may_leave = book.may_leave(t);
    let stands = book.stands_on(t, a);
    first_no(&[may_leave, stands])
}

/// Finish: an ACT that is given up or sealed leaves the actor.
pub fn finish<C: Drop>(
    book: &mut BookPart,
    cell: &mut CellPart<C>,
    t: Tid,
    a: ActorId,
) -> Result<(), StepNo>
    ensures ok { OnOk result (IsTaken {C = C} (Finish t.0 a.0) (λ w s. ShowsBook book.old s × ShowsCell a.0 cell.old s) (λ w s. ShowsBook book.new s × ShowsCell a.0 cell.new s)) }
    ensures room { book.new.most ≡ book.old.most }
    ensures no { IfErr result (IsNo {C = C} (Finish t.0 a.0) (λ w s. ShowsBook book.old s × ShowsCell a.0 cell.old s)) }
    ensures rule { IfErr result IsRule }
    ensures book { OnErr result (book.new ≡ book.old) }
    ensures cell { OnErr result (cell.new ≡ cell.old) }
{
    books_go_on::<C>();
    let rule = finish_refusal::<C>(book, t, a);
    if rule != 0 {
        return Err(StepNo::NotNow { rule });
    }
    let undone = book.is_undone(t);
    let sealed = book.is_sealed(t);
    let before = book.before(t);
    let reader = book.is_reader(t);
    book.finish(t, a);
    cell.finish(t, undone, sealed, before, reader);
    Ok(())
}
