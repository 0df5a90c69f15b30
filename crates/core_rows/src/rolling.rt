//! The row by which an actor gives back what aborted batches did there.
ghost use Rattle.std.specs.Prelude.{◌≡◌, OnOk, OnErr, IfErr};
ghost use Rattle.protocol.specs.Events.{Rollback};
ghost use Rattle.core_rows.specs.Showing.{ShowsBook, ShowsCell};
ghost use Rattle.core_rows.specs.Taken.{IsOfRun, IsTaken, IsRefusal, IsNo, IsRule};

use crate::StepNo;
use crate::asking::first_no;
use crate::laws::rows_may;
use book_part::BookPart;
use cell_part::CellPart;
use snap_base::ActorId;

/// Rollback: 1 where its condition is false, or 0.
pub fn rollback_refusal<C: Drop>(book: &BookPart, cell: &CellPart<C>, a: ActorId) -> u8
    ensures { IsRefusal {C = C} (Rollback a.0) (λ w s. ShowsBook book.now s × ShowsCell a.0 cell.now s) result }
{
    let epoch = book.epoch();
    let behind = cell.is_behind(epoch);
    first_no(&[behind])
}

/// Rollback: the actor sees all cascades, and what aborted batches did there is undone.
pub fn rollback<C: Drop>(book: &BookPart, cell: &mut CellPart<C>, a: ActorId) -> Result<(), StepNo>
    requires { IsOfRun {C = C} (λ w s. ShowsBook book.now s × ShowsCell a.0 cell.old s) }
    ensures ok { OnOk result (IsTaken {C = C} (Rollback a.0) (λ w s. ShowsBook book.now s × ShowsCell a.0 cell.old s) (λ w s. ShowsBook book.now s × ShowsCell a.0 cell.new s)) }
    ensures no { IfErr result (IsNo {C = C} (Rollback a.0) (λ w s. ShowsBook book.now s × ShowsCell a.0 cell.old s)) }
    ensures rule { IfErr result IsRule }
    ensures unchanged { OnErr result (cell.new ≡ cell.old) }
{
    rows_may::<C>();
    let rule = rollback_refusal(book, cell, a);
    if rule != 0 {
        return Err(StepNo::NotNow { rule });
    }
    let seen = cell.epoch();
    let first = book.first_after(seen);
    let epoch = book.epoch();
    cell.rollback(first, epoch);
    Ok(())
}
