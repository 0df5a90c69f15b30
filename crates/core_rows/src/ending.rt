//! The row by which a transaction's end is noted.
ghost use Rattle.std.specs.Prelude.{◌≡◌, true, if◌then◌else◌, map, None, OnOk, OnErr, IfErr};
ghost use Rattle.protocol.specs.BookParts.{votes_begin};
ghost use Rattle.protocol.specs.Events.{End};
ghost use Rattle.protocol.specs.OnDesk.{with_results};
ghost use Rattle.protocol.specs.Words.{act_of};
ghost use Rattle.protocol_theorems.specs.BookFits.{actors_at};
ghost use Rattle.core_rows.specs.Showing.{ShowsBook, ShowsCell, ShowsDesk};
ghost use Rattle.core_rows.specs.Taken.{IsOfRun, IsTaken, IsRefusal, IsNo};

use crate::StepNo;
use crate::asking::first_no;
use crate::laws::{books_go_on, rows_may};
use batch_table::Desk;
use book_part::BookPart;
use cell_part::CellPart;
use snap_base::{ActorId, Memory, Tid, TxResult};
use std::alloc::Global;

/// End: 1 where its condition is false, or 0.
pub fn end_refusal<C: Drop>(cell: &CellPart<C>, t: Tid, a: ActorId) -> u8
    ensures { IsRefusal {C = C} (End t.0 a.0) (λ w s. ShowsCell a.0 cell.now s) result }
{
    let ended = cell.has_ended(t);
    first_no(&[ended])
}

/// End: the result of a transaction leaves the actor, and is noted: in the book for an ACT, at the desk for a PACT of a
/// batch that is not aborted.
pub fn end<C: Drop>(
    alloc: Global,
    book: &mut BookPart,
    desk: &mut Desk,
    cell: &mut CellPart<C>,
    t: Tid,
    a: ActorId,
) -> Result<(), StepNo>
    requires { IsOfRun {C = C} (λ w s. ShowsBook book.old s × ShowsDesk desk.old s × ShowsCell a.0 cell.old s) }
    ensures ok { OnOk result (IsTaken {C = C} (End t.0 a.0) (λ w s. ShowsBook book.old s × ShowsDesk desk.old s × ShowsCell a.0 cell.old s) (λ w s. ShowsBook book.new s × ShowsDesk desk.new s × ShowsCell a.0 cell.new s)) }
    ensures room { book.new.most ≡ book.old.most }
    ensures no { IfErr result (IsNo {C = C} (End t.0 a.0) (λ w s. ShowsBook book.old s × ShowsDesk desk.old s × ShowsCell a.0 cell.old s)) }
    ensures book { OnErr result (book.new ≡ book.old) }
    ensures desk { OnErr result (desk.new ≡ desk.old) }
    ensures cell { OnErr result (cell.new ≡ cell.old) }
{
    rows_may::<C>();
    books_go_on::<C>();
    let rule = end_refusal(cell, t, a);
    if rule != 0 {
        return Err(StepNo::NotNow { rule });
    }
    let ended = cell.ended_with(t).unwrap();
    let is_act = cell.has_act(t);
    note_result(alloc, book, desk, t, is_act, ended)?;
    let _noted = cell.take_outcome(t);
    Ok(())
}

/// A result is noted in the book, where it is an ACT's, or at the desk. For want of memory both stay as they were.
fn note_result(
    alloc: Global,
    book: &mut BookPart,
    desk: &mut Desk,
    t: Tid,
    is_act: bool,
    ended: TxResult,
) -> Result<(), Memory>
    requires { is_act ≡ true → act_of t.0 book.old.votes.acts ≡ None }
    ensures book { OnOk result (book.new ≡ record book.old { votes = if is_act then votes_begin t.0 ended (actors_at (act_of t.0 book.old.orders.acts)) book.old.votes else book.old.votes }) }
    ensures desk { OnOk result (desk.new ≡ record desk.old { batches = if is_act then desk.old.batches else map (with_results t.0 ended) desk.old.batches }) }
    ensures no_book { OnErr result (book.new ≡ book.old) }
    ensures no_desk { OnErr result (desk.new ≡ desk.old) }
{
    if is_act {
        book.end(alloc, t, ended)
    } else {
        desk.note_end(t, ended);
        Ok(())
    }
}
