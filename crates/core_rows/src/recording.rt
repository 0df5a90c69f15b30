//! The rows that add the record of an actor's state to a log.
ghost use Rattle.std.specs.Prelude.{◌≡◌, ◌%◌, OnOk, OnErr, IfErr};
ghost use Rattle.protocol.specs.Events.{Complete, Prepare};
ghost use Rattle.core_rows.specs.Showing.{ShowsBook, ShowsCell, ShowsLogAt};
ghost use Rattle.core_rows.specs.Taken.{IsOfRun, IsTaken, IsRefusal, IsNo};

use crate::StepNo;
use crate::asking::first_no;
use crate::laws::{books_go_on, rows_may};
use book_part::BookPart;
use cell_part::CellPart;
use log_set::LogPart;
use snap_base::{ActorId, Bid, Tid};
use std::alloc::Global;
use txn_records::{Record, states_fit};

/// Complete: which of its conditions is the first false one, or 0.
pub fn complete_refusal<C: Drop>(cell: &CellPart<C>, k: Bid, a: ActorId) -> u8
    ensures { IsRefusal {C = C} (Complete k.0 a.0) (λ w s. ShowsCell a.0 cell.now s) result }
{
    let incomplete = cell.is_incomplete(k);
    let next = cell.is_next(k);
    let done = cell.is_done(k);
    first_no(&[incomplete, next, done])
}

/// Complete: the batch is complete on the actor, and the record of the actor's state is added.
pub fn complete<C: Drop>(
    alloc: Global,
    log: &mut LogPart,
    cell: &mut CellPart<C>,
    k: Bid,
    a: ActorId,
) -> Result<(), StepNo>
    requires { IsOfRun {C = C} (λ w s. ShowsLogAt (a.0 % w.text.logs) log.old s × ShowsCell a.0 cell.old s) }
    ensures ok { OnOk result (IsTaken {C = C} (Complete k.0 a.0) (λ w s. ShowsLogAt (a.0 % w.text.logs) log.old s × ShowsCell a.0 cell.old s) (λ w s. ShowsLogAt (a.0 % w.text.logs) log.new s × ShowsCell a.0 cell.new s)) }
    ensures no { IfErr result (IsNo {C = C} (Complete k.0 a.0) (λ w s. ShowsLogAt (a.0 % w.text.logs) log.old s × ShowsCell a.0 cell.old s)) }
    ensures log { OnErr result (log.new.log ≡ log.old.log) }
    ensures cell { OnErr result (cell.new ≡ cell.old) }
{
    rows_may::<C>();
    let rule = complete_refusal(cell, k, a);
    if rule != 0 {
        return Err(StepNo::NotNow { rule });
    }
    let state = cell.state();
    states_fit(&state);
    let record = Record::BatchComplete {
        bid: k,
        actor: a,
        state,
    };
    log.add(alloc, &record)?;
    cell.complete(k);
    Ok(())
}

/// Prepare: which of its conditions is the first false one, or 0.
pub fn prepare_refusal<C>(book: &BookPart, t: Tid, a: ActorId) -> u8
    ensures { IsRefusal {C = C} (Prepare t.0 a.0) (λ w s. ShowsBook book.now s) result }
{
    let has_value = book.has_value(t);
    let unprepared = book.is_unprepared(t, a);
    first_no(&[has_value, unprepared])
}

/// Prepare: the record of the state that the ACT left on the actor is added.
pub fn prepare<C: Drop>(
    alloc: Global,
    book: &mut BookPart,
    log: &mut LogPart,
    cell: &CellPart<C>,
    t: Tid,
    a: ActorId,
) -> Result<(), StepNo>
    requires { IsOfRun {C = C} (λ w s. ShowsBook book.old s × ShowsLogAt (a.0 % w.text.logs) log.old s × ShowsCell a.0 cell.now s) }
    ensures ok { OnOk result (IsTaken {C = C} (Prepare t.0 a.0) (λ w s. ShowsBook book.old s × ShowsLogAt (a.0 % w.text.logs) log.old s × ShowsCell a.0 cell.now s) (λ w s. ShowsBook book.new s × ShowsLogAt (a.0 % w.text.logs) log.new s × ShowsCell a.0 cell.now s)) }
    ensures room { book.new.most ≡ book.old.most }
    ensures no { IfErr result (IsNo {C = C} (Prepare t.0 a.0) (λ w s. ShowsBook book.old s × ShowsLogAt (a.0 % w.text.logs) log.old s × ShowsCell a.0 cell.now s)) }
    ensures book { OnErr result (book.new ≡ book.old) }
    ensures log { OnErr result (log.new.log ≡ log.old.log) }
{
    rows_may::<C>();
    books_go_on::<C>();
    let rule = prepare_refusal::<C>(book, t, a);
    if rule != 0 {
        return Err(StepNo::NotNow { rule });
    }
    let state = cell.state();
    states_fit(&state);
    let record = Record::ActPrepare {
        tid: t,
        actor: a,
        state,
    };
    log.add(alloc, &record)?;
    book.prepare(t, a);
    Ok(())
}
