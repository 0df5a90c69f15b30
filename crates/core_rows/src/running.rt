//! The row by which a slice of a transaction runs.
ghost use Rattle.std.specs.Prelude.{◌≡◌, OnOk, OnErr, IfErr};
ghost use Rattle.protocol.specs.Events.{Run};
ghost use Rattle.core_rows.specs.Showing.{ShowsCell};
ghost use Rattle.core_rows.specs.Slices.{MaySlice, Slices};
ghost use Rattle.core_rows.specs.Taken.{IsOfRun, IsTaken, IsRefusal, IsNo, IsRule};

use crate::StepNo;
use crate::asking::first_no;
use crate::laws::rows_may;
use cell_part::{CellPart, run_is_begin_slice_end};
use snap_base::{ActorId, Next, State, Tid};

/// Run: which of its conditions is the first false one, or 0.
pub fn run_refusal<C: Drop>(cell: &CellPart<C>, t: Tid, a: ActorId) -> u8
    ensures { IsRefusal {C = C} (Run t.0 a.0) (λ w s. ShowsCell a.0 cell.now s) result }
{
    let waits = cell.has_waiting(t);
    let clear = cell.is_clear(t);
    let turn = cell.has_turn(t);
    first_no(&[waits, clear, turn])
}

/// Run: a slice of the transaction runs on the actor. `slice` is the code: it runs the control on the actor's state until it
/// leaves the actor or ends, and tells where the transaction goes from there and whether it is through on the actor. It is
/// called only where the event is allowed. A run wants no memory.
pub fn run<C: Drop, F: FnOnce(&mut State, C) -> (Next<C>, bool)>(
    cell: &mut CellPart<C>,
    t: Tid,
    a: ActorId,
    slice: F,
) -> Result<(), StepNo>
    requires of_run { IsOfRun {C = C} (λ w s. ShowsCell a.0 cell.old s) }
    requires callable { MaySlice F.FnOnce slice t.0 cell.old.cell }
    ensures ok { OnOk result (IsTaken {C = C} (Run t.0 a.0) (λ w s. Slices F.FnOnce slice w.code t.0 a.0 cell.old.cell × ShowsCell a.0 cell.old s) (λ w s. ShowsCell a.0 cell.new s)) }
    ensures no { IfErr result (IsNo {C = C} (Run t.0 a.0) (λ w s. ShowsCell a.0 cell.old s)) }
    ensures rule { IfErr result IsRule }
    ensures unchanged { OnErr result (cell.new ≡ cell.old) }
{
    rows_may::<C>();
    run_is_begin_slice_end::<C>();
    let rule = run_refusal(cell, t, a);
    if rule != 0 {
        return Err(StepNo::NotNow { rule });
    }
    let control = cell.begin(t);
    let (next, through) = slice(cell.state_mut(), control);
    cell.end(t, next, through);
    Ok(())
}
