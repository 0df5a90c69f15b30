//! The rows by which PACTs and batches leave an actor.
ghost use Rattle.std.specs.Prelude.{◌≡◌, OnOk, OnErr, IfErr};
ghost use Rattle.protocol.specs.Events.{Close, Trim};
ghost use Rattle.core_rows.specs.Showing.{ShowsCell, ShowsDesk};
ghost use Rattle.core_rows.specs.Taken.{IsOfRun, IsTaken, IsRefusal, IsNo, IsRule};

use crate::StepNo;
use crate::asking::first_no;
use batch_table::Desk;
use cell_part::CellPart;
use snap_base::{ActorId, Bid, Tid};

/// Close: which of its conditions is the first false one, or 0.
pub fn close_refusal<C: Drop>(desk: &Desk, cell: &CellPart<C>, t: Tid, a: ActorId) -> u8
    ensures { IsRefusal {C = C} (Close t.0 a.0) (λ w s. ShowsDesk desk.now s × ShowsCell a.0 cell.now s) result }
{
    let ended = desk.result(t).is_some();
    let undone = cell.has_undone(t);
    first_no(&[ended, undone])
}

/// Close: a PACT that ended owes the actor nothing.
pub fn close<C: Drop>(desk: &Desk, cell: &mut CellPart<C>, t: Tid, a: ActorId) -> Result<(), StepNo>
    ensures ok { OnOk result (IsTaken {C = C} (Close t.0 a.0) (λ w s. ShowsDesk desk.now s × ShowsCell a.0 cell.old s) (λ w s. ShowsDesk desk.now s × ShowsCell a.0 cell.new s)) }
    ensures no { IfErr result (IsNo {C = C} (Close t.0 a.0) (λ w s. ShowsDesk desk.now s × ShowsCell a.0 cell.old s)) }
    ensures rule { IfErr result IsRule }
    ensures unchanged { OnErr result (cell.new ≡ cell.old) }
{
    let rule = close_refusal(desk, cell, t, a);
    if rule != 0 {
        return Err(StepNo::NotNow { rule });
    }
    cell.close(t);
    Ok(())
}

/// Trim: 1 where its condition is false, or 0.
pub fn trim_refusal<C>(desk: &Desk, k: Bid, a: ActorId) -> u8
    ensures { IsRefusal {C = C} (Trim k.0 a.0) (λ w s. ShowsDesk desk.now s) result }
{
    let settled = desk.is_trimming(k, a);
    first_no(&[settled])
}

/// Trim: a settled batch leaves the actor.
pub fn trim<C: Drop>(
    desk: &mut Desk,
    cell: &mut CellPart<C>,
    k: Bid,
    a: ActorId,
) -> Result<(), StepNo>
    requires { IsOfRun {C = C} (λ w s. ShowsDesk desk.old s × ShowsCell a.0 cell.old s) }
    ensures ok { OnOk result (IsTaken {C = C} (Trim k.0 a.0) (λ w s. ShowsDesk desk.old s × ShowsCell a.0 cell.old s) (λ w s. ShowsDesk desk.new s × ShowsCell a.0 cell.new s)) }
    ensures no { IfErr result (IsNo {C = C} (Trim k.0 a.0) (λ w s. ShowsDesk desk.old s × ShowsCell a.0 cell.old s)) }
    ensures rule { IfErr result IsRule }
    ensures desk { OnErr result (desk.new ≡ desk.old) }
    ensures cell { OnErr result (cell.new ≡ cell.old) }
{
    let rule = trim_refusal::<C>(desk, k, a);
    if rule != 0 {
        return Err(StepNo::NotNow { rule });
    }
    desk.trim(k, a);
    cell.trim(k);
    Ok(())
}
