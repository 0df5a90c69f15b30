//! The rows by which the desk learns that a record is durable.
ghost use Rattle.std.specs.Prelude.{◌≡◌, ◌%◌, OnOk, OnErr, IfErr};
ghost use Rattle.protocol.specs.Events.{Note, Settle};
ghost use Rattle.core_rows.specs.Showing.{ShowsDesk, ShowsLogAt};
ghost use Rattle.core_rows.specs.Taken.{IsOfRun, IsTaken, IsRefusal, IsNo, IsRule};

use crate::StepNo;
use crate::asking::first_no;
use batch_table::Desk;
use log_set::LogPart;
use snap_base::{ActorId, Bid};

/// Note: which of its conditions is the first false one, or 0.
pub fn note_refusal<C>(desk: &Desk, log: &LogPart, k: Bid, a: ActorId) -> u8
    ensures { IsRefusal {C = C} (Note k.0 a.0) (λ w s. ShowsDesk desk.now s × ShowsLogAt (a.0 % w.text.logs) log.now s) result }
{
    let noting = desk.is_noting(k, a);
    let durable = log.has_complete(k, a);
    first_no(&[noting, durable])
}

/// Note: the desk learns that the batch is complete on the actor, durably.
pub fn note<C>(desk: &mut Desk, log: &LogPart, k: Bid, a: ActorId) -> Result<(), StepNo>
    requires { IsOfRun {C = C} (λ w s. ShowsDesk desk.old s × ShowsLogAt (a.0 % w.text.logs) log.now s) }
    ensures ok { OnOk result (IsTaken {C = C} (Note k.0 a.0) (λ w s. ShowsDesk desk.old s × ShowsLogAt (a.0 % w.text.logs) log.now s) (λ w s. ShowsDesk desk.new s × ShowsLogAt (a.0 % w.text.logs) log.now s)) }
    ensures no { IfErr result (IsNo {C = C} (Note k.0 a.0) (λ w s. ShowsDesk desk.old s × ShowsLogAt (a.0 % w.text.logs) log.now s)) }
    ensures rule { IfErr result IsRule }
    ensures unchanged { OnErr result (desk.new ≡ desk.old) }
{
    let rule = note_refusal::<C>(desk, log, k, a);
    if rule != 0 {
        return Err(StepNo::NotNow { rule });
    }
    desk.note_complete(k, a);
    Ok(())
}

/// Settle: which of its conditions is the first false one, or 0.
pub fn settle_refusal<C>(desk: &Desk, log: &LogPart, k: Bid) -> u8
    ensures { IsRefusal {C = C} (Settle k.0) (λ w s. ShowsDesk desk.now s × ShowsLogAt (k.0 % w.text.logs) log.now s) result }
{
    let settling = desk.is_settling(k);
    let durable = log.has_commit(k);
    first_no(&[settling, durable])
}

/// Settle: the commit of the batch is durable.
pub fn settle<C>(desk: &mut Desk, log: &LogPart, k: Bid) -> Result<(), StepNo>
    requires { IsOfRun {C = C} (λ w s. ShowsDesk desk.old s × ShowsLogAt (k.0 % w.text.logs) log.now s) }
    ensures ok { OnOk result (IsTaken {C = C} (Settle k.0) (λ w s. ShowsDesk desk.old s × ShowsLogAt (k.0 % w.text.logs) log.now s) (λ w s. ShowsDesk desk.new s × ShowsLogAt (k.0 % w.text.logs) log.now s)) }
    ensures no { IfErr result (IsNo {C = C} (Settle k.0) (λ w s. ShowsDesk desk.old s × ShowsLogAt (k.0 % w.text.logs) log.now s)) }
    ensures rule { IfErr result IsRule }
    ensures unchanged { OnErr result (desk.new ≡ desk.old) }
{
    let rule = settle_refusal::<C>(desk, log, k);
    if rule != 0 {
        return Err(StepNo::NotNow { rule });
    }
    desk.settle(k);
    Ok(())
}
