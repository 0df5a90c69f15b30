//! The rows that change a log: its records become durable, and the commit record of a batch is added.
ghost use Rattle.std.specs.Prelude.{◌≡◌, ◌%◌, OnOk, OnErr, IfErr};
ghost use Rattle.protocol.specs.Events.{Commit, Sync};
ghost use Rattle.core_rows.specs.Showing.{ShowsDesk, ShowsLogAt};
ghost use Rattle.core_rows.specs.Taken.{IsOfRun, IsTaken, IsRefusal, IsNo, IsRule};

use crate::StepNo;
use crate::asking::first_no;
use crate::laws::rows_may;
use batch_table::Desk;
use log_set::LogPart;
use snap_base::Bid;
use std::alloc::Global;
use txn_records::{Record, values_fit};

/// Sync: 1 where its condition is false, or 0.
pub fn sync_refusal<C>(log: &LogPart, l: u8) -> u8
    ensures { IsRefusal {C = C} (Sync l) (λ w s. ShowsLogAt l log.now s) result }
{
    let waiting = log.has_waiting();
    first_no(&[waiting])
}

/// Sync: all records of log `l` become durable.
pub fn sync<C>(log: &mut LogPart, l: u8) -> Result<(), StepNo>
    ensures ok { OnOk result (IsTaken {C = C} (Sync l) (λ w s. ShowsLogAt l log.old s) (λ w s. ShowsLogAt l log.new s)) }
    ensures no { IfErr result (IsNo {C = C} (Sync l) (λ w s. ShowsLogAt l log.old s)) }
    ensures rule { IfErr result IsRule }
    ensures unchanged { OnErr result (log.new ≡ log.old) }
{
    let rule = sync_refusal::<C>(log, l);
    if rule != 0 {
        return Err(StepNo::NotNow { rule });
    }
    log.sync();
    Ok(())
}

/// Commit: which of its conditions is the first false one, or 0.
pub fn commit_refusal<C>(desk: &Desk, log: &LogPart, k: Bid) -> u8
    ensures { IsRefusal {C = C} (Commit k.0) (λ w s. ShowsDesk desk.now s × ShowsLogAt (k.0 % w.text.logs) log.now s) result }
{
    let next = desk.is_next(k);
    let ended = desk.all_ended_well(k);
    let noted = desk.all_noted(k);
    let durable = log.has_info(k);
    first_no(&[next, ended, noted, durable])
}

/// Commit: the commit record of the batch is added, with the values of its PACTs.
pub fn commit<C>(alloc: Global, desk: &mut Desk, log: &mut LogPart, k: Bid) -> Result<(), StepNo>
    requires { IsOfRun {C = C} (λ w s. ShowsDesk desk.old s × ShowsLogAt (k.0 % w.text.logs) log.old s) }
    ensures ok { OnOk result (IsTaken {C = C} (Commit k.0) (λ w s. ShowsDesk desk.old s × ShowsLogAt (k.0 % w.text.logs) log.old s) (λ w s. ShowsDesk desk.new s × ShowsLogAt (k.0 % w.text.logs) log.new s)) }
    ensures no { IfErr result (IsNo {C = C} (Commit k.0) (λ w s. ShowsDesk desk.old s × ShowsLogAt (k.0 % w.text.logs) log.old s)) }
    ensures desk { OnErr result (desk.new ≡ desk.old) }
    ensures log { OnErr result (log.new.log ≡ log.old.log) }
{
    rows_may::<C>();
    let rule = commit_refusal::<C>(desk, log, k);
    if rule != 0 {
        return Err(StepNo::NotNow { rule });
    }
    let values = desk.values(alloc, k)?;
    values_fit(values.as_slice());
    let record = Record::BatchDone { bid: k, values };
    log.add(alloc, &record)?;
    desk.commit(k);
    Ok(())
}
