//! The command that prints what the logs recover to.
ghost use Rattle.std.specs.Prelude.{◌≡◌, ◌≢◌, ◌≤◌, ◌++◌, length, vec_len, IfOk, OnOk, string_bytes};
ghost use Rattle.std.specs.List.{AllZip};
ghost use Rattle.record_log.specs.Records.{KeepsRecords};
ghost use Rattle.log_following.specs.log_opening.Devices.{Device, devices_of, IsOpenedAtMost};
ghost use Rattle.snap_outside.specs.Causes.{EndsAtFault};
ghost use Rattle.snap_report.specs.Lines.{actors_text, all_kept_text, batch_text, kept_text, lines_of, pact_place, act_place};
ghost use Rattle.run_work.specs.Writings.{writing_of};
ghost use Rattle.snap_run.specs.Recoveries.{recovered_report, IsRecoverAnswer};

use log_following::{Folded, recover_kept};
use log_migration::Kept;
use run_work::{ActorId, Bid, Memory, Place, State, Tid, push_actor, status_of, write_all};
use snap_outside::{LogDev, Sink};
use snap_report::{Status, kept_line, recovered_line};
use std::alloc::Global;

/// Prints what the logs on these devices recover to.
pub(crate) fn print_recovered<D: LogDev, O: Sink>(
    alloc: Global,
    devices: &mut Vec<D>,
    out: &mut O,
) -> Status
    requires { vec_len devices.old ≡ 4 }
    ensures answer { IsRecoverAnswer (devices_of D.told D.faults devices.old.items) (devices_of D.told D.faults devices.new.items) (writing_of O.Sink out.old out.new) result }
    ensures once { EndsAtFault (result ≢ Status.OutFault) (O.faults out.old) (O.late out.old) (O.faults out.new) (O.late out.new) }
    ensures four { vec_len devices.new ≡ 4 }
    ensures opened { AllZip IsOpenedAtMost (devices_of D.told D.faults devices.old.items) (devices_of D.told D.faults devices.new.items) }
    ensures safe { AllZip (λ (a b : Device). KeepsRecords a.told b.told) (devices_of D.told D.faults devices.old.items) (devices_of D.told D.faults devices.new.items) }
{
    let folded = match recover_kept(alloc, devices) {
        Ok(folded) => folded,
        Err(no) => return status_of(no),
    };
    let Ok(report) = report_of(alloc, &folded) else {
        return Status::Memory;
    };
    if write_all(out, report.as_bytes()).is_err() {
        return Status::OutFault;
    }
    Status::Done
}

/// The lines of the actors, those of what is kept, and what is recovered.
fn report_of(alloc: Global, folded: &Folded) -> Result<String, Memory>
    requires { length folded.now.opening.states ≤ 256 }
    ensures { IfOk result (λ s. string_bytes s ≡ recovered_report folded.now) }
{
    let opening = &folded.opening;
    let mut text = String::new(alloc);
    push_actors(alloc, &mut text, opening.states.as_slice())?;
    push_all_kept(alloc, &mut text, opening.committed.as_slice())?;
    let line = recovered_line(alloc, folded.batches, folded.acts, opening)?;
    text.push_str(line.as_str())?;
    Ok(text)
}

/// Adds the lines of the actors, which have these states.
pub(crate) fn push_actors(alloc: Global, text: &mut String, states: &[State]) -> Result<(), Memory>
    requires { length states.now ≤ 256 }
    ensures { OnOk result (string_bytes text.new ≡ string_bytes text.old ++ actors_text 0 states.now) }
{
    for (number, state) in states.iter().enumerate() {
        push_actor(alloc, text, ActorId(number as u16), state)?;
    }
    Ok(())
}

/// Adds the lines of all that is kept.
fn push_all_kept(alloc: Global, text: &mut String, committed: &[Kept]) -> Result<(), Memory>
    ensures { OnOk result (string_bytes text.new ≡ string_bytes text.old ++ all_kept_text committed.now) }
{
    for kept in committed {
        push_kept(alloc, text, kept)?;
    }
    Ok(())
}

/// Adds the lines of a batch's transactions, or that of one outside of batches.
fn push_kept(alloc: Global, text: &mut String, kept: &Kept) -> Result<(), Memory>
    ensures { OnOk result (string_bytes text.new ≡ string_bytes text.old ++ lines_of kept.now) }
{
    match kept {
        Kept::Batch { bid, tids, values } => {
            push_batch(alloc, text, *bid, tids.as_slice(), values.as_slice())
        }
        Kept::Act { m, c, value, .. } => push_line(alloc, text, act_place(*m, *c), *value),
    }
}

/// Adds the lines of a batch's transactions, with their values where these are known.
fn push_batch(
    alloc: Global,
    text: &mut String,
    bid: Bid,
    tids: &[Tid],
    values: &[i64],
) -> Result<(), Memory>
    ensures { OnOk result (string_bytes text.new ≡ string_bytes text.old ++ batch_text bid tids.now values.now) }
{
    for (number, tid) in tids.iter().enumerate() {
        push_line(
            alloc,
            text,
            pact_place(bid, *tid),
            values.get(number).copied(),
        )?;
    }
    Ok(())
}

/// Adds the line of one transaction.
fn push_line(
    alloc: Global,
    text: &mut String,
    place: Place,
    value: Option<i64>,
) -> Result<(), Memory>
    ensures { OnOk result (string_bytes text.new ≡ string_bytes text.old ++ kept_text place value) }
{
    let line = kept_line(alloc, place, value)?;
    text.push_str(line.as_str())?;
    Ok(())
}

/// The place of a transaction of a batch.
fn pact_place(bid: Bid, tid: Tid) -> Place
    ensures { result ≡ pact_place bid tid }
{
    Place {
        batch: bid,
        side: 0,
        order: tid.0,
    }
}

/// The place of a transaction outside of batches, behind the batch `m`.
fn act_place(m: Bid, c: u64) -> Place
    ensures { result ≡ act_place m c }
{
    Place {
        batch: m,
        side: 1,
        order: c,
    }
}
