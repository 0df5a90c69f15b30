//! The command that says whether its input is the papers of a run.
ghost use Rattle.std.specs.Prelude.{◌≡◌, ◌≢◌, IsErrOf, MatchResult};
ghost use Rattle.run_work.specs.Writings.{writing_of};
ghost use Rattle.snap_outside.specs.Causes.{EndsAtFault};
ghost use Rattle.snap_run.specs.Audits.{IsAuditAnswer, IsAuditRefusal, OfInput};
ghost use Rattle.snap_run.specs.Uses.{Reading, reading_of};
ghost use Rattle.trace_audit.specs.audit_words.Inputs.{IsInOrder};

use crate::works::{ReadNo, read_input};
use run_work::write_all;
use snap_outside::{Sink, Source};
use snap_report::Status;
use snap_work::{LONGEST_WORK, Limit, WorkCause};
use std::alloc::Global;
use trace_audit::{AuditNo, audit};

/// Reads the input, and prints that it is the papers of a run, where it is.
pub(crate) fn print_audit<I: Source, O: Sink>(alloc: Global, input: &mut I, out: &mut O) -> Status
    ensures answer { IsAuditAnswer (reading_of I.Source input.old input.new) (writing_of O.Sink out.old out.new) result }
    ensures out_once { EndsAtFault (result ≢ Status.OutFault) (O.faults out.old) (O.late out.old) (O.faults out.new) (O.late out.new) }
    ensures input_once { EndsAtFault (result ≢ Status.ReadFault) (I.faults input.old) (I.late input.old) (I.faults input.new) (I.late input.new) }
{
    match audit_input(alloc, input) {
        Ok(()) => {}
        Err(status) => return status,
    }
    if write_all(out, "audit ok\n".as_bytes()).is_err() {
        return Status::OutFault;
    }
    Status::Done
}

/// Reads the input, and says whether it is the papers of a run: the status tells what is wrong with it first, that it is too long,
/// that the source failed, or that there was no memory.
fn audit_input<I: Source>(alloc: Global, input: &mut I) -> Result<(), Status>
    ensures answer { let r : Reading = reading_of I.Source input.old input.new in MatchResult result (λ u. OfInput r IsInOrder) (λ s. IsAuditRefusal r s) }
    ensures stood { ¬ IsErrOf result Status.OutFault }
    ensures once { EndsAtFault (¬ IsErrOf result Status.ReadFault) (I.faults input.old) (I.late input.old) (I.faults input.new) (I.late input.new) }
{
    let bytes = match read_input(alloc, input) {
        Ok(bytes) => bytes,
        Err(ReadNo::Fault) => return Err(Status::ReadFault),
        Err(ReadNo::Memory) => return Err(Status::Memory),
    };
    if bytes.len() > LONGEST_WORK {
        let cause = WorkCause::Limit {
            which: Limit::Input,
            found: LONGEST_WORK as u64 + 1,
        };
        return Err(Status::Input { line: 0, cause });
    }
    match audit(alloc, bytes.as_slice()) {
        Ok(()) => Ok(()),
        Err(AuditNo::Fault(fault)) => Err(Status::Audit { fault }),
        Err(AuditNo::Memory) => Err(Status::Memory),
    }
}
