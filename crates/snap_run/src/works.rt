//! The text that is run, read or generated; and a generated one printed.
ghost use Rattle.std.specs.Prelude.{◌≡◌, ◌≢◌, ◌+◌, ◌<◌, ◌≤◌, length, IfOk, IsErrOf, MatchResult};
ghost use Rattle.std.specs.Io.KnownBytes.{Consumes, IsAtEnd};
ghost use Rattle.run_work.specs.Writings.{writing_of};
ghost use Rattle.snap_outside.specs.Causes.{Rose, EndsAtFault};
ghost use Rattle.snap_run.specs.Answers.{OfText, IsInputAnswer, IsGenAnswer};
ghost use Rattle.snap_run.specs.Uses.{Reading, reading_of};
ghost use Rattle.snap_work.specs.Kept.{KeepsLimits};
ghost use Rattle.snap_work.specs.Works.{work_of};
ghost use Rattle.snap_work.specs.declared.limits.TheConstants.{MOST_TRANSACTIONS, LONGEST_WORK};
ghost use Rattle.work_gen.specs.Generated.{generated_text};
ghost use Rattle.work_gen.specs.work_text.Reads.{IsWork};

use run_work::{Memory, write_all};
use snap_outside::{Failed, Sink, Source};
use snap_report::Status;
use snap_work::{LONGEST_WORK, Work, WorkNo};
use std::alloc::Global;
use work_gen::{
    a_work_is_short, generate, generated_texts_are_works, one_work, parse_work,
    transactions_may_run,
};

/// The work that the input stands for.
pub(crate) fn read_work<I: Source>(alloc: Global, input: &mut I) -> Result<Work, Status>
    ensures answer { let r : Reading = reading_of I.Source input.old input.new in MatchResult result (λ w. OfText r (λ v. v ≡ work_of w)) (λ s. IsInputAnswer r s) }
    ensures limits { IfOk result (λ w. KeepsLimits (work_of w)) }
    ensures once { EndsAtFault (¬ IsErrOf result Status.ReadFault) (I.faults input.old) (I.late input.old) (I.faults input.new) (I.late input.new) }
{
    a_work_is_short();
    transactions_may_run();
    let bytes = match read_input(alloc, input) {
        Ok(bytes) => bytes,
        Err(ReadNo::Fault) => return Err(Status::ReadFault),
        Err(ReadNo::Memory) => return Err(Status::Memory),
    };
    match parse_work(alloc, bytes.as_slice()) {
        Ok(work) => Ok(work),
        Err(WorkNo::Fault(fault)) => Err(Status::Input {
            line: fault.line,
            cause: fault.cause,
        }),
        Err(WorkNo::Memory) => Err(Status::Memory),
    }
}

/// Why there is no input.
pub(crate) enum ReadNo {
    Fault,
    Memory,
}

/// Reads a source to its end, or one byte more than an input may have.
pub(crate) fn read_input<I: Source>(alloc: Global, input: &mut I) -> Result<Vec<u8>, ReadNo>
    ensures moved { IfOk result (λ v. Consumes (I.left input.old) (I.left input.new) v.items) }
    ensures whole { IfOk result (λ v. length v.items ≤ LONGEST_WORK → IsAtEnd (I.left input.new)) }
    ensures most { IfOk result (λ v. length v.items ≤ LONGEST_WORK + 1) }
    ensures later { I.faults input.old ≤ I.faults input.new }
    ensures fault { IsErrOf result ReadNo.Fault → Rose (I.faults input.old) (I.faults input.new) }
    ensures once { EndsAtFault (¬ IsErrOf result ReadNo.Fault) (I.faults input.old) (I.late input.old) (I.faults input.new) (I.late input.new) }
{
    let mut bytes = Vec::new(alloc);
    let mut piece = [0u8; 4096];
    while bytes.len() <= LONGEST_WORK {
        let room = (LONGEST_WORK + 1 - bytes.len()).min(piece.len());
        let Ok(count) = input.read(&mut piece[..room]) else {
            return Err(ReadNo::Fault);
        };
        if count == 0 {
            break;
        }
        if bytes.extend_from_slice(&piece[..count]).is_err() {
            return Err(ReadNo::Memory);
        }
    }
    Ok(bytes)
}

/// The work that the text of so many transactions stands for, which the seed draws. The only refusal is want of memory.
pub(crate) fn generated_work(alloc: Global, count: u32, seed: u64) -> Result<Work, Memory>
    requires { count ≤ MOST_TRANSACTIONS }
    ensures work { IfOk result (λ w. IsWork (generated_text count seed) (work_of w)) }
    ensures count { IfOk result (λ w. length (work_of w).txs ≡ count) }
    ensures limits { IfOk result (λ w. KeepsLimits (work_of w)) }
{
    generated_texts_are_works();
    one_work();
    transactions_may_run();
    let text = generate(alloc, count, seed)?;
    match parse_work(alloc, text.as_slice()) {
        Ok(work) => Ok(work),
        // The text has no fault.
        Err(_) => Err(Memory),
    }
}

/// Prints the text of so many transactions that the seed draws.
pub(crate) fn print_generated<O: Sink>(alloc: Global, count: u32, seed: u64, out: &mut O) -> Status
    requires { count ≤ MOST_TRANSACTIONS }
    ensures answer { IsGenAnswer (generated_text count seed) (writing_of O.Sink out.old out.new) result }
    ensures once { EndsAtFault (result ≢ Status.OutFault) (O.faults out.old) (O.late out.old) (O.faults out.new) (O.late out.new) }
{
    let Ok(text) = generate(alloc, count, seed) else {
        return Status::Memory;
    };
    if write_all(out, text.as_slice()).is_err() {
        return Status::OutFault;
    }
    Status::Done
}
