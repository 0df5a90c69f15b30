//! The call on one thread.
ghost use Rattle.std.specs.Prelude.{◌≡◌, ◌≢◌, ◌⊎◌, ◌≤◌, ℕ, List, [], map, string_bytes, vec_len};
ghost use Rattle.command_words.specs.Words.{IsRunCommand, IsBench};
ghost use Rattle.command_words.specs.Workers.{AskFor};
ghost use Rattle.run_work.specs.run_recovery.Schedules.{seeded};
ghost use Rattle.run_work.specs.Runs.{IsOfLogs, OutStood};
ghost use Rattle.snap_outside.specs.Causes.{EndsAtFault, Rose};
ghost use Rattle.run_work.specs.run_opening.snap_recover.declared.openings.Opening.{Opening};
ghost use Rattle.snap_report.specs.declared.audit_faults.AuditFault.{AuditFault};
ghost use Rattle.snap_report.specs.declared.statuses.Status.TheVariants as status;
ghost use Rattle.snap_run.specs.Answers.{IsUntroubled, IsPrintable, IsMeasured, MayBeMeasured, GetsNoCall};
ghost use Rattle.snap_run.specs.Audits.{IsAuditable};
ghost use Rattle.snap_run.specs.Compactions.{IsCompactable};
ghost use Rattle.snap_run.specs.Followings.{IsFollowable};
ghost use Rattle.snap_run.specs.Migrations.{IsMigratable};
ghost use Rattle.snap_run.specs.Outcomes.{IsOutcome};
ghost use Rattle.snap_run.specs.Recoveries.{IsRecoverable};
ghost use Rattle.snap_run.specs.Uses.{Reading, Use, reading_of, use_of, use_by};
ghost use Rattle.snap_work.specs.Works.{Work};
ghost use Rattle.trace_audit.specs.AuditNos.{fault_meant};
ghost use Rattle.trace_audit.specs.audit_words.Inputs.{IsFirstFault, IsInOrder};
ghost use Rattle.snap_work.specs.declared.limits.TheConstants.{MOST_TRANSACTIONS};
ghost use Rattle.record_log.specs.txn_records.declared.records.Record.{Record};

use crate::audits::print_audit;
use crate::compactions::print_compacted;
use crate::endings::{Outcome, done_or_no_memory};
use crate::followings::print_followed;
use crate::migrations::print_migrated;
use crate::recoveries::print_recovered;
use crate::works::{generated_work, print_generated, read_work};
use command_words::{Command, one_command, read_words};
use run_work::{Call, HasRun, Told, run_work};
use snap_outside::{LogDev, Sink, Source};
use snap_report::Status;
use std::alloc::Global;
use work_gen::one_work;

/// Does what the words ask for. `run` reads a work text from `input` and runs it on the machine by the schedule of the seed: it
/// goes on from what the logs in use hold, writes the records of the run there, prints its replies and its end to `out`, and
/// at last a line of each event to `trace`. `audit` reads the papers of a run and says whether they are in order. The other
/// commands read no input: `recover` prints what the logs in use recover to, `migrate` makes those of format 1 ones of format 2,
/// `compact` writes a checkpoint in place of their records, `follow` reads them so many times beside a run and prints what a
/// follower of them has then, `gen` prints a generated text, and `bench` runs one as `run` runs
/// its input, but prints the summary of the run alone. The words ask for no workers. Each refusal is a status of the outcome. It
/// returns.
pub fn run_solo<I: Source, D: LogDev, O: Sink, T: Sink>(
    alloc: Global,
    words: &[String],
    input: &mut I,
    logs: Vec<D>,
    out: O,
    trace: T,
) -> Outcome<D, O, T>
    requires four { vec_len logs ≡ 4 }
    // They ask for no workers.
    requires alone { AskFor (map string_bytes words.now) 0 }
    // Each answer has its cause, and tells what was printed, traced and left on the logs.
    ensures outcome { IsOutcome (use_by I.Source D.LogDev O.Sink T.Sink (map string_bytes words.now) input.old input.new logs out trace result) result.status }
    // Where nothing stands in the way, the work is run to its end, or there is no memory.
    ensures complete { let u : Use = use_by I.Source D.LogDev O.Sink T.Sink (map string_bytes words.now) input.old input.new logs out trace result in
        (text : List ℕ) (w : Work) (records : List (List Record)) (o : Opening) → IsUntroubled u text w records o → (result.status ≡ status.Done) ⊎ (result.status ≡ status.Memory) }
    // Where nothing stands in the way of recovering, what the logs recover to is printed, or there is no memory.
    ensures complete_recover { let u : Use = use_by I.Source D.LogDev O.Sink T.Sink (map string_bytes words.now) input.old input.new logs out trace result in
        (kept : List (List Record)) → IsRecoverable u kept → (result.status ≡ status.Done) ⊎ (result.status ≡ status.Memory) }
    // Where nothing stands in the way of recovering, those logs in use that are of format 1 are made ones of format 2, or there is no memory.
    ensures complete_migrate { let u : Use = use_by I.Source D.LogDev O.Sink T.Sink (map string_bytes words.now) input.old input.new logs out trace result in
        (kept : List (List Record)) → IsMigratable u kept → (result.status ≡ status.Done) ⊎ (result.status ≡ status.Memory) }
    // Where nothing stands in the way of compacting, a checkpoint is written in place of old records, or there is no memory.
    ensures complete_compact { let u : Use = use_by I.Source D.LogDev O.Sink T.Sink (map string_bytes words.now) input.old input.new logs out trace result in
        (kept : List (List Record)) → IsCompactable u kept → (result.status ≡ status.Done) ⊎ (result.status ≡ status.Memory) }
    // Where nothing stands in the way of following, what the follower has is printed, or there is no memory.
    ensures complete_follow { let u : Use = use_by I.Source D.LogDev O.Sink T.Sink (map string_bytes words.now) input.old input.new logs out trace result in
        (kept : List (List Record)) → IsFollowable u kept → (result.status ≡ status.Done) ⊎ (result.status ≡ status.Memory) }
    // Where the output takes it, a generated text is printed, or there is no memory.
    ensures complete_gen { let u : Use = use_by I.Source D.LogDev O.Sink T.Sink (map string_bytes words.now) input.old input.new logs out trace result in
        IsPrintable u → (result.status ≡ status.Done) ⊎ (result.status ≡ status.Memory) }
    // Where the papers in the input are in order, and nothing fails, it is said, or there is no memory.
    ensures complete_audit { let u : Use = use_by I.Source D.LogDev O.Sink T.Sink (map string_bytes words.now) input.old input.new logs out trace result in
        (text : List ℕ) → IsAuditable u text → IsInOrder text → ¬ Rose u.writing.faults_before u.writing.faults_after → (result.status ≡ status.Done) ⊎ (result.status ≡ status.Memory) }
    // Where they are not, what is wrong first is told, or there is no memory.
    ensures complete_fault { let u : Use = use_by I.Source D.LogDev O.Sink T.Sink (map string_bytes words.now) input.old input.new logs out trace result in
        (text : List ℕ) (fault : AuditFault) → IsAuditable u text → IsFirstFault text (fault_meant fault) → (result.status ≡ status.Audit fault) ⊎ (result.status ≡ status.Memory) }
    // Where nothing stands in the way of a generated text, it is run to its end, or there is no memory.
    ensures complete_bench { let u : Use = use_by I.Source D.LogDev O.Sink T.Sink (map string_bytes words.now) input.old input.new logs out trace result in
        (count seed workers : ℕ) (w : Work) (records : List (List Record)) (o : Opening)
        → IsBench u.words count seed workers → MayBeMeasured u count seed w records o → (result.status ≡ status.Done) ⊎ (result.status ≡ status.Memory) }
    // Before the text is accepted, no log gets a call.
    ensures untouched { GetsNoCall result.status → result.logs ≡ logs }
    // Where no event is kept, the trace gets none.
    ensures no_trace { result.kept.items ≡ [] → result.trace ≡ trace }
    // The output, the trace and the input get no call after one that failed. They did not fail where the status tells so.
    ensures out_once { EndsAtFault (OutStood result.status) (O.faults out) (O.late out) (O.faults result.out) (O.late result.out) }
    ensures trace_once { EndsAtFault (result.status ≡ status.Done) (T.faults trace) (T.late trace) (T.faults result.trace) (T.late result.trace) }
    ensures input_once { EndsAtFault (result.status ≢ status.ReadFault) (I.faults input.old) (I.late input.old) (I.faults input.new) (I.late input.new) }
    // The devices come back, all of them.
    ensures four { vec_len result.logs ≡ 4 }
{
    done_or_no_memory();
    let HasRun { kept, status, call } = answer(alloc, words, input, Call { logs, out, trace });
    let Call { logs, out, trace } = call;
    Outcome {
        status,
        kept,
        logs,
        out,
        trace,
    }
}

/// Reads the words and does what they ask for.
fn answer<I: Source, D: LogDev, O: Sink, T: Sink>(
    alloc: Global,
    words: &[String],
    input: &mut I,
    call: Call<D, O, T>,
) -> HasRun<D, O, T>
    requires four { vec_len call.logs ≡ 4 }
    requires alone { AskFor (map string_bytes words.now) 0 }
    ensures outcome { IsOutcome (use_of (map string_bytes words.now) (reading_of I.Source input.old input.new) call result.call result.kept.items) result.status }
    ensures opens { let u : Use = use_of (map string_bytes words.now) (reading_of I.Source input.old input.new) call result.call result.kept.items in
        (text : List ℕ) (w : Work) (records : List (List Record)) (o : Opening) → IsUntroubled u text w records o → ¬ IsOfLogs result.status }
    ensures opens_bench { let u : Use = use_of (map string_bytes words.now) (reading_of I.Source input.old input.new) call result.call result.kept.items in
        (count seed workers : ℕ) (w : Work) (records : List (List Record)) (o : Opening)
        → IsBench u.words count seed workers → MayBeMeasured u count seed w records o → ¬ IsOfLogs result.status }
    ensures untouched { GetsNoCall result.status → result.call.logs ≡ call.logs }
    ensures no_trace { result.kept.items ≡ [] → result.call.trace ≡ call.trace }
    ensures out_once { EndsAtFault (OutStood result.status) call.output.faults call.output.late result.call.output.faults result.call.output.late }
    ensures trace_once { EndsAtFault (result.status ≡ status.Done) call.tracing.faults call.tracing.late result.call.tracing.faults result.call.tracing.late }
    ensures input_once { EndsAtFault (result.status ≢ status.ReadFault) (I.faults input.old) (I.late input.old) (I.faults input.new) (I.late input.new) }
    ensures four { vec_len result.call.logs ≡ 4 }
{
    one_command();
    match read_words(words) {
        Ok(Command::Run { seed, .. }) => run_input(alloc, input, seed, call),
        Ok(Command::Recover) => {
            let mut call = call;
            let status = print_recovered(alloc, &mut call.logs, &mut call.out);
            HasRun {
                kept: Vec::new(alloc),
                status,
                call,
            }
        }
        Ok(Command::Migrate) => {
            let mut call = call;
            let status = print_migrated(alloc, &mut call.logs, &mut call.out);
            HasRun {
                kept: Vec::new(alloc),
                status,
                call,
            }
        }
        Ok(Command::Compact) => {
            let mut call = call;
            let status = print_compacted(alloc, &mut call.logs, &mut call.out);
            HasRun {
                kept: Vec::new(alloc),
                status,
                call,
            }
        }
        Ok(Command::Follow { rounds }) => {
            let mut call = call;
            let status = print_followed(alloc, rounds, &mut call.logs, &mut call.out);
            HasRun {
                kept: Vec::new(alloc),
                status,
                call,
            }
        }
        Ok(Command::Audit) => {
            let mut call = call;
            let status = print_audit(alloc, input, &mut call.out);
            HasRun {
                kept: Vec::new(alloc),
                status,
                call,
            }
        }
        Ok(Command::Gen { count, seed }) => {
            let mut call = call;
            let status = print_generated(alloc, count, seed, &mut call.out);
            HasRun {
                kept: Vec::new(alloc),
                status,
                call,
            }
        }
        Ok(Command::Bench { count, seed, .. }) => run_generated(alloc, count, seed, call),
        Err(word) => HasRun {
            kept: Vec::new(alloc),
            status: Status::Usage { word },
            call,
        },
    }
}

/// Runs the work that the input stands for, by the schedule of the seed, and prints its report.
fn run_input<I: Source, D: LogDev, O: Sink, T: Sink>(
    alloc: Global,
    input: &mut I,
    seed: u64,
    call: Call<D, O, T>,
) -> HasRun<D, O, T>
    requires { vec_len call.logs ≡ 4 }
    ensures outcome { (words : List (List ℕ)) → IsRunCommand words 0 seed → IsOutcome (use_of words (reading_of I.Source input.old input.new) call result.call result.kept.items) result.status }
    ensures opens { (words : List (List ℕ)) → let u : Use = use_of words (reading_of I.Source input.old input.new) call result.call result.kept.items in
        (text : List ℕ) (w : Work) (records : List (List Record)) (o : Opening) → IsUntroubled u text w records o → ¬ IsOfLogs result.status }
    ensures untouched { GetsNoCall result.status → result.call.logs ≡ call.logs }
    ensures no_trace { result.kept.items ≡ [] → result.call.trace ≡ call.trace }
    ensures out_once { EndsAtFault (OutStood result.status) call.output.faults call.output.late result.call.output.faults result.call.output.late }
    ensures trace_once { EndsAtFault (result.status ≡ status.Done) call.tracing.faults call.tracing.late result.call.tracing.faults result.call.tracing.late }
    ensures input_once { EndsAtFault (result.status ≢ status.ReadFault) (I.faults input.old) (I.late input.old) (I.faults input.new) (I.late input.new) }
    ensures four { vec_len result.call.logs ≡ 4 }
{
    one_command();
    one_work();
    match read_work(alloc, input) {
        Ok(work) => run_work(alloc, work, Told::Report, seed, call),
        Err(status) => HasRun {
            kept: Vec::new(alloc),
            status,
            call,
        },
    }
}

/// Runs the text of so many transactions that the seed draws, by the schedule of seed 0, and prints its summary.
fn run_generated<D: LogDev, O: Sink, T: Sink>(
    alloc: Global,
    count: u32,
    seed: u64,
    call: Call<D, O, T>,
) -> HasRun<D, O, T>
    requires few { count ≤ MOST_TRANSACTIONS }
    requires four { vec_len call.logs ≡ 4 }
    ensures answer { (words : List (List ℕ)) (reading : Reading) → IsMeasured (use_of words reading call result.call result.kept.items) (seeded 0) count seed result.status }
    ensures opens { (words : List (List ℕ)) (reading : Reading) → let u : Use = use_of words reading call result.call result.kept.items in
        (w : Work) (records : List (List Record)) (o : Opening) → MayBeMeasured u count seed w records o → ¬ IsOfLogs result.status }
    ensures untouched { GetsNoCall result.status → result.call.logs ≡ call.logs }
    ensures no_trace { result.kept.items ≡ [] → result.call.trace ≡ call.trace }
    ensures out_once { EndsAtFault (result.status ≢ status.OutFault) call.output.faults call.output.late result.call.output.faults result.call.output.late }
    ensures trace_once { EndsAtFault (result.status ≡ status.Done) call.tracing.faults call.tracing.late result.call.tracing.faults result.call.tracing.late }
    ensures four { vec_len result.call.logs ≡ 4 }
{
    one_work();
    match generated_work(alloc, count, seed) {
        Ok(work) => run_work(alloc, work, Told::Summary, 0, call),
        Err(_) => HasRun {
            kept: Vec::new(alloc),
            status: Status::Memory,
            call,
        },
    }
}
