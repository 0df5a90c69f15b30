//! The call with several workers.
ghost use Rattle.std.specs.Prelude.{◌≡◌, ◌≢◌, ◌<◌, ◌≤◌, ℕ, List, [], map, string_bytes, vec_len};
ghost use Rattle.command_words.specs.Words.{IsRunCommand, IsBench};
ghost use Rattle.command_words.specs.Workers.{AskFor};
ghost use Rattle.run_work.specs.run_recovery.Schedules.{free};
ghost use Rattle.run_work.specs.Runs.{IsOfLogs, OutStood};
ghost use Rattle.snap_outside.specs.Causes.{EndsAtFault};
ghost use Rattle.run_work.specs.run_opening.snap_recover.declared.openings.Opening.{Opening};
ghost use Rattle.snap_report.specs.declared.statuses.Status.TheVariants as status;
ghost use Rattle.snap_run.specs.Answers.{IsUntroubled, IsMeasured, MayBeMeasured, GetsNoCall};
ghost use Rattle.snap_run.specs.Outcomes.{IsOutcome};
ghost use Rattle.snap_run.specs.Uses.{Reading, Use, reading_of, use_of};
ghost use Rattle.snap_work.specs.Works.{Work};
ghost use Rattle.snap_work.specs.declared.limits.TheConstants.{MOST_TRANSACTIONS, MOST_WORKERS};
ghost use Rattle.record_log.specs.txn_records.declared.records.Record.{Record};

use crate::works::{generated_work, read_work};
use command_words::{Command, one_command, read_words};
use run_work::{Call, HasRun, crew_summary, crew_work};
use snap_outside::{Gate, LogDev, Sink, Source};
use snap_report::Status;
use std::alloc::Global;
use std::sync::Wait;
use std::thread::Threads;
use work_gen::one_work;

/// Reads the words, which ask for workers, and does what they ask for.
pub(crate) fn crew_answer<
    R: Threads + Wait + Sync,
    I: Source,
    D: LogDev + Drop + Send,
    O: Sink + Drop + Send,
    T: Sink,
    G: Gate + Sync,
>(
    rt: &R,
    alloc: Global,
    words: &[String],
    input: &mut I,
    gate: &G,
    call: Call<D, O, T>,
) -> HasRun<D, O, T>
    requires four { vec_len call.logs ≡ 4 }
    requires crew { ¬ AskFor (map string_bytes words.now) 0 }
    ensures outcome { IsOutcome (use_of (map string_bytes words.now) (reading_of I.Source input.old input.new) call result.call result.kept.items) result.status }
    ensures opens { let u : Use = use_of (map string_bytes words.now) (reading_of I.Source input.old input.new) call result.call result.kept.items in
        (text : List ℕ) (w : Work) (records : List (List Record)) (o : Opening) → IsUntroubled u text w records o → ¬ IsOfLogs result.status }
    ensures opens_bench { let u : Use = use_of (map string_bytes words.now) (reading_of I.Source input.old input.new) call result.call result.kept.items in
        (count seed workers : ℕ) (w : Work) (records : List (List Record)) (o : Opening)
        → IsBench u.words count seed workers → MayBeMeasured u count seed w records o → ¬ IsOfLogs result.status }
    ensures untouched { GetsNoCall result.status → result.call.logs ≡ call.logs }
    ensures no_trace { result.kept.items ≡ [] → result.call.trace ≡ call.trace }
    ensures out_once { EndsAtFault (OutStood result.status) call.output.faults call.output.late result.call.output.faults result.call.output.late }
    ensures trace_once { EndsAtFault (result.status ≡ status.Done) call.tracing.faults call.tracing.late result.call.tracing.faults result.call.tracing.late }
    ensures input_once { EndsAtFault (result.status ≢ status.ReadFault) (I.faults input.old) (I.late input.old) (I.faults input.new) (I.late input.new) }
    ensures four { vec_len result.call.logs ≡ 4 }
{
    one_command();
    match read_words(words) {
        Ok(Command::Run { workers, .. }) => { crew_input(rt, alloc, input, workers, gate, call) }
        Ok(
            Command::Bench {
                count,
                seed,
                workers,
            },
        ) => { crew_generated(rt, alloc, count, seed, workers, gate, call) }
        _ => unreachable!(),
    }
}

/// Runs the work that the input stands for, by so many workers, and prints its report.
fn crew_input<
    R: Threads + Wait + Sync,
    I: Source,
    D: LogDev + Drop + Send,
    O: Sink + Drop + Send,
    T: Sink,
    G: Gate + Sync,
>(
    rt: &R,
    alloc: Global,
    input: &mut I,
    workers: u8,
    gate: &G,
    call: Call<D, O, T>,
) -> HasRun<D, O, T>
    requires four { vec_len call.logs ≡ 4 }
    requires some { 0 < workers }
    requires few { workers ≤ MOST_WORKERS }
    ensures outcome { (words : List (List ℕ)) (seed : ℕ) → IsRunCommand words workers seed
        → IsOutcome (use_of words (reading_of I.Source input.old input.new) call result.call result.kept.items) result.status }
    ensures opens { (words : List (List ℕ)) → let u : Use = use_of words (reading_of I.Source input.old input.new) call result.call result.kept.items in
        (text : List ℕ) (w : Work) (records : List (List Record)) (o : Opening) → IsUntroubled u text w records o → ¬ IsOfLogs result.status }
    ensures untouched { GetsNoCall result.status → result.call.logs ≡ call.logs }
    ensures no_trace { result.kept.items ≡ [] → result.call.trace ≡ call.trace }
    ensures out_once { EndsAtFault (OutStood result.status) call.output.faults call.output.late result.call.output.faults result.call.output.late }
    ensures trace_once { EndsAtFault (result.status ≡ status.Done) call.tracing.faults call.tracing.late result.call.tracing.faults result.call.tracing.late }
    ensures input_once { EndsAtFault (result.status ≢ status.ReadFault) (I.faults input.old) (I.late input.old) (I.faults input.new) (I.late input.new) }
    ensures four { vec_len result.call.logs ≡ 4 }
{
    one_command();
    one_work();
    match read_work(alloc, input) {
        Ok(work) => crew_work(rt, alloc, work, workers as usize, gate, call),
        Err(status) => HasRun {
            kept: Vec::new(alloc),
            status,
            call,
        },
    }
}

/// Runs the text of so many transactions that the seed draws, by so many workers, and prints its summary.
fn crew_generated<
    R: Threads + Wait + Sync,
    D: LogDev + Drop + Send,
    O: Sink + Drop + Send,
    T: Sink,
    G: Gate + Sync,
>(
    rt: &R,
    alloc: Global,
    count: u32,
    seed: u64,
    workers: u8,
    gate: &G,
    call: Call<D, O, T>,
) -> HasRun<D, O, T>
    requires few_transactions { count ≤ MOST_TRANSACTIONS }
    requires four { vec_len call.logs ≡ 4 }
    requires few { workers ≤ MOST_WORKERS }
    ensures answer { (words : List (List ℕ)) (reading : Reading) → IsMeasured (use_of words reading call result.call result.kept.items) free count seed result.status }
    ensures opens { (words : List (List ℕ)) (reading : Reading) → let u : Use = use_of words reading call result.call result.kept.items in
        (w : Work) (records : List (List Record)) (o : Opening) → MayBeMeasured u count seed w records o → ¬ IsOfLogs result.status }
    ensures untouched { GetsNoCall result.status → result.call.logs ≡ call.logs }
    ensures no_trace { result.kept.items ≡ [] → result.call.trace ≡ call.trace }
    ensures out_once { EndsAtFault (result.status ≢ status.OutFault) call.output.faults call.output.late result.call.output.faults result.call.output.late }
    ensures trace_once { EndsAtFault (result.status ≡ status.Done) call.tracing.faults call.tracing.late result.call.tracing.faults result.call.tracing.late }
    ensures four { vec_len result.call.logs ≡ 4 }
{
    one_work();
    match generated_work(alloc, count, seed) {
        Ok(work) => crew_summary(rt, alloc, work, workers as usize, gate, call),
        Err(_) => HasRun {
            kept: Vec::new(alloc),
            status: Status::Memory,
            call,
        },
    }
}
