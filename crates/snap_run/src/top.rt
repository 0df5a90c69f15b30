//! The call.
ghost use Rattle.std.specs.Prelude.{◌≡◌, ◌≢◌, ◌⊎◌, ℕ, List, [], map, string_bytes, vec_len};
ghost use Rattle.command_words.specs.Words.{IsBench};
ghost use Rattle.run_work.specs.Runs.{OutStood};
ghost use Rattle.snap_outside.specs.Causes.{EndsAtFault, Rose};
ghost use Rattle.run_work.specs.run_opening.snap_recover.declared.openings.Opening.{Opening};
ghost use Rattle.snap_report.specs.declared.audit_faults.AuditFault.{AuditFault};
ghost use Rattle.snap_report.specs.declared.statuses.Status.TheVariants as status;
ghost use Rattle.snap_run.specs.Answers.{IsUntroubled, IsPrintable, MayBeMeasured, GetsNoCall};
ghost use Rattle.snap_run.specs.Audits.{IsAuditable};
ghost use Rattle.snap_run.specs.Compactions.{IsCompactable};
ghost use Rattle.snap_run.specs.Followings.{IsFollowable};
ghost use Rattle.snap_run.specs.Migrations.{IsMigratable};
ghost use Rattle.snap_run.specs.Outcomes.{IsOutcome};
ghost use Rattle.snap_run.specs.Recoveries.{IsRecoverable};
ghost use Rattle.snap_run.specs.Uses.{Use, use_by};
ghost use Rattle.snap_work.specs.Works.{Work};
ghost use Rattle.trace_audit.specs.AuditNos.{fault_meant};
ghost use Rattle.trace_audit.specs.audit_words.Inputs.{IsFirstFault, IsInOrder};
ghost use Rattle.record_log.specs.txn_records.declared.records.Record.{Record};

use crate::crews::crew_answer;
use crate::endings::{Outcome, done_or_no_memory};
use crate::solo::run_solo;
use command_words::{one_command, workers_of};
use run_work::{Call, HasRun};
use snap_outside::{Gate, LogDev, Sink, Source};
use std::alloc::Global;
use std::sync::Wait;
use std::thread::Threads;

/// Does what the words ask for. `run` reads a work text from `input` and runs it on the machine: with no workers by the schedule
/// of the seed, and else with so many, each of which takes the events that it comes to and passes the gate before a slice. It
/// goes on from what the logs in use hold, writes the records of the run there, prints its replies and its end to `out`, and
/// at last a line of each event to `trace`. `audit` reads the papers of a run and says whether they are in order. The other
/// commands read no input: `recover` prints what the logs in use recover to, `migrate` makes those of format 1 ones of format 2,
/// `compact` writes a checkpoint in place of their records, `follow` reads them so many times beside a run and prints what a
/// follower of them has then, `gen` prints a generated text, and `bench` runs one as `run` runs
/// its input, but prints the summary of the run alone. Each refusal is a status of the outcome. Without workers it returns;
/// whether it returns with some is not promised.
pub fn run<
    R: Threads + Wait + Sync,
    I: Source,
    D: LogDev + Drop + Send,
    O: Sink + Drop + Send,
    T: Sink,
    G: Gate + Sync,
>(
    rt: &R,
    alloc: Global,
    words: &[String],
    input: &mut I,
    logs: Vec<D>,
    out: O,
    trace: T,
    gate: &G,
) -> Outcome<D, O, T>
    requires { vec_len logs ≡ 4 }
    // Each answer has its cause, and tells what was printed, traced and left on the logs.
    ensures outcome { IsOutcome (use_by I.Source D.LogDev O.Sink T.Sink (map string_bytes words.now) input.old input.new logs out trace result) result.status }
    // Where nothing stands in the way, the work is run to its end, or there is no memory.
    ensures complete { let u : Use = use_by I.Source D.LogDev O.Sink T.Sink (map string_bytes words.now) input.old input.new logs out trace result in
        (text : List ℕ) (w : Work) (records : List (List Record)) (o : Opening) → IsUntroubled u text w records o → (result.status ≡ status.Done) ⊎ (result.status ≡ status.Memory) }
    // Where nothing stands in the way of recovering, what the logs recover to is printed, or there is no memory.
    ensures complete_recover { let u : Use = use_by I.Source D.LogDev O.Sink T.Sink (map string_bytes words.now) input.old input.new logs out trace result in
        (kept : List (List Record)) → IsRecoverable u kept → (result.status ≡ status.Done) ⊎ (result.status ≡ status.Memory) }
    // Where nothing stands in the way of recovering, those logs in use that are of format 1 are made ones of format 2, or there is no memory.
    ensures complete_migrate { let u : Use = use_by I.Source D.LogDev O.Sink T.Sink (map string_bytes words.now) input.old input.new logs out trace result in
        (kept : List (List Record)) → IsMigratable u kept → (result.status ≡ status.Done) ⊎ (result.status ≡ status.Memory) }
    // Where nothing stands in the way of compacting, a checkpoint is written in place of old records, or there is no memory.
    ensures complete_compact { let u : Use = use_by I.Source D.LogDev O.Sink T.Sink (map string_bytes words.now) input.old input.new logs out trace result in
        (kept : List (List Record)) → IsCompactable u kept → (result.status ≡ status.Done) ⊎ (result.status ≡ status.Memory) }
    // Where nothing stands in the way of following, what the follower has is printed, or there is no memory.
    ensures complete_follow { let u : Use = use_by I.Source D.LogDev O.Sink T.Sink (map string_bytes words.now) input.old input.new logs out trace result in
        (kept : List (List Record)) → IsFollowable u kept → (result.status ≡ status.Done) ⊎ (result.status ≡ status.Memory) }
    // Where the output takes it, a generated text is printed, or there is no memory.
    ensures complete_gen { let u : Use = use_by I.Source D.LogDev O.Sink T.Sink (map string_bytes words.now) input.old input.new logs out trace result in
        IsPrintable u → (result.status ≡ status.Done) ⊎ (result.status ≡ status.Memory) }
    // Where the papers in the input are in order, and nothing fails, it is said, or there is no memory.
    ensures complete_audit { let u : Use = use_by I.Source D.LogDev O.Sink T.Sink (map string_bytes words.now) input.old input.new logs out trace result in
        (text : List ℕ) → IsAuditable u text → IsInOrder text → ¬ Rose u.writing.faults_before u.writing.faults_after → (result.status ≡ status.Done) ⊎ (result.status ≡ status.Memory) }
    // Where they are not, what is wrong first is told, or there is no memory.
    ensures complete_fault { let u : Use = use_by I.Source D.LogDev O.Sink T.Sink (map string_bytes words.now) input.old input.new logs out trace result in
        (text : List ℕ) (fault : AuditFault) → IsAuditable u text → IsFirstFault text (fault_meant fault) → (result.status ≡ status.Audit fault) ⊎ (result.status ≡ status.Memory) }
    // Where nothing stands in the way of a generated text, it is run to its end, or there is no memory.
    ensures complete_bench { let u : Use = use_by I.Source D.LogDev O.Sink T.Sink (map string_bytes words.now) input.old input.new logs out trace result in
        (count seed workers : ℕ) (w : Work) (records : List (List Record)) (o : Opening)
        → IsBench u.words count seed workers → MayBeMeasured u count seed w records o → (result.status ≡ status.Done) ⊎ (result.status ≡ status.Memory) }
    // Before the text is accepted, no log gets a call.
    ensures untouched { GetsNoCall result.status → result.logs ≡ logs }
    // Where no event is kept, the trace gets none.
    ensures no_trace { result.kept.items ≡ [] → result.trace ≡ trace }
    // The output, the trace and the input get no call after one that failed. They did not fail where the status tells so.
    ensures out_once { EndsAtFault (OutStood result.status) (O.faults out) (O.late out) (O.faults result.out) (O.late result.out) }
    ensures trace_once { EndsAtFault (result.status ≡ status.Done) (T.faults trace) (T.late trace) (T.faults result.trace) (T.late result.trace) }
    ensures input_once { EndsAtFault (result.status ≢ status.ReadFault) (I.faults input.old) (I.late input.old) (I.faults input.new) (I.late input.new) }
    // The devices come back, all of them.
    ensures four { vec_len result.logs ≡ 4 }
{
    if workers_of(words) == 0 {
        return run_solo(alloc, words, input, logs, out, trace);
    }
    one_command();
    done_or_no_memory();
    let HasRun { kept, status, call } = crew_answer(
        rt,
        alloc,
        words,
        input,
        gate,
        Call { logs, out, trace },
    );
    let Call { logs, out, trace } = call;
    Outcome {
        status,
        kept,
        logs,
        out,
        trace,
    }
}
