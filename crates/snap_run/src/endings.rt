//! How the top call ended, and what follows for each of its answers.
ghost use Rattle.std.specs.Prelude.{◌≡◌, ◌⊎◌, ℕ, List};
ghost use Rattle.command_words.specs.Words.{IsBench};
ghost use Rattle.run_work.specs.Runs.{IsOfLogs};
ghost use Rattle.run_work.specs.run_opening.snap_recover.declared.openings.Opening.{Opening};
ghost use Rattle.snap_outside.specs.Causes.{Rose};
ghost use Rattle.snap_report.specs.declared.audit_faults.AuditFault.{AuditFault};
ghost use Rattle.snap_report.specs.declared.statuses.Status.{Status};
ghost use Rattle.snap_report.specs.declared.statuses.Status.TheVariants as status;
ghost use Rattle.snap_run.specs.Answers.{IsUntroubled, IsPrintable, MayBeMeasured};
ghost use Rattle.snap_run.specs.Audits.{IsAuditable};
ghost use Rattle.snap_run.specs.Compactions.{IsCompactable};
ghost use Rattle.snap_run.specs.Followings.{IsFollowable};
ghost use Rattle.snap_run.specs.Migrations.{IsMigratable};
ghost use Rattle.snap_run.specs.Outcomes.{IsOutcome};
ghost use Rattle.snap_run.specs.Recoveries.{IsRecoverable};
ghost use Rattle.snap_run.specs.Uses.{Use};
ghost use Rattle.snap_work.specs.Works.{Work};
ghost use Rattle.trace_audit.specs.AuditNos.{fault_meant};
ghost use Rattle.trace_audit.specs.audit_words.Inputs.{IsFirstFault, IsInOrder};
ghost use Rattle.record_log.specs.txn_records.declared.records.Record.{Record};

use command_words::one_command;
use input_laws::{an_input_in_order_has_no_fault, one_first_fault};
use log_following::{folded_are_followed, read_is_opened};
use log_migration::{
    damage_is_no_log, fronts_tell, one_difference, one_fold, one_front, one_list, one_use,
    refused_are_not_folded,
};
use record_log::{no_more_records, one_list_of_records};
use run_work::Event;
use snap_report::Status;
use work_gen::fault_or_work;

/// How the top call ended, and what it gives back of what it was handed.
#[derive(Drop)]
pub struct Outcome<D, O, T> {
    /// How it ended, with the cause where it is not `Done`. Its number is the exit status of the program.
    pub status: Status,
    /// The events that the run took, in their order. It is empty where no run began, and for commands that run nothing.
    pub kept: Vec<Event>,
    /// The four devices that were handed over, in the order of their numbers, with what was written to them.
    pub logs: Vec<D>,
    /// The output, with the bytes that it took: after a fault a prefix of those that were to be printed.
    pub out: O,
    /// The trace, with the lines that it took of the events in `kept`.
    pub trace: T,
}

/// A law, cited by a call: if nothing stands in the way of what the words ask for, the answer is that it is done, or that there was
/// no memory.
pub(crate) fn done_or_no_memory()
    ensures complete { (u : Use) (s : Status) (text : List ℕ) (w : Work) (records : List (List Record)) (o : Opening)
        → IsOutcome u s → IsUntroubled u text w records o → ¬ IsOfLogs s → (s ≡ status.Done) ⊎ (s ≡ status.Memory) }
    ensures complete_recover { (u : Use) (s : Status) (kept : List (List Record)) → IsOutcome u s → IsRecoverable u kept → (s ≡ status.Done) ⊎ (s ≡ status.Memory) }
    ensures complete_migrate { (u : Use) (s : Status) (kept : List (List Record)) → IsOutcome u s → IsMigratable u kept → (s ≡ status.Done) ⊎ (s ≡ status.Memory) }
    ensures complete_compact { (u : Use) (s : Status) (kept : List (List Record)) → IsOutcome u s → IsCompactable u kept → (s ≡ status.Done) ⊎ (s ≡ status.Memory) }
    ensures complete_follow { (u : Use) (s : Status) (kept : List (List Record)) → IsOutcome u s → IsFollowable u kept → (s ≡ status.Done) ⊎ (s ≡ status.Memory) }
    ensures complete_gen { (u : Use) (s : Status) → IsOutcome u s → IsPrintable u → (s ≡ status.Done) ⊎ (s ≡ status.Memory) }
    ensures complete_audit { (u : Use) (s : Status) (input : List ℕ)
        → IsOutcome u s → IsAuditable u input → IsInOrder input → ¬ Rose u.writing.faults_before u.writing.faults_after → (s ≡ status.Done) ⊎ (s ≡ status.Memory) }
    ensures complete_fault { (u : Use) (s : Status) (input : List ℕ) (fault : AuditFault)
        → IsOutcome u s → IsAuditable u input → IsFirstFault input (fault_meant fault) → (s ≡ status.Audit fault) ⊎ (s ≡ status.Memory) }
    ensures complete_bench { (u : Use) (s : Status) (count seed workers : ℕ) (w : Work) (records : List (List Record)) (o : Opening)
        → IsOutcome u s → IsBench u.words count seed workers → MayBeMeasured u count seed w records o → ¬ IsOfLogs s → (s ≡ status.Done) ⊎ (s ≡ status.Memory) }
{
    one_command();
    one_difference();
    damage_is_no_log();
    one_list();
    one_front();
    fronts_tell();
    one_use();
    one_fold();
    refused_are_not_folded();
    fault_or_work();
    one_list_of_records();
    no_more_records();
    an_input_in_order_has_no_fault();
    one_first_fault();
    folded_are_followed();
    read_is_opened();
}
