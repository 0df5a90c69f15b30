//! The laws, of every checked program.
ghost use Rattle.std.specs.Prelude.{◌≡◌, ◌<◌, ◌≤◌, ◌⊎◌, ℕ, List, Bool, map, Contains};
ghost use Rattle.std.specs.List.{AllByRecursion};
ghost use Rattle.aml_slice.specs.aml_check.Checked.{methods_of};
ghost use Rattle.run_opening.specs.log_opening.Devices.{Device, device_at};
ghost use Rattle.run_opening.specs.log_opening.Kept.{AreFolded};
ghost use Rattle.machine_laws.specs.Meant.{CommittedAsMeant, VerdictsAsMeant};
ghost use Rattle.protocol.specs.Events as machine;
ghost use Rattle.machine_laws.specs.protocol_records.AsTold.{ToldStands};
ghost use Rattle.machine_laws.specs.protocol_theorems.Left.{RunsEnd};
ghost use Rattle.machine_laws.specs.protocol_theorems.Order.{OrderHolds};
ghost use Rattle.machine_laws.specs.protocol_theorems.Quiet.{AnsweredWhenQuiet};
ghost use Rattle.machine_laws.specs.protocol_theorems.Sets.{NumbersStand};
ghost use Rattle.machine_laws.specs.protocol_verdicts.Evidence.{VerdictsStand};
ghost use Rattle.machine_laws.specs.protocol_verdicts.EvidenceSerial.{VerdictsTell};
ghost use Rattle.record_log.specs.snap_outside.Causes.{Rose};
ghost use Rattle.run_opening.specs.Begins.{AreEmpty, IsUnspent};
ghost use Rattle.run_opening.specs.Opens.{AreSafe, HasRoomToBegin, MayOpen};
ghost use Rattle.run_opening.specs.log_opening.Cuts.{HoldFour, TellBytes};
ghost use Rattle.log_compaction.specs.Crashes.{CompactsSafely, FoldsAgain};
ghost use Rattle.machine_recovery.specs.compact_laws.log_compact.declared.folds.Folded.{Folded};
ghost use Rattle.machine_recovery.specs.compact_laws.log_compact.Finding.{IsUsed};
ghost use Rattle.machine_recovery.specs.compact_laws.log_compact.Sets.{logs_from};
ghost use Rattle.run_recovery.specs.Beginnings.{BeginsAgain, CrashBefore};
ghost use Rattle.run_recovery.specs.Between.{AreBetween, AreKept, AreOfStates, Call, HasCompaction, IsSameOpening, left_last};
ghost use Rattle.run_recovery.specs.Crashes.{CrashOn, FindsRunsLogs, Recovers};
ghost use Rattle.run_recovery.specs.EachRun.{AfterEachRun, OfEachRun};
ghost use Rattle.run_recovery.specs.Next.{GoesOnFrom, fold_left, opening_left, records_left};
ghost use Rattle.run_recovery.specs.Recoverable.{AreRecoverable};
ghost use Rattle.run_recovery.specs.OneRun.{TheRun, MomentOf, the_run};
ghost use Rattle.run_recovery.specs.Runs.{HasRunWork, GoesOnWith, machine_of};
ghost use Rattle.run_recovery.specs.Schedules.{Schedule, seeded, free};
ghost use Rattle.run_recovery.specs.Several.{CutOff, EachIsBehind, FoundByRuns, GoOn, Left, OfNext, ValuesStand, bytes_left, in_use};
ghost use Rattle.run_recovery.specs.Stands.{RunStands};
ghost use Rattle.snap_base.specs.declared.transactions.State.{State};
ghost use Rattle.aml_slice.specs.aml_tree.Tree.{CheckedMethod};
ghost use Rattle.snap_recover.specs.declared.openings.Opening.{Opening};
ghost use Rattle.snap_work.specs.Kept.{KeepsLimits};
ghost use Rattle.snap_work.specs.Works.{Work};
ghost use Rattle.told_codes.specs.Meant.{CodesAsMeant};
ghost use Rattle.record_log.specs.txn_records.declared.records.Record.{Record};

use aml_slice::Checked;
use log_compact::folds_are_begun;
use machine_laws::{
    committed_transactions_are_as_meant, committed_transactions_are_in_order, every_run_ends,
    numbers_are_the_ends_of_sets, recovered_transactions_are_in_order,
    runs_that_cannot_go_on_have_answered, told_transactions_are_in_order, verdicts_are_as_meant,
    verdicts_have_evidence, verdicts_tell_of_serial_runs,
};
use machine_recovery::{
    begun_is_set, begun_lists_fold, clearing_keeps, fronts_of_records, fronts_tell,
    logs_fold_to_the_members, logs_recover_as_meant, one_fold, one_use, used_stays,
};
use record_log::{groups_are_whole, one_list_of_records};
use run_effects::groups_grow;
use run_opening::{
    beginning_is_safe, begins_again, clear_is_safe, logs_are_lists, one_list, opening_is_safe,
};
use told_codes::told_codes_are_as_meant;

/// What one thread takes by the schedule of a seed is among what several workers may take, and so is the event with which it goes on.
pub fn seeds_pick_runs()
    ensures runs { (w : Work) (seed : ℕ) (o : Opening) (es : List machine.Event) (failed : ℕ → Bool) (before after : List Device)
        → HasRunWork w (seeded seed) o es failed before after → HasRunWork w free o es failed before after }
    ensures next { (w : Work) (seed : ℕ) (o : Opening) (es : List machine.Event) (e : machine.Event) → GoesOnWith w (seeded seed) o es e → GoesOnWith w free o es e }
{}

/// What a run took are events of a run of the machine: its committed transactions, one by one in the order of their places as the
/// language means each, give the results that they had, and where it has ended the actors' states are those that this leaves; who
/// is told a place is told what it means there, and who is told a code is told what it means behind those alone that are told that
/// they committed; each verdict has its evidence in the events, and stays; and where it has ended all is answered.
pub fn runs_are_as_meant(program: &Checked)
    ensures committed { AfterEachRun (methods_of program.now) (CommittedAsMeant (methods_of program.now)) }
    ensures told { OfEachRun (methods_of program.now) (VerdictsAsMeant (methods_of program.now)) }
    ensures stopped_codes { OfEachRun (methods_of program.now) (CodesAsMeant (methods_of program.now)) }
    ensures evidence { OfEachRun (methods_of program.now) VerdictsStand }
    ensures answered { AfterEachRun (methods_of program.now) AnsweredWhenQuiet }
    ensures order { AfterEachRun (methods_of program.now) OrderHolds }
    ensures codes { OfEachRun (methods_of program.now) VerdictsTell }
    ensures sure { AfterEachRun (methods_of program.now) ToldStands }
    ensures numbers { AfterEachRun (methods_of program.now) NumbersStand }
    ensures ends { OfEachRun (methods_of program.now) RunsEnd }
{
    committed_transactions_are_as_meant(program);
    committed_transactions_are_in_order(program);
    told_transactions_are_in_order(program);
    verdicts_tell_of_serial_runs(program);
    numbers_are_the_ends_of_sets(program);
    every_run_ends(program);
    verdicts_are_as_meant(program);
    told_codes_are_as_meant(program);
    verdicts_have_evidence(program);
    runs_that_cannot_go_on_have_answered(program);
}

/// Whatever a crash leaves of the four devices at any moment of a run recovers: the same logs are in use, and these fold.
pub fn runs_are_recovered(program: &Checked)
    ensures { (w : Work) (schedule : Schedule) (o : Opening) (es : List machine.Event) (failed : ℕ → Bool) (before after : List Device)
        → w.program ≡ methods_of program.now → KeepsLimits w → (run : HasRunWork w schedule o es failed before after)
        → (m : MomentOf (the_run run)) (images : ℕ → List ℕ) → CrashOn (the_run run) m images → Recovers (methods_of program.now) (the_run run) m images }
{
    logs_fold_to_the_members(program);
    logs_recover_as_meant(program);
    recovered_transactions_are_in_order(program);
    groups_are_whole();
    groups_grow::<aml_slice::Control>();
    one_list_of_records();
    opening_is_safe();
    clear_is_safe();
    one_list();
    logs_are_lists();
    fronts_of_records();
    fronts_tell();
    one_use();
    clearing_keeps();
    begun_is_set();
    used_stays();
}

/// A crash while a run begins loses no record of the logs in use: they hold what they held, or, where they held none, Genesis alone.
/// The same logs are in use, none of them of format 1 with an item, and a run of the same states begins on them with the same opening.
pub fn beginnings_are_recovered()
    ensures { (r : TheRun) (images : ℕ → List ℕ) → KeepsLimits r.work → CrashBefore r images → BeginsAgain r images }
{
    groups_are_whole();
    begins_again();
    beginning_is_safe();
    one_list_of_records();
    opening_is_safe();
    clear_is_safe();
    one_list();
    logs_are_lists();
    fronts_of_records();
    fronts_tell();
    one_use();
    clearing_keeps();
    begun_is_set();
}

/// What a crash leaves of the logs at any moment of a run is what the next run goes on from: unless a number is spent, a run of any
/// text of the same states, on as many logs, begins on them with the opening to which they recover; and none begins with another.
pub fn crashed_runs_go_on()
    ensures { (p : List CheckedMethod) (r : TheRun) (m : MomentOf r) (images : ℕ → List ℕ) → KeepsLimits r.work → (left : Recovers p r m images) → GoesOnFrom left }
{
    begins_again();
    one_fold();
}

/// Calls in which no run began, and compactions, one behind the other, each made to its end or cut off by a crash, lose nothing. As
/// many logs are in use behind them, none of these of format 1 with an item, where none was; and they fold to the same states, next
/// numbers and counts. So a run of the same states begins on them as it began before, and with no other opening; only, where a
/// compaction took effect, nothing is committed since. Where no compaction is among the calls the same logs are in use: they hold what
/// they held, or, only where they held no record, Genesis alone; and of the other side of a set with a checkpoint records may be gone.
pub fn calls_between_runs_lose_nothing()
    ensures { (logs : ℕ) (states : List State) (head generation : ℕ) (now : ℕ → List Record) (found : ℕ → List ℕ) (calls : List Call)
        → 1 ≤ logs → logs ≤ 4 → IsUsed now logs head logs generation → HoldFour found now → (HasCompaction calls → AreOfStates (logs_from now head logs) states)
        → AreBetween logs states found calls → AreKept logs states head generation now found calls (left_last found calls) }
{
    one_list_of_records();
    one_fold();
    begun_lists_fold();
    folds_are_begun();
    fronts_of_records();
    fronts_tell();
    one_use();
    clearing_keeps();
    begun_is_set();
}

/// A call that compacts is one of those that stand between runs: a compaction of logs that fold, or one that loses no record.
pub fn compactions_stand_between_runs()
    ensures { (logs : ℕ) (states : List State) (before after : List Device) → CompactsSafely before after → AreFolded before ⊎ AreSafe logs states before after }
{}

/// A run uses of its opening the states and the next numbers alone: with another opening of the same ones its machine is the same,
/// and so are the events that it may take, and what it prints.
pub fn runs_use_states_and_next_numbers()
    ensures { (w : Work) (o q : Opening) → IsSameOpening o q → (machine_of w q ≡ machine_of w o) × (HasRoomToBegin o → HasRoomToBegin q) }
{}

/// What a run leaves is what the call that prints what the logs recover to goes by, where the run found its logs as runs leave them:
/// behind a crash at any moment of it, and, once Genesis is written, behind one while it begins. So it is with what a crash in a
/// compaction leaves; and with what is left behind a crash and any calls between runs. So that call prints the opening with which the
/// next run begins.
pub fn what_is_left_is_recoverable()
    ensures within { (p : List CheckedMethod) (r : TheRun) (m : MomentOf r) (images : ℕ → List ℕ) (left : Recovers p r m images) → GoesOnFrom left → FindsRunsLogs r
        → (again : List Device) → TellBytes again images → AreRecoverable again r.devices.head (records_left left) (fold_left left) }
    // And a run of the same states, on as many logs, may begin on it with that opening, unless a number of it is spent: behind a crash at
    // any moment, behind one while a run begins, and behind either of them and any calls.
    ensures runs { (p : List CheckedMethod) (r : TheRun) (m : MomentOf r) (images : ℕ → List ℕ) (left : Recovers p r m images) → GoesOnFrom left → KeepsLimits r.work → IsUnspent (opening_left left)
        → (again after : List Device) → TellBytes again images → ((d : ℕ) → d < 4 → ¬ Rose (device_at again d).faults (device_at after d).faults)
        → MayOpen r.work.logs r.work.states again after (records_left left) (opening_left left) }
    ensures runs_early { (r : TheRun) (images : ℕ → List ℕ) (b : BeginsAgain r images) → KeepsLimits r.work
        → (again after : List Device) → TellBytes again images → ((d : ℕ) → d < 4 → ¬ Rose (device_at again d).faults (device_at after d).faults)
        → MayOpen r.work.logs r.work.states again after b.kept r.opening }
    ensures runs_behind { (x : CutOff) (left : Left x x.crash) → IsUnspent left.fold.opening
        → (again after : List Device) → TellBytes again (bytes_left x) → ((d : ℕ) → d < 4 → ¬ Rose (device_at again d).faults (device_at after d).faults)
        → MayOpen x.work.logs x.work.states again after (in_use left) left.fold.opening }
    ensures early { (r : TheRun) (images : ℕ → List ℕ) (b : BeginsAgain r images) → ¬ AreEmpty b.kept → FindsRunsLogs r
        → (again : List Device) → TellBytes again images → AreRecoverable again r.devices.head b.kept r.devices.fold }
    ensures compacted { (held : ℕ → List Record) (was count : ℕ) (f : Folded) (images : ℕ → List ℕ) (left : FoldsAgain held was count f images)
        → (again : List Device) → TellBytes again images → AreRecoverable again left.head (logs_from left.now left.head count) left.fold }
    ensures behind { (x : CutOff) (left : Left x x.crash) → ¬ AreEmpty (in_use left) → FoundByRuns x
        → (again : List Device) → TellBytes again (bytes_left x) → AreRecoverable again left.head (in_use left) left.fold }
{
    fronts_of_records();
    fronts_tell();
}

/// Of runs one behind the other, each of a work of one of these programs, and each on the bytes that were left before it by a crash,
/// whether that came while its run began or at a moment of it, and by the calls behind the crash, compactions among them: each is
/// recovered, and the next one began with just what was left.
pub fn runs_go_on_behind_each_other(programs: &[Checked])
    ensures { (xs : List CutOff) → AllByRecursion (λ (x : CutOff). Contains (map methods_of programs.now) x.work.program) xs → EachIsBehind xs → GoOn xs }
{
    beginnings_are_recovered();
    crashed_runs_go_on();
    one_fold();
    begun_lists_fold();
    folds_are_begun();
    one_list_of_records();
    fronts_of_records();
    fronts_tell();
    one_use();
    clearing_keeps();
    begun_is_set();
    calls_between_runs_lose_nothing();
    for program in programs {
        runs_are_recovered(program);
    }
}

/// Of runs one behind the other that go on so: recovery gives, behind what was committed before the first of them, the members of each
/// with their values, since the last compaction that took effect; and these are the results that they have alone, one after the other
/// in the order of their places from the states with which the run began, as the language means each. The counts go on over
/// compactions: all members of all runs are in them.
pub fn values_are_results_alone()
    ensures { (f : Folded) (xs : List CutOff) (on : GoOn xs) → OfNext (λ (x : CutOff). x.run.devices.fold ≡ f) xs → ValuesStand f xs on }
{}

/// Where the first of runs one behind the other found logs as runs leave them, each of them did: those of a set; or there was none,
/// and no log in use held a record. So what each of them leaves is recoverable.
pub fn each_run_finds_logs_as_runs_leave_them()
    ensures { (xs : List CutOff) → GoOn xs → OfNext FoundByRuns xs → AllByRecursion FoundByRuns xs }
{}

/// What all these laws say of one run holds of every run of a work of this program that keeps its limits: of its committed
/// transactions, of what they are told, and of what a crash leaves while it begins and at any moment of it.
pub fn runs_stand(program: &Checked)
    ensures { (w : Work) (schedule : Schedule) (o : Opening) (es : List machine.Event) (failed : ℕ → Bool) (before after : List Device)
        → w.program ≡ methods_of program.now → KeepsLimits w → (run : HasRunWork w schedule o es failed before after) → RunStands (the_run run) }
{
    runs_are_as_meant(program);
    runs_are_recovered(program);
    beginnings_are_recovered();
    crashed_runs_go_on();
}
