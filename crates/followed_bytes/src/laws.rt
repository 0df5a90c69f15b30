//! The laws.

ghost use Rattle.std.specs.Prelude.{◌≡◌, ℕ, List, Bool, map};
ghost use Rattle.aml_check.specs.Checked.{methods_of};
ghost use Rattle.followed_bytes.specs.Looks.{IsAloneOnLogs, IsBareFront, LooksGoOn, LooksTellMeantStates};
ghost use Rattle.followed_bytes.specs.Readings.{IsReadAs, IsReadingOf};
ghost use Rattle.followed_bytes.specs.Series.{CutRunOn, IsNextOn, LooksAtSeriesGoOn, LooksAtSeriesTellMeantStates, TellsLists, lists_behind, run_of};
ghost use Rattle.followed_logs.specs.OnRecords.{in_first};
ghost use Rattle.gate_log.specs.declared.logs.LogItem.{LogItem};
ghost use Rattle.log_opening.specs.Devices.{Device};
ghost use Rattle.log_reading.specs.Read.{IsReadFrom};
ghost use Rattle.protocol.specs.Events as machine;
ghost use Rattle.record_log.specs.Records.{AreItemsOf, HoldsRecords};
ghost use Rattle.run_opening.specs.Begins.{AreEmpty};
ghost use Rattle.run_recovery.specs.Crashes.{earlier};
ghost use Rattle.run_recovery.specs.OneRun.{the_run};
ghost use Rattle.run_recovery.specs.Runs.{HasRunWork};
ghost use Rattle.run_recovery.specs.Schedules.{Schedule};
ghost use Rattle.snap_recover.specs.declared.openings.Opening.{Opening};
ghost use Rattle.snap_work.specs.Kept.{KeepsLimits};
ghost use Rattle.snap_work.specs.Works.{Work};
ghost use Rattle.txn_records.specs.declared.records.Record.{Record};

use aml_check::Checked;
use aml_slice::Control;
use followed_logs::{followers_are_not_refused, followers_tell_serial_states};
use followed_meant::{followers_tell_meant_states, sets_are_as_meant};
use log_reading::read_is_opened;
use machine_laws::{recovered_transactions_are_in_order, texts_have_the_facts};
use machine_recovery::{logs_fold_to_the_members, one_fold};
use protocol_laws::{logs_stay, runs_go_one_way};
use record_log::{groups_are_whole, one_list_of_records, opened_holds};
use run_effects::groups_grow;
use snap_recover::{begun_logs_are_recovered, one_opening};

/// Whatever a reader may find of the logs of a run, each at some moment of it, of a write under way any mixture: of each log the bytes
/// hold what was there before the run, and behind it what some reading of the machine's run reads of it at that moment.
pub fn readings_are_findings()
    ensures { (w : Work) (schedule : Schedule) (o : Opening) (es : List machine.Event) (failed : ℕ → Bool) (before after : List Device)
        → (run : HasRunWork w schedule o es failed before after) → (bytes : ℕ → List ℕ) (x : IsReadingOf (the_run run) bytes) → IsReadAs (the_run run) bytes x }
{
    groups_are_whole();
    groups_grow::<Control>();
}

/// Where reading bytes finds items that are records, the bytes hold these records.
pub fn what_reading_finds_is_held()
    ensures { (bytes : List ℕ) (items : List LogItem) (rs : List Record) → IsReadFrom bytes items → AreItemsOf items rs → HoldsRecords bytes rs }
{
    read_is_opened();
    opened_holds();
}

/// A run whose logs held no record stands alone on them, behind Genesis.
pub fn first_runs_are_alone()
    ensures { (w : Work) (schedule : Schedule) (o : Opening) (es : List machine.Event) (failed : ℕ → Bool) (before after : List Device)
        → KeepsLimits w → (run : HasRunWork w schedule o es failed before after) → AreEmpty run.devices.records → IsAloneOnLogs (the_run run) }
{}

/// So does a run whose first log held Genesis, or Genesis and a checkpoint, and the others nothing.
pub fn runs_behind_checkpoints_are_alone()
    ensures { (w : Work) (schedule : Schedule) (o : Opening) (es : List machine.Event) (failed : ℕ → Bool) (before after : List Device)
        → KeepsLimits w → (run : HasRunWork w schedule o es failed before after) → (front : List Record) → IsBareFront front → run.devices.records ≡ in_first w.logs front → IsAloneOnLogs (the_run run) }
{
    begun_logs_are_recovered();
    one_opening();
}

/// Of a run of a work of this program that stands alone on its logs: whatever its devices show at the looks of a follower, and when he
/// looks, each log at moments that never go back, his members have committed with a value, nobody is lost, and with each of them he
/// has all that the run places before it on an actor that it or its batch changed; one after the other in the order of their places, as the language means each, they give the
/// results that they had, and leave the states that he tells. And whatever is shown at the next look, its round is refused for want of
/// memory alone, where all that he read is still there.
pub fn looks_tell_meant_states(program: &Checked)
    ensures tell { (w : Work) (schedule : Schedule) (o : Opening) (es : List machine.Event) (failed : ℕ → Bool) (before after : List Device)
        → w.program ≡ methods_of program.now → KeepsLimits w → (run : HasRunWork w schedule o es failed before after) → LooksTellMeantStates (methods_of program.now) (the_run run) }
    ensures go_on { (w : Work) (schedule : Schedule) (o : Opening) (es : List machine.Event) (failed : ℕ → Bool) (before after : List Device)
        → w.program ≡ methods_of program.now → KeepsLimits w → (run : HasRunWork w schedule o es failed before after) → LooksGoOn (the_run run) }
{
    readings_are_findings();
    texts_have_the_facts(program);
    sets_are_as_meant(program);
    recovered_transactions_are_in_order(program);
    followers_tell_serial_states::<Control>();
    followers_are_not_refused::<Control>();
    runs_go_one_way::<Control>();
    logs_stay::<Control>();
    one_list_of_records();
}

/// Of runs one behind the other on the same logs, each of a work of one of these programs, and each cut off by a crash: whatever their
/// devices show at the looks of a follower, and when he looks, at moments and in runs that never go back, while no crash takes back
/// what he read, his looks are rounds over findings of the machine's runs. So his members are closed and serial, run behind run, and
/// nobody is lost; one after the other in the order of their places, as the language means each, from the states that those of the
/// runs before left, they give the results that they had, and leave the states that he tells.
pub fn looks_at_series_tell_meant_states(programs: &[Checked])
    ensures tell { LooksAtSeriesTellMeantStates (map methods_of programs.now) }
    ensures go_on { LooksAtSeriesGoOn (map methods_of programs.now) }
{
    followers_tell_meant_states(programs);
    groups_are_whole();
    groups_grow::<Control>();
    logs_stay::<Control>();
    one_list_of_records();
}

/// Where the devices of a run told that they held what another one, of a work of this program, left on its logs, the run begins on
/// just these records, and from the opening to which they recover: it is the next of the runs that stand one behind the other.
pub fn runs_on_what_is_left_go_on(program: &Checked)
    ensures { (x y : CutRunOn) → x.work.program ≡ methods_of program.now → y.work.logs ≡ x.work.logs → TellsLists y (lists_behind (earlier (run_of x)) x) → IsNextOn x y }
{
    logs_fold_to_the_members(program);
    one_fold();
    one_list_of_records();
}
