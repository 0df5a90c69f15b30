//! The laws. Each is called to cite it.
ghost use Rattle.std.specs.Prelude.{◌≡◌, ◌<◌, ℕ, Bool, List, Option, Some, length};
ghost use Rattle.aml_slice.specs.Controls.{Rest};
ghost use Rattle.aml_slice.specs.aml_check.Checked.{methods_of};
ghost use Rattle.aml_slice.specs.aml_tree.Tree.{CheckedMethod};
ghost use Rattle.crew_parts.specs.Acts.{MayDo, touched};
ghost use Rattle.crew_parts.specs.Crews.{AreFirstShares, OutputIs, kept};
ghost use Rattle.crew_parts.specs.Devices.{MayTell};
ghost use Rattle.crew_parts.specs.Outputs.{MayTake, OutputStands, taken_at};
ghost use Rattle.crew_parts.specs.Shares.{OutputState, ShareState};
ghost use Rattle.crew_parts.specs.Steps.{CrewTable};
ghost use Rattle.crew_parts.specs.declared.acts.Act.{Act};
ghost use Rattle.crew_recovery.specs.CrewRuns.{IsCrewsRun, IsRunOnLogs};
ghost use Rattle.crew_recovery.specs.Cuts.{AreCutAt, told_after};
ghost use Rattle.crew_recovery.specs.Recovered.{RecoversThen};
ghost use Rattle.crew_recovery.specs.Told.{ToldAreAmong};
ghost use Rattle.protocol.specs.Events as machine;
ghost use Rattle.protocol.specs.Fixed.{Fixed};
ghost use Rattle.record_log.specs.snap_outside.Disk.{DeviceHistory};
ghost use Rattle.run_recovery.specs.Crashes.{Recovers};
ghost use Rattle.run_opening.specs.log_opening.Devices.{Device};
ghost use Rattle.run_opening.specs.snap_recover.declared.openings.Opening.{Opening};
ghost use Rattle.run_recovery.specs.OneRun.{TheRun, MomentOf, machine_in, the_run};
ghost use Rattle.run_recovery.specs.Runs.{HasRunWork, machine_of};
ghost use Rattle.run_recovery.specs.Schedules.{Schedule};
ghost use Rattle.run_recovery.specs.Several.{members_left};
ghost use Rattle.snap_hand.specs.Tables.{AreTables, fixed_of};
ghost use Rattle.snap_hand.specs.declared.tables.Tables.{Tables};
ghost use Rattle.snap_work.specs.Kept.{KeepsLimits};
ghost use Rattle.snap_work.specs.Works.{Work};
ghost use Rattle.turn_table.specs.Rule.{IsLater, Kept};

use aml_slice::Checked;
use crew_parts::{acts_are_runs, devices_stand_at_moments, output_stands_at_moments};
use run_recovery::runs_are_recovered;
use snap_hand::Tables;
use snap_outside::{LogDev, Sink};

/// A crash at any step of a crew's table, whatever the workers do between two of their acts: with what the devices tell at that step,
/// and what the output has taken by then, it finds a moment of the crew's run. What it leaves of the four devices recovers, and each
/// transaction of which a whole line of the output says that it committed is among those that are recovered.
pub fn crews_recover<D: LogDev + Drop, O: Sink + Drop>(tables: &Tables)
    requires { AreTables tables.now }
    ensures { (r : TheRun) (start : List ShareState) (s u : CrewTable) (told : ℕ → Option DeviceHistory) (taken : Option (List ℕ)) (images : ℕ → List ℕ) (now : Kept (touched tables.now) (MayDo tables.now) start s) (end : Kept (touched tables.now) (MayDo tables.now) start u)
        → AreFirstShares (fixed_of tables.now) start → IsLater s u → KeepsLimits r.work → IsCrewsRun r tables.now start end.history end.parts
        → ((l : ℕ) → l < r.work.logs → MayTell tables.now start s u now l (told l)) → MayTake tables.now start s u now taken → AreCutAt r told images
        → RecoversThen r (kept now.history) (taken_at start) taken images }
{
    acts_are_runs(tables);
    devices_stand_at_moments::<D, O>(tables);
    output_stands_at_moments::<D, O>(tables);
    runs_are_recovered(&tables.work.program);
}

/// A crash as a run ends, by one thread or by workers, whatever ended it: what it leaves of the devices as they are then recovers, and each
/// transaction of which a whole line of the output says that it committed is among those that are recovered. Where all calls of the
/// devices and the output fail from some point on, the run leaves what was made of them by then; so this tells of a crash at that point.
pub fn ended_runs_recover(program: &Checked)
    ensures { (w : Work) (schedule : Schedule) (o : Opening) (es : List machine.Event) (failed : ℕ → Bool) (before after : List Device) (untaken taken : Option (List ℕ)) (images : ℕ → List ℕ)
        → w.program ≡ methods_of program.now → KeepsLimits w → (run : HasRunWork w schedule o es failed before after) → AreCutAt (the_run run) (told_after (the_run run)) images
        → OutputStands (machine_of w o) es untaken taken → RecoversThen (the_run run) es untaken taken images }
{
    runs_are_recovered(program);
}

/// Where the output has taken the lines of a moment's replies, and perhaps a front of one more, each transaction of which a whole line
/// says that it committed is among those to which what a crash leaves at that moment recovers. So it is at the end of a run, whatever
/// ended it: what several workers promise of the output stands so to their events.
pub fn told_transactions_are_recovered()
    ensures recovered { (p : List CheckedMethod) (r : TheRun) (m : MomentOf r) (images : ℕ → List ℕ) (left : Recovers p r m images) (before taken : Option (List ℕ))
        → OutputStands (machine_in r) m.events before taken → ToldAreAmong before taken (members_left left) }
    ensures ended { (w : Fixed Rest) (es : List machine.Event) (before after : OutputState) → OutputIs w es (Some before) (Some after) → OutputStands w es before.taken after.taken }
{}

/// A run on the logs that a crew was handed, as it gave them back, is the crew's.
pub fn crews_runs_are_on_their_logs()
    ensures { (r : TheRun) (t : Tables) (start : List ShareState) (acts : List Act) (end : List ShareState) → AreFirstShares (fixed_of t) start → length end ≡ length start
        → IsRunOnLogs r t start acts end → IsCrewsRun r t start acts end }
{}
