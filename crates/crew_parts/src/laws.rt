//! What follows of a crew's acts. Each is called to cite it.
ghost use Rattle.std.specs.Prelude.{◌≡◌, ◌+◌, ◌*◌, ◌<◌, ◌≤◌, Bool, true, List, Option, ℕ, length};
ghost use Rattle.crew_parts.specs.Acts.{MayDo, touched};
ghost use Rattle.snap_hand.specs.core_rows.OnRuns.{HasRun};
ghost use Rattle.crew_parts.specs.Crews.{AreFirstShares, HasCome, Stands, kept};
ghost use Rattle.crew_parts.specs.Devices.{AreAtMoment, MayTell};
ghost use Rattle.crew_parts.specs.LawsOfRuns.{LawsOfRuns};
ghost use Rattle.crew_parts.specs.Outputs.{MayTake, OutputStands, taken_at};
ghost use Rattle.crew_parts.specs.Shares.{ShareState};
ghost use Rattle.crew_parts.specs.declared.acts.Act.{Act};
ghost use Rattle.crew_parts.specs.Steps.{CrewTable, FindsMoment, HoldsForSync, IsCrewMoment};
ghost use Rattle.snap_hand.specs.Tables.{AreTables, fixed_of, text_of};
ghost use Rattle.protocol.specs.Events as machine;
ghost use Rattle.protocol.specs.Runs.{IsRun, reached};
ghost use Rattle.machine_laws.specs.protocol_theorems.Left.{most_events};
ghost use Rattle.snap_outside.specs.Disk.{DeviceHistory};
ghost use Rattle.turn_table.specs.Places.{Ascending, IsIdle};
ghost use Rattle.turn_table.specs.Rule.{IsLater, Kept};
ghost use Rattle.turn_table.specs.Runs.{Fits, Run};
ghost use Rattle.turn_table.specs.declared.limits.TheConstants.{MOST_ENTRIES};

use crate::shares::Share;
use aml_slice::Control;
use machine_laws::{texts_have_the_facts, verdicts_have_evidence};
use protocol_laws::events_leave_other_parts;
use run_effects::runs_of;
use snap_hand::Tables;
use snap_outside::{LogDev, Sink};
use turn_table::{histories_go_on, one_view_holds_it, runs_join, what_is_held_is_left};

/// Whatever acts lead from a beginning to some shares, those of their events that happened are a run of the machine, of whose
/// state these are all parts; the journals got the groups of its Syncs, and the output the lines of its replies.
pub fn acts_are_runs(tables: &Tables)
    requires { AreTables tables.now }
    ensures { (start : List ShareState) (acts : List Act) (now : List ShareState) → AreFirstShares (fixed_of tables.now) start → Run (touched tables.now) (MayDo tables.now) start acts now → HasCome (fixed_of tables.now) start (kept acts) now }
{
    laws_of_runs(tables);
}

/// Acts are few: those of their events that happened are a run, which is short; and of each log and of the output there is one fault at
/// most.
pub fn acts_are_few(tables: &Tables)
    requires { AreTables tables.now }
    ensures { (start : List ShareState) (acts : List Act) (now : List ShareState) → AreFirstShares (fixed_of tables.now) start → Run (touched tables.now) (MayDo tables.now) start acts now → length acts ≤ most_events * length (text_of tables.now).txs + ((text_of tables.now).logs + 1) }
{
    laws_of_runs(tables);
}

/// At each step of a crew's table a crash finds a moment of a run of the machine.
pub fn steps_are_moments<D: LogDev + Drop, O: Sink + Drop>(tables: &Tables)
    requires { AreTables tables.now }
    ensures { (start : List ShareState) (s : CrewTable) → AreFirstShares (fixed_of tables.now) start → Kept (touched tables.now) (MayDo tables.now) start s → IsCrewMoment (fixed_of tables.now) start s }
{
    acts_are_runs(tables);
    one_view_holds_it::<Share<D, O>>(tables);
}

/// What a crash finds at a step of a crew's table is a moment of the run that is recorded at a later one: behind the acts so far,
/// with one more append begun on each log that is held for its next Sync.
pub fn crashes_find_moments<D: LogDev + Drop, O: Sink + Drop>(tables: &Tables)
    requires { AreTables tables.now }
    ensures { (start : List ShareState) (s u : CrewTable) (begun : ℕ → Bool) (now : Kept (touched tables.now) (MayDo tables.now) start s) (end : Kept (touched tables.now) (MayDo tables.now) start u) → AreFirstShares (fixed_of tables.now) start → IsLater s u →
        ((l : ℕ) → begun l ≡ true → (l < (fixed_of tables.now).text.logs) × HoldsForSync tables.now start s u l) → FindsMoment tables.now start s u now end begun }
{
    laws_of_runs(tables);
    histories_go_on::<Share<D, O>>(tables);
    runs_join::<Share<D, O>>(tables);
    what_is_held_is_left::<Share<D, O>>(tables);
}

/// At each step of a crew's table, whatever its workers do between two of their acts, the devices of its logs stand at one moment of
/// the run that is recorded at a later step. What a worker makes of a device while it holds the log, up to its next act, is some or all
/// of the append of what waits there; and nothing, where that act is not the log's Sync. Of a log that is shut it is what its fault left.
pub fn devices_stand_at_moments<D: LogDev + Drop, O: Sink + Drop>(tables: &Tables)
    requires { AreTables tables.now }
    ensures { (start : List ShareState) (s u : CrewTable) (told : ℕ → Option DeviceHistory) (now : Kept (touched tables.now) (MayDo tables.now) start s) (end : Kept (touched tables.now) (MayDo tables.now) start u) → AreFirstShares (fixed_of tables.now) start → IsLater s u →
        ((l : ℕ) → l < (fixed_of tables.now).text.logs → MayTell tables.now start s u now l (told l)) → AreAtMoment tables.now start s u now end told }
{
    laws_of_runs(tables);
    histories_go_on::<Share<D, O>>(tables);
    runs_join::<Share<D, O>>(tables);
    what_is_held_is_left::<Share<D, O>>(tables);
}

/// At each step of a crew's table, whatever its workers do between two of their acts, the output has taken the lines of the replies of the
/// events that are recorded by then; or these, and a front of the line of one more, which is allowed behind them. What a worker prints
/// while it holds the book and the desk, up to its next act, is some or all of that act's line; and nothing, where the act is no reply.
/// Of an output that failed it is what its fault left.
pub fn output_stands_at_moments<D: LogDev + Drop, O: Sink + Drop>(tables: &Tables)
    requires { AreTables tables.now }
    ensures { (start : List ShareState) (s u : CrewTable) (taken : Option (List ℕ)) (now : Kept (touched tables.now) (MayDo tables.now) start s) → AreFirstShares (fixed_of tables.now) start →
        MayTake tables.now start s u now taken → OutputStands (fixed_of tables.now) (kept now.history) (taken_at start) taken }
{
    laws_of_runs(tables);
    histories_go_on::<Share<D, O>>(tables);
    runs_join::<Share<D, O>>(tables);
    what_is_held_is_left::<Share<D, O>>(tables);
}

/// What the laws say of the runs of the text. The acts of a crew rest on it.
fn laws_of_runs(tables: &Tables)
    requires { AreTables tables.now }
    ensures { LawsOfRuns (fixed_of tables.now) }
{
    runs_of(tables);
    runs_lead(tables);
    verdicts_have_evidence(&tables.work.program);
    events_leave_other_parts::<Control>();
}

/// Every run of the text leads to a state of which the calls of the rows may be asked.
pub fn runs_lead(tables: &Tables)
    requires { AreTables tables.now }
    ensures { (es : List machine.Event) → IsRun (fixed_of tables.now) es → HasRun (fixed_of tables.now) (reached (fixed_of tables.now) es) }
{
    texts_have_the_facts(&tables.work.program);
}

/// Some run from the beginning has come to the shares that a pass holds, by what the pass knows of them; and some run has come to
/// none at all, which is what a pass holds that holds nothing.
pub fn passes_stand(tables: &Tables)
    requires { AreTables tables.now }
    ensures knows { (start : List ShareState) (held : List (Option ShareState)) (entries : List (ℕ × Act)) → AreFirstShares (fixed_of tables.now) start → Fits (touched tables.now) (MayDo tables.now) start held entries → Stands (fixed_of tables.now) start held }
    ensures idle { (start : List ShareState) (held : List (Option ShareState)) → AreFirstShares (fixed_of tables.now) start → IsIdle held → Stands (fixed_of tables.now) start held }
{
    acts_are_runs(tables);
    runs_lead(tables);
}

/// No pass is ever full: it has fewer than `MOST_ENTRIES` entries, since acts are few.
pub fn passes_have_room(tables: &Tables)
    requires { AreTables tables.now }
    ensures { (start : List ShareState) (held : List (Option ShareState)) (entries : List (ℕ × Act)) → AreFirstShares (fixed_of tables.now) start → Fits (touched tables.now) (MayDo tables.now) start held entries → Ascending entries → length entries < MOST_ENTRIES }
{
    acts_are_few(tables);
}
