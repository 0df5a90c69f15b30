//! Laws on appends to journals, and on all runs of a text, for the hosts that append and print.
ghost use Rattle.std.specs.List.{AllByRecursion};
ghost use Rattle.std.specs.Prelude.{◌≡◌, false, None, Some, List, [], ◌∷◌, map};
ghost use Rattle.record_log.specs.gate_log.State.{LogState};
ghost use Rattle.snap_hand.specs.log_set.Shown.{told_bytes};
ghost use Rattle.protocol.specs.Records.{LogRecord};
ghost use Rattle.record_log.specs.Growth.{MayAppendGroup};
ghost use Rattle.record_log.specs.Records.{spelled};
ghost use Rattle.snap_hand.specs.log_set.Told.{all_told};
ghost use Rattle.run_effects.specs.Appending.{IsAppended, IsCutOff};
ghost use Rattle.run_effects.specs.Driven.{IsDriven};
ghost use Rattle.run_effects.specs.RunsOf.{RunsOf};
ghost use Rattle.snap_hand.specs.Tables.{AreTables, fixed_of};
ghost use Rattle.record_log.specs.txn_records.Records.{IsState};
ghost use Rattle.record_log.specs.txn_records.declared.records.Record.{Record};

use crate::{groups_are_records, groups_fit, groups_grow, replies_grow, waiting_fits};
use aml_slice::Control;
use machine_laws::{every_run_ends, texts_have_the_facts};
use protocol_laws::logs_stay;
use record_log::{history_grows, states_fit};
use snap_base::State;
use snap_hand::Tables;

/// A law, cited by a call: an open log got no group yet; an append of a group gives it that group; an append that met a fault
/// gives it a prefix of one; and the pieces that wait are the spellings of the records that wait.
pub fn appends_drive()
    ensures nothing { (a : LogState) → a.shut ≡ false → IsDriven a a [] None }
    ensures group { (a b : LogState) (group : List Record) → MayAppendGroup a.end group → IsAppended a b (spelled group) → IsDriven a b (group ∷ []) None }
    ensures fault { (a b : LogState) (group : List Record) → MayAppendGroup a.end group → IsCutOff a b (spelled group) → IsDriven a b [] (Some group) }
    ensures pieces { (rs : List LogRecord) → map told_bytes rs ≡ spelled (all_told rs) }
{
    history_grows();
}

/// A law on all runs of a text, cited by a call: they end; they keep the text's logs; what waits on a log may be appended there;
/// and with one more event what is appended and printed grows by what that event gives.
pub fn runs_of(tables: &Tables)
    requires { AreTables tables.now }
    ensures { RunsOf (fixed_of tables.now) }
{
    let program = &tables.work.program;
    each_fits(tables.opening.states.as_slice());
    texts_have_the_facts(program);
    every_run_ends(program);
    logs_stay::<Control>();
    groups_are_records(program);
    waiting_fits::<Control>();
    groups_fit::<Control>();
    groups_grow::<Control>();
    replies_grow::<Control>();
}

/// A law, cited by a call: each of the states may stand in a record.
fn each_fits(states: &[State])
    ensures { AllByRecursion IsState states.now }
{
    for state in states {
        states_fit(state);
    }
}
