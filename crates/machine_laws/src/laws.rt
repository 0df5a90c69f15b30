//! The great laws of the protocol, of every program: over every run of every text whose transactions may be asked of
//! it. No premise on code is left.

ghost use Rattle.aml_check.specs.Checked.{methods_of};
ghost use Rattle.protocol.specs.Rows.{ConditionsAgree, RisesAgree, RowsAgree, VerdictsAgree};
ghost use Rattle.protocol_records.specs.AsTold.{ToldStands};
ghost use Rattle.protocol_records.specs.Crash.{CrashHolds};
ghost use Rattle.protocol_verdicts.specs.Evidence.{VerdictsStand};
ghost use Rattle.protocol_verdicts.specs.EvidenceSerial.{VerdictsTell};
ghost use Rattle.protocol_theorems.specs.Left.{RunsEnd};
ghost use Rattle.protocol_laws.specs.OneWay.{PlacesStay};
ghost use Rattle.protocol_theorems.specs.Order.{OrderHolds};
ghost use Rattle.protocol_theorems.specs.Quiet.{AnsweredWhenQuiet};
ghost use Rattle.protocol_theorems.specs.Sets.{NumbersStand};
ghost use Rattle.protocol_theorems.specs.Waits.{WaitsEnd};
ghost use Rattle.machine_laws.specs.Meant.{CommittedAsMeant, RecoveredAsMeant, VerdictsAsMeant};
ghost use Rattle.machine_laws.specs.Programs.{AfterEveryRunOf, AtEveryMomentOf, OfEveryRunOf};

use crate::{alone_as_meant, code_has_the_facts, serial_as_meant};
use aml_check::Checked;
use aml_slice::Control;

/// Run one after the other in the order of their places, the transactions that committed give the results that they
/// had; no two places are equal; on each actor states link in the order of placing, and places rise, but for two ACTs that
/// only read, which left there what they found; and who is told a place is one of them, there, with that result. Where no
/// event is allowed each of them is told so, and the actors have the states that the serial run leaves.
pub fn committed_transactions_are_in_order(program: &Checked)
    ensures { AfterEveryRunOf (methods_of program.now) OrderHolds }
{
    code_has_the_facts(program);
    protocol_theorems::committed_transactions_are_in_order::<Control>();
}

/// At every moment, whatever the logs are left with, the transactions whose commit records are there had committed;
/// run one after the other in the order of their places they give the results that they had; with each of them is all
/// that the run places before it; who was told that it committed is one of them; and the states that the records tell are
/// those that they leave. Of two ACTs that only read, neither is placed before the other: one may be there without one that
/// came earlier to the same actor.
pub fn recovered_transactions_are_in_order(program: &Checked)
    ensures { AtEveryMomentOf (methods_of program.now) CrashHolds }
{
    code_has_the_facts(program);
    protocol_records::recovered_transactions_are_in_order::<Control>();
}

/// After every run, also one that stopped early: who is told that it committed is a PACT of a batch that settled, or an ACT
/// that is sealed with a value; with each of these is all that committed with a value and was placed before it; and run one
/// after the other in the order of their places, with nobody else, they give the results that they had. Of two ACTs that
/// only read, neither is placed before the other.
pub fn told_transactions_are_in_order(program: &Checked)
    ensures { AfterEveryRunOf (methods_of program.now) ToldStands }
{
    code_has_the_facts(program);
    protocol_records::told_transactions_are_in_order::<Control>();
}

/// A verdict is there exactly where an event of the run gave it, with its cause at that event, and it stays.
pub fn verdicts_have_evidence(program: &Checked)
    ensures { OfEveryRunOf (methods_of program.now) VerdictsStand }
{
    code_has_the_facts(program);
    protocol_verdicts::verdicts_have_evidence::<Control>();
}

/// Who is told a place gives what it is told there in the serial run of what committed; who is told that it failed with its
/// batch fails so in a serial run behind the settled batches below it and the ACTs with a value below the number that it is
/// told; and who was taken along is told who failed.
pub fn verdicts_tell_of_serial_runs(program: &Checked)
    ensures { OfEveryRunOf (methods_of program.now) VerdictsTell }
{
    code_has_the_facts(program);
    protocol_verdicts::verdicts_tell_of_serial_runs::<Control>();
}

/// Where a run cannot go on, all is answered: every transaction is submitted and replied to, each batch is aborted, or settled
/// and trimmed everywhere, each ACT is given up or sealed and has left its actors, the logs are synced, and no message,
/// control, entry or outcome is left.
pub fn runs_that_cannot_go_on_have_answered(program: &Checked)
    ensures { AfterEveryRunOf (methods_of program.now) AnsweredWhenQuiet }
{
    code_has_the_facts(program);
    protocol_theorems::runs_that_cannot_go_on_have_answered::<Control>();
}

/// A number computed from the state, at most so many times the transactions at the opening, falls at every event.
pub fn every_run_ends(program: &Checked)
    ensures { OfEveryRunOf (methods_of program.now) RunsEnd }
{
    code_has_the_facts(program);
    protocol_theorems::every_run_ends::<Control>();
}

/// Before and after numbers are the greatest and the least of the batches that stand before and behind an ACT, and
/// do not cross; who has its place stands behind nobody that is not doomed; an actor's two floors are the greatest before
/// numbers of the readers that left it, and of the others; and on each actor places rise in the order of commits, but for two
/// ACTs that only read.
pub fn numbers_are_the_ends_of_sets(program: &Checked)
    ensures { AfterEveryRunOf (methods_of program.now) NumbersStand }
{
    code_has_the_facts(program);
    protocol_theorems::numbers_are_the_ends_of_sets::<Control>();
}

/// Whoever has its place in the serial order keeps it, with its before number.
pub fn places_stay(program: &Checked)
    ensures { AfterEveryRunOf (methods_of program.now) PlacesStay }
{
    code_has_the_facts(program);
    protocol_laws::places_stay::<Control>();
}

/// The table, whose words are shorter at some rows, makes of a state what the rows make of it as they were agreed.
pub fn rows_are_as_agreed(program: &Checked)
    ensures { AfterEveryRunOf (methods_of program.now) RowsAgree }
{
    code_has_the_facts(program);
    protocol_theorems::rows_are_as_agreed::<Control>();
}

/// Each condition of each event holds exactly where the agreed one does: an Abort is for a PACT that failed where all smaller
/// tids of its batch ended with a value, and a Reply is to a transaction whose batch is settled or aborted, or whose ACT is
/// doomed or sealed.
pub fn conditions_are_as_agreed(program: &Checked)
    ensures { AfterEveryRunOf (methods_of program.now) ConditionsAgree }
{
    code_has_the_facts(program);
    protocol_theorems::conditions_are_as_agreed::<Control>();
}

/// Where an ACT is placed, one pass over the ACTs carries before numbers through all pairs: along each pair whose ACT ahead is
/// not doomed the one behind has a number at least as great, no number is greater than this forces, and there is one such list
/// alone.
pub fn numbers_are_carried_through_all_pairs(program: &Checked)
    ensures { AfterEveryRunOf (methods_of program.now) RisesAgree }
{
    code_has_the_facts(program);
    protocol_theorems::numbers_are_carried_through_all_pairs::<Control>();
}

/// A transaction has no verdict exactly where its batch is neither settled nor aborted, and its ACT neither doomed nor
/// sealed.
pub fn who_has_ended_has_a_verdict(program: &Checked)
    ensures { AfterEveryRunOf (methods_of program.now) VerdictsAgree }
{
    code_has_the_facts(program);
    protocol_theorems::who_has_ended_has_a_verdict::<Control>();
}

/// A batch or an ACT that still has something to do waits for one that is lower: by number, a batch before an ACT of the
/// same number, and of two such ACTs the younger first. Of two ACTs on an actor that only read neither waits for the other.
/// So nobody waits in a circle; and where one waits for nobody, some event is allowed.
pub fn nobody_waits_in_a_circle(program: &Checked)
    ensures { AfterEveryRunOf (methods_of program.now) WaitsEnd }
{
    code_has_the_facts(program);
    protocol_theorems::nobody_waits_in_a_circle::<Control>();
}

/// The transactions that committed, run one after the other in the order of their places as the language means each of
/// them, give the results that they had. Those of them that are told that they committed, run with nobody else, give these
/// results, too. Each alone, where it found what it found, means what it did; and where no event is allowed the actors have
/// the states that the serial run leaves.
pub fn committed_transactions_are_as_meant(program: &Checked)
    ensures { AfterEveryRunOf (methods_of program.now) (CommittedAsMeant (methods_of program.now)) }
{
    alone_as_meant(program);
    serial_as_meant(program);
    committed_transactions_are_in_order(program);
    told_transactions_are_in_order(program);
    verdicts_tell_of_serial_runs(program);
    protocol_laws::transactions_are_in_one_place::<Control>();
}

/// At every moment, whatever the logs are left with, the transactions whose commit records are there, run one after the
/// other in the order of their places as the language means each of them, give the results that they had; and the states
/// that are recovered are those that this serial run leaves.
pub fn recovered_transactions_are_as_meant(program: &Checked)
    ensures { AtEveryMomentOf (methods_of program.now) (RecoveredAsMeant (methods_of program.now)) }
{
    serial_as_meant(program);
    recovered_transactions_are_in_order(program);
    verdicts_tell_of_serial_runs(program);
    protocol_laws::transactions_are_in_one_place::<Control>();
}

/// Who is told a place, with a value or with a code of its own, gives that alone, as the language means it, behind those
/// that committed with a place below its own, each run as the language means it; and who failed with its batch fails so
/// behind the settled batches below it and the ACTs with a value below the number that it is told.
pub fn verdicts_are_as_meant(program: &Checked)
    ensures { OfEveryRunOf (methods_of program.now) (VerdictsAsMeant (methods_of program.now)) }
{
    serial_as_meant(program);
    committed_transactions_are_in_order(program);
    told_transactions_are_in_order(program);
    committed_transactions_are_as_meant(program);
    verdicts_tell_of_serial_runs(program);
    protocol_laws::transactions_are_in_one_place::<Control>();
}
