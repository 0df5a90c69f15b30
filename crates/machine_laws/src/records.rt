//! The records and the numbers of the machine, of every program: over every run of every text whose transactions may be
//! asked of it.

ghost use Rattle.aml_check.specs.Checked.{methods_of};
ghost use Rattle.protocol_records.specs.NextNumbers.{NextNumbersStand};
ghost use Rattle.protocol_records.specs.RecordLaws.{MarksAreDurable, RecordsAddedOnce, RecordsAreFew, RecordsTell};
ghost use Rattle.machine_laws.specs.Programs.{AfterEveryRunOf, AtEveryMomentOf};

use crate::code_has_the_facts;
use aml_check::Checked;
use aml_slice::Control;

/// Each record lies in the log of its batch, actor or ACT, and no two of a run are about the same.
pub fn records_are_added_once(program: &Checked)
    ensures { AfterEveryRunOf (methods_of program.now) RecordsAddedOnce }
{
    code_has_the_facts(program);
    protocol_records::records_are_added_once::<Control>();
}

/// What a record tells is so: an info the actors and the tids of its batch; a completion an actor of its batch; a commit
/// that its batch is no longer just formed; a prepare an actor of an ACT with a value; a commit of an ACT its place and its
/// actors.
pub fn records_tell_what_is(program: &Checked)
    ensures { AfterEveryRunOf (methods_of program.now) RecordsTell }
{
    code_has_the_facts(program);
    protocol_records::records_tell_what_is::<Control>();
}

/// What is noted, vouched for, settled and sealed with a value is durable, and so is what a commit rests on.
pub fn marks_are_durable(program: &Checked)
    ensures { AfterEveryRunOf (methods_of program.now) MarksAreDurable }
{
    code_has_the_facts(program);
    protocol_records::marks_are_durable::<Control>();
}

/// A batch adds at most two records and one for each of its actors, an ACT at most one and one for each of its actors: at
/// most eighteen for each transaction that was submitted.
pub fn records_are_few(program: &Checked)
    ensures { AfterEveryRunOf (methods_of program.now) RecordsAreFew }
{
    code_has_the_facts(program);
    protocol_records::records_are_few::<Control>();
}

/// At every moment, whatever the logs are left with, the next tid, batch number and commit number that are recovered are
/// above those of all that is recovered, and not above those that the run would have drawn next; and what is recovered of
/// this run has no number of an earlier one.
pub fn next_numbers_are_above_all(program: &Checked)
    ensures { AtEveryMomentOf (methods_of program.now) NextNumbersStand }
{
    code_has_the_facts(program);
    protocol_records::next_numbers_are_above_all::<Control>();
}
