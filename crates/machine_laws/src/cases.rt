//! Of every program: how the book goes on in halves, who stands behind whom, and what an undo gives.

ghost use Rattle.aml_check.specs.Checked.{methods_of};
ghost use Rattle.protocol_laws.specs.Undo.{UndoGives};
ghost use Rattle.protocol_theorems.specs.BookFits.{HalvesGoOn};
ghost use Rattle.protocol_theorems.specs.OrderCases.{CasesHold, SchedulesInOrder};
ghost use Rattle.machine_laws.specs.Programs.{AfterEveryRunOf};

use crate::code_has_the_facts;
use aml_check::Checked;
use aml_slice::Control;

/// An allowed event finds in the halves of the book what it asks of them, and they go on as the halves of the book after it.
pub fn halves_go_on(program: &Checked)
    ensures { AfterEveryRunOf (methods_of program.now) HalvesGoOn }
{
    code_has_the_facts(program);
    protocol_theorems::halves_go_on::<Control>();
}

/// Along each actor's chain of transactions that committed: a batch behind an ACT has a number above the ACT's before number;
/// an ACT behind a batch has a before number at least the batch's; an ACT behind an ACT, unless both only read, has a before
/// number that is not smaller, and a larger number of its commit; and a PACT behind a PACT is of a later batch, or of the same
/// batch with a larger tid.
pub fn cases_of_order(program: &Checked)
    ensures { AfterEveryRunOf (methods_of program.now) CasesHold }
{
    code_has_the_facts(program);
    protocol_theorems::cases_of_order::<Control>();
}

/// On the schedule of an actor of the present epoch, of any two entries, committed or not, neither of which is a doomed ACT: a
/// batch behind an ACT has a number above the ACT's before number; an ACT behind a batch has a before number at least the
/// batch's; and an ACT behind an ACT, unless both only read, has a greater before number, or the same one and is older.
pub fn schedules_are_in_order(program: &Checked)
    ensures { AfterEveryRunOf (methods_of program.now) SchedulesInOrder }
{
    code_has_the_facts(program);
    protocol_theorems::schedules_are_in_order::<Control>();
}

/// A rollback gives back the state that the actor had before the first run of what is taken away. The leaving of an ACT that
/// is doomed or failed gives back the state before the ACT's first run there. In both cases it is the state that the last run
/// of what stays left.
pub fn undo_gives_the_state_before(program: &Checked)
    ensures { AfterEveryRunOf (methods_of program.now) UndoGives }
{
    code_has_the_facts(program);
    protocol_laws::undo_gives_the_state_before::<Control>();
}
