//! Of every program: what lies on an actor, how much there may be, and what the controls under way are.

ghost use Rattle.aml_check.specs.Checked.{methods_of};
ghost use Rattle.protocol_theorems.specs.OnActors.{AllLieInOrder, LimitsHold, ReadersSee};
ghost use Rattle.machine_laws.specs.Controls.{ControlsMayRun};
ghost use Rattle.machine_laws.specs.Programs.{AfterEveryRunOf};

use crate::code_has_the_facts;
use aml_check::Checked;
use aml_slice::Control;

/// On every actor batches ascend, each image is of an entry, and nothing has run behind an entry that is no complete batch,
/// ACTs that only read aside. A cell that has not seen all cascades holds aborted batches exactly from the first one of the
/// next cascade on, and the ACTs behind one are doomed; a cell that has seen all of them holds none.
pub fn actors_lie_in_order(program: &Checked)
    ensures { AfterEveryRunOf (methods_of program.now) AllLieInOrder }
{
    code_has_the_facts(program);
    protocol_theorems::actors_lie_in_order::<Control>();
}

/// Where an ACT that only reads has run on an actor and still stands there, it found the state that the actor has, and left it
/// so; and none has run behind a batch that is not complete there, or behind an ACT that does not only read.
pub fn readers_see_the_state(program: &Checked)
    ensures { AfterEveryRunOf (methods_of program.now) ReadersSee }
{
    code_has_the_facts(program);
    protocol_theorems::readers_see_the_state::<Control>();
}

/// No more batches and ACTs are live than the text allows; no more batches, ACTs and images lie on an actor; and a slice that
/// begins a new image finds room for it.
pub fn limits_hold(program: &Checked)
    ensures { AfterEveryRunOf (methods_of program.now) LimitsHold }
{
    code_has_the_facts(program);
    protocol_theorems::limits_hold::<Control>();
}

/// Each control in the post, in an inbox and in an outbox is what is left of a transaction of the program, and stands on the
/// actor to which it goes or where it lies: so a slice of it may run there.
pub fn controls_may_run(program: &Checked)
    ensures { AfterEveryRunOf (methods_of program.now) (ControlsMayRun (methods_of program.now)) }
{
    code_has_the_facts(program);
    protocol_theorems::controls_are_rests::<Control>();
}
