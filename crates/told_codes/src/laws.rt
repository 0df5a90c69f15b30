//! The laws of who is told a place.

ghost use Rattle.aml_check.specs.Checked.{methods_of};
ghost use Rattle.machine_laws.specs.Programs.{OfEveryRunOf};
ghost use Rattle.protocol.specs.Laws.{AfterEveryRunWithHistory, OfEveryRun};
ghost use Rattle.told_codes.specs.Failures.{ToldFailuresStand};
ghost use Rattle.told_codes.specs.Meant.{CodesAsMeant};
ghost use Rattle.told_codes.specs.Places.{ToldPlacesStand};

use aml_check::Checked;
use aml_slice::Control;
use machine_laws::{
    alone_as_meant, code_has_the_facts, serial_as_meant, verdicts_tell_of_serial_runs,
};

/// After every run, also one that stopped early: those that are told a place, with a value or with a code of their own, run one
/// after the other in the order of their places with nobody else, give the results that they are told. So who is told a code of its
/// own gives it behind those alone that are told that they committed at a place below its own.
pub fn told_places_are_serial<C>()
    ensures { AfterEveryRunWithHistory (ToldPlacesStand {C = C}) }
{}

/// Of every run, also one that stopped early: who is told that it failed with its batch does so in a serial run behind those alone
/// that are told that they committed, of which the batches below its own and the ACTs with a number below the one that it is told
/// count.
pub fn told_failures_are_serial<C>()
    ensures { OfEveryRun (ToldFailuresStand {C = C}) }
{}

/// Of every program, as the language means each transaction, also where a run stopped early: those that are told a place mean, with
/// nobody else, the results that they are told; who is told a code of its own means it behind those alone that are told that they
/// committed at a place below its own; and who is told that it failed with its batch does so behind those of them alone that count
/// for it.
pub fn told_codes_are_as_meant(program: &Checked)
    ensures { OfEveryRunOf (methods_of program.now) (CodesAsMeant (methods_of program.now)) }
{
    code_has_the_facts(program);
    alone_as_meant(program);
    serial_as_meant(program);
    verdicts_tell_of_serial_runs(program);
    told_places_are_serial::<Control>();
    told_failures_are_serial::<Control>();
    protocol_laws::transactions_are_in_one_place::<Control>();
}
