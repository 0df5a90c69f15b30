//! What verdicts rest on and what they tell, over every run. `C` is the type of controls.

ghost use Rattle.protocol.specs.Laws.{OfEveryRun};
ghost use Rattle.protocol_verdicts.specs.Evidence.{VerdictsStand};
ghost use Rattle.protocol_verdicts.specs.EvidenceSerial.{VerdictsTell};

/// A verdict is there exactly where an event of the run gave it, with its cause at that event, and it stays.
pub fn verdicts_have_evidence<C>()
    ensures { OfEveryRun (VerdictsStand {C = C}) }
{}

/// Who is told a place gives what it is told there in the serial run of what committed; who is told that it failed with its
/// batch fails so in a serial run behind the settled batches below it and the ACTs with a value below the number that it is
/// told; and who was taken along is told who failed.
pub fn verdicts_tell_of_serial_runs<C>()
    ensures { OfEveryRun (VerdictsTell {C = C}) }
{}
