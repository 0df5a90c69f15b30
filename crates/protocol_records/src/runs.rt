//! Several runs on the same logs, each cut off by a crash. `C` is the type of controls.

ghost use Rattle.std.specs.Prelude.{List};
ghost use Rattle.protocol.specs.Fixed.{Opening};
ghost use Rattle.protocol_records.specs.SeveralRuns.{CutRun, GoOn, RunsStand};

/// Of runs one after the other, each cut off at any moment, whatever its logs are left with, and each beginning with what the
/// one before it left: what is recovered of each is closed and serial from the states before it, and has every transaction of
/// it that was acknowledged; and places rise from run to run.
pub fn several_runs_stand<C>()
    ensures { (o : Opening) (xs : List (CutRun C)) → GoOn o xs → RunsStand xs }
{}
