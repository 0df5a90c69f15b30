//! What a crash leaves, at every moment of every run. `C` is the type of controls.

ghost use Rattle.protocol_records.specs.Crash.{AtEveryMoment, CrashHolds};

/// At every moment of every run, whatever the logs are left with, the transactions whose commit records are there had
/// committed; run one after the other in the order of their places they give the results that they had; with each of
/// them is all that the run places before it; who was told that it committed is one of them; and the states that the
/// records tell are those that they leave. Of two ACTs that only read, neither is placed before the other: one may be
/// there without one that came earlier to the same actor.
pub fn recovered_transactions_are_in_order<C>()
    ensures { AtEveryMoment (CrashHolds {C = C}) }
{}
