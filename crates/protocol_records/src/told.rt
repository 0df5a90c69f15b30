//! Who is told that it committed, over every run. `C` is the type of controls.

ghost use Rattle.protocol.specs.Laws.{AfterEveryRunWithHistory};
ghost use Rattle.protocol_records.specs.AsTold.{ToldStands};

/// After every run, also one that stopped early: who is told that it committed is a PACT of a batch that settled, or an ACT
/// that is sealed with a value; with each of these is all that committed with a value and was placed before it; and run one
/// after the other in the order of their places, with nobody else, they give the results that they had. Of two ACTs that
/// only read, neither is placed before the other.
pub fn told_transactions_are_in_order<C>()
    ensures { AfterEveryRunWithHistory (ToldStands {C = C}) }
{}
