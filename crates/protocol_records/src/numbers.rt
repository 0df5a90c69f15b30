//! The numbers with which a run goes on from logs that a crash left. `C` is the type of controls.

ghost use Rattle.protocol.specs.Laws.{AfterEveryRunWithHistory};
ghost use Rattle.protocol_records.specs.Crash.{AtEveryMoment};
ghost use Rattle.protocol_records.specs.NextNumbers.{ActsDrawn, NextNumbersStand};

/// At every moment of every run, whatever the logs are left with, the next tid, batch number and commit number that are
/// recovered are above those of all that is recovered, and not above those that the run would have drawn next; and what is
/// recovered of this run has no number of an earlier one.
pub fn next_numbers_are_above_all<C>()
    ensures { AtEveryMoment (NextNumbersStand {C = C}) }
{}

/// The commit number of an ACT that has its place was drawn in this run, and so was the batch before it, or it is the last of
/// earlier runs.
pub fn places_are_drawn<C>()
    ensures { AfterEveryRunWithHistory {C = C} (λ w finish s h. ActsDrawn w s) }
{}
