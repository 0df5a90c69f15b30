//! The great laws, over every run of every accepted text and any method code that has the facts.
//! `C` is the type of controls.

ghost use Rattle.protocol.specs.Laws.{AfterEveryRunWithHistory, OfEveryRun};
ghost use Rattle.protocol.specs.Rows.{ConditionsAgree, RisesAgree, RowsAgree, VerdictsAgree};
ghost use Rattle.protocol_theorems.specs.Order.{OrderHolds};
ghost use Rattle.protocol_theorems.specs.Left.{RunsEnd};
ghost use Rattle.protocol_theorems.specs.Quiet.{AnsweredWhenQuiet};
ghost use Rattle.protocol_theorems.specs.Rises.{RisesAreLeast};
ghost use Rattle.protocol_theorems.specs.Sets.{NumbersStand};
ghost use Rattle.protocol_theorems.specs.Waits.{WaitsEnd};

/// Run one after the other in the order of their places, the transactions that committed give the results that they
/// had; no two places are equal; on each actor states link in the order of placing, and places rise, but for two ACTs that
/// only read, which left there what they found; and who is told a place is one of them, there, with that result. Where no
/// event is allowed each of them is told so, and the actors have the states that the serial run leaves.
pub fn committed_transactions_are_in_order<C>()
    ensures { AfterEveryRunWithHistory (OrderHolds {C = C}) }
{}

/// Where a run cannot go on, all is answered: every transaction is submitted and replied to, no queue has one, each
/// batch is aborted, or settled and trimmed everywhere, each ACT is given up or sealed and has left its actors, the
/// logs are synced, no actor has an entry or an outcome, and no control is left.
pub fn runs_that_cannot_go_on_have_answered<C>()
    ensures { AfterEveryRunWithHistory (AnsweredWhenQuiet {C = C}) }
{}

/// A batch or an ACT that still has something to do waits for another one in five cases: an ACT that has ended, for the
/// batch of its before number; one that is to run on an actor, for a batch ahead of it there, and for an ACT, unless both
/// only read; an open batch, for each smaller one, and for an ACT ahead of it on an actor. Who is waited for is lower: by
/// number, a batch before an ACT of the same number, and of two such ACTs the younger first. So nobody waits in a circle;
/// and where one waits for nobody, some event is allowed.
pub fn nobody_waits_in_a_circle<C>()
    ensures { AfterEveryRunWithHistory (WaitsEnd {C = C}) }
{}

/// Before and after numbers are the greatest and the least of the batches that stand before and behind an ACT, in sets
/// that are closed along the pairs that carry, and do not cross; who has its place stands behind nobody that is not doomed; an
/// actor's two floors are the greatest before numbers of the readers that left it, and of the others; and on each actor places
/// rise in the order of commits, but for two ACTs that only read.
pub fn numbers_are_the_ends_of_sets<C>()
    ensures { AfterEveryRunWithHistory (NumbersStand {C = C}) }
{}

/// What is raised along pairs is raised no further than the pairs force.
pub fn rises_are_least()
    ensures { RisesAreLeast }
{}

/// On every run the table, whose words are shorter at some rows, makes of a state what the rows make of it as they were
/// agreed.
pub fn rows_are_as_agreed<C>()
    ensures { AfterEveryRunWithHistory (RowsAgree {C = C}) }
{}

/// On every run each condition of each event holds exactly where the agreed one does: an Abort is for a PACT that failed
/// where all smaller tids of its batch ended with a value, and a Reply is to a transaction whose batch is settled or
/// aborted, or whose ACT is doomed or sealed.
pub fn conditions_are_as_agreed<C>()
    ensures { AfterEveryRunWithHistory (ConditionsAgree {C = C}) }
{}

/// On every run the one pass over the ACTs in which before numbers rise where an ACT is placed carries them through all
/// pairs: along each pair whose ACT ahead is not doomed the one behind has a number at least as great, no number is greater
/// than this forces, and there is one such list alone.
pub fn numbers_are_carried_through_all_pairs<C>()
    ensures { AfterEveryRunWithHistory (RisesAgree {C = C}) }
{}

/// On every run a transaction has no verdict exactly where its batch is neither settled nor aborted, and its ACT neither
/// doomed nor sealed.
pub fn who_has_ended_has_a_verdict<C>()
    ensures { AfterEveryRunWithHistory (VerdictsAgree {C = C}) }
{}

/// A number computed from the state, at most so many times the transactions at the opening, falls at every event.
pub fn every_run_ends<C>()
    ensures { OfEveryRun (RunsEnd {C = C}) }
{}
