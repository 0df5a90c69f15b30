//! What every round of a follower owes. `C` is the type of controls.

ghost use Rattle.followed_runs.specs.Following.{InEveryRound, SeenIsShown, CallsKnowMore};
ghost use Rattle.followed_runs.specs.FollowingRuns.{CallsKnowMoreBehindRuns, InEveryRunsRound, RecordsReadOnce, SeenIsShownBehindRuns};

/// A follower reads the logs of a run in rounds, log by log, at moments that never go back. Each round takes some of the commits
/// that the round before read, with all that changed an actor ahead of them. Then no list lacks what it had, nothing is missing that a
/// commit of the round before rests on, and nobody is lost. What was taken had committed with a value; it has with each
/// transaction all that the run places before it on an actor, where it or its batch changed this actor; one after the other in the
/// order of their places its transactions give the results that they had, and leave the states that their last records tell.
pub fn followers_are_in_order<C>()
    ensures { InEveryRound C }
{}

/// The same of several runs, one behind the other, where nothing that was read is lost: run by run, from the states that the
/// members of the runs before left; with a member of a later run all of an earlier one that changed one of its actors; and
/// the states that the last records tell are those that all of them leave.
pub fn followers_go_on_behind_runs<C>()
    ensures { InEveryRunsRound C }
{}

/// Whatever is read of the logs of several runs, one behind the other, no record is there twice: of each batch and ACT at most one info,
/// one commit, and one record for each actor.
pub fn records_are_read_once<C>()
    ensures { RecordsReadOnce C }
{}

/// A commit that was read before a call is taken by the call's second round, where each round takes as many as it may.
pub fn what_was_seen_is_shown<C>()
    ensures { SeenIsShown C }
{}

/// Of two calls, each reading of the second no earlier than any of the first, and each round taking as many as it may: whatever the
/// first one took the second one takes too.
pub fn later_calls_know_more<C>()
    ensures { CallsKnowMore C }
{}

/// Over several runs, one behind the other, where no crash took back what was read: a commit of any of them that was read before a call
/// is taken by the call's second round.
pub fn what_was_seen_is_shown_behind_runs<C>()
    ensures { SeenIsShownBehindRuns C }
{}

/// And of two calls over several runs whatever the first one took the second one takes too.
pub fn later_calls_know_more_behind_runs<C>()
    ensures { CallsKnowMoreBehindRuns C }
{}
