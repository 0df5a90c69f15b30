//! Laws of rounds over any lists.
ghost use Rattle.snap_follow.specs.Laws.{OneRound, OneRoundRefusal, OneTaking, RefusedAreNoRounds, RefusedForMemoryAlone, SomeTaking, TwoRoundsRecover, TwoRoundsTakeAll};

use snap_recover::one_refusal;

/// A round takes one set of commits, and no other one.
pub fn one_taking()
    ensures { OneTaking }
{}

/// There is always such a set.
pub fn some_taking()
    ensures { SomeTaking }
{}

/// After two rounds over the same lists all that are in are taken, where all that were taken before are.
pub fn two_rounds_take_all()
    ensures { TwoRoundsTakeAll }
{}

/// The members and the states are those to which the lists recover then.
pub fn two_rounds_recover()
    ensures { TwoRoundsRecover }
{}

/// A round gives one answer: one list of members, and one list of states.
pub fn one_round()
    ensures { OneRound }
{}

/// A round is refused with one answer at most, want of memory aside.
pub fn one_round_refusal()
    ensures { OneRoundRefusal }
{
    one_refusal();
}

/// Where a round is refused it gives nothing, want of memory aside.
pub fn refused_are_no_rounds()
    ensures { RefusedAreNoRounds }
{}

/// Lists that begin with those of the round before, are readable, and lack nothing of what that round read the commits of, are refused for
/// want of memory alone. So where there is memory a follower that reads them comes to know their members and states.
pub fn refused_for_memory_alone()
    ensures { RefusedForMemoryAlone }
{}
