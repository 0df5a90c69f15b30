//! Who stands behind whom, and with which numbers.

ghost use Rattle.protocol.specs.Laws.{AfterEveryRunWithHistory};
ghost use Rattle.protocol_theorems.specs.OrderCases.{CasesHold, SchedulesInOrder};

/// Along each actor's chain of transactions that committed: a batch behind an ACT has a number above the ACT's before number;
/// an ACT behind a batch has a before number at least the batch's; an ACT behind an ACT, unless both only read, has a before
/// number that is not smaller, and a larger number of its commit; and a PACT behind a PACT is of a later batch, or of the same
/// batch with a larger tid.
pub fn cases_of_order<C>()
    ensures { AfterEveryRunWithHistory (CasesHold {C = C}) }
{}

/// On the schedule of an actor of the present epoch, of any two entries, committed or not, neither of which is a doomed ACT: a
/// batch behind an ACT has a number above the ACT's before number; an ACT behind a batch has a before number at least the
/// batch's; and an ACT behind an ACT, unless both only read, has a greater before number, or the same one and is older.
pub fn schedules_are_in_order<C>()
    ensures { AfterEveryRunWithHistory (SchedulesInOrder {C = C}) }
{}
