//! What lies on an actor, how much there may be, and that what is new finds its place.

ghost use Rattle.protocol.specs.Laws.{AfterEveryRun, AfterEveryRunWithHistory};
ghost use Rattle.protocol_theorems.specs.OnActors.{AllLieInOrder, LimitsHold, ReadersSee};
ghost use Rattle.protocol_theorems.specs.Sizes.{AllFindRoom, SizesHold};

/// On every actor batches ascend, each image is of an entry, and nothing has run behind an entry that is no complete batch,
/// ACTs that only read aside. A cell that has not seen all cascades holds aborted batches exactly from the first one of the
/// next cascade on, and the ACTs behind one are doomed; a cell that has seen all of them holds none.
pub fn actors_lie_in_order<C>()
    ensures { AfterEveryRunWithHistory (AllLieInOrder {C = C}) }
{}

/// Where an ACT that only reads has run on an actor and still stands there, it found the state that the actor has, and left it
/// so; and none has run behind a batch that is not complete there, or behind an ACT that does not only read.
pub fn readers_see_the_state<C>()
    ensures { AfterEveryRunWithHistory (ReadersSee {C = C}) }
{}

/// No more batches and ACTs are live than the text allows; no more batches, ACTs and images lie on an actor; and a slice that
/// begins a new image finds room for it.
pub fn limits_hold<C>()
    ensures { AfterEveryRunWithHistory (LimitsHold {C = C}) }
{}

/// There are as many queues, cells, logs and replies as the text says, and tids, batches, commits of ACTs and cascades go no
/// further than the transactions that were submitted.
pub fn sizes_hold<C>()
    ensures { AfterEveryRun (SizesHold {C = C}) }
{}

/// A batch that is formed has no message under way and names no actor twice, a tid that is drawn has no control and is above
/// those of all ACTs, what is sent on is not under way, and all cascades end below a batch that is aborted.
pub fn what_is_new_is_not_there<C>()
    ensures { AfterEveryRun (AllFindRoom {C = C}) }
{}
