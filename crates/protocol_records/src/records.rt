//! The records of a run, over any method code that has the facts. `C` is the type of controls.

ghost use Rattle.protocol.specs.Laws.{AfterEveryRunWithHistory};
ghost use Rattle.protocol_records.specs.RecordLaws.{MarksAreDurable, RecordsAddedOnce, RecordsAreFew, RecordsTell};

/// Each record lies in the log of its batch, actor or ACT, and no two of a run are about the same.
pub fn records_are_added_once<C>()
    ensures { AfterEveryRunWithHistory (RecordsAddedOnce {C = C}) }
{}

/// What a record tells is so: an info the actors and the tids of its batch; a completion an actor of its batch; a commit
/// that its batch is no longer just formed; a prepare an actor of an ACT with a value; a commit of an ACT its place and its
/// actors.
pub fn records_tell_what_is<C>()
    ensures { AfterEveryRunWithHistory (RecordsTell {C = C}) }
{}

/// What is noted, vouched for, settled and sealed with a value is durable, and so is what a commit rests on.
pub fn marks_are_durable<C>()
    ensures { AfterEveryRunWithHistory (MarksAreDurable {C = C}) }
{}

/// A batch adds at most two records and one for each of its actors, an ACT at most one and one for each of its actors: at
/// most eighteen for each transaction that was submitted. A batch has a PACT, and no more than a batch of the text may have.
pub fn records_are_few<C>()
    ensures { AfterEveryRunWithHistory (RecordsAreFew {C = C}) }
{}
