//! What of a run the machine's parts have to hold.

ghost use Rattle.protocol.specs.Laws.{AfterEveryRun, AfterEveryRunWithHistory};
ghost use Rattle.protocol_theorems.specs.Bounds.{BatchesHaveActors, BoxesAreFew, PlacesAreFew};
ghost use Rattle.protocol_theorems.specs.Controls.{ControlsAreRests};

/// A batch that is formed has an actor.
pub fn batches_have_actors<C>()
    ensures { AfterEveryRun (BatchesHaveActors {C = C}) }
{}

/// On an actor each transaction of its entries has a control or an outcome at most, and nobody else has one.
pub fn boxes_are_few<C>()
    ensures { AfterEveryRunWithHistory (BoxesAreFew {C = C}) }
{}

/// An ACT joins at most sixteen actors, each once, and one with a result has joined one; its before number is below the next
/// batch.
pub fn places_are_few<C>()
    ensures { AfterEveryRunWithHistory (PlacesAreFew {C = C}) }
{}

/// Each control in the post, in an inbox and in an outbox is a rest of a transaction of the text, and stands on the actor to
/// which it goes or where it lies.
pub fn controls_are_rests<C>()
    ensures { AfterEveryRunWithHistory (ControlsAreRests {C = C}) }
{}
