//! What is over needs to be looked at no more.

ghost use Rattle.protocol.specs.Laws.{AfterEveryRunWithHistory};
ghost use Rattle.protocol_records.specs.Overs.{ActsEndWhole};

/// An ACT that has left all its actors is given up or sealed, and one that is sealed with a value is prepared on all its
/// actors.
pub fn acts_end_whole<C>()
    ensures { AfterEveryRunWithHistory (ActsEndWhole {C = C}) }
{}
