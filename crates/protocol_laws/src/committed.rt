//! What committed, over any method code that has the facts. `C` is the type of controls.

ghost use Rattle.protocol.specs.Laws.{AfterEveryRunWithHistory};
ghost use Rattle.protocol_laws.specs.Told.{CommittedTold};

/// A PACT of a batch that committed and an ACT that has its place are among those that committed, with their places and their
/// results, and whoever is among those is one of them; no two have one place, and what committed of a batch has a value.
pub fn committed_are_those_with_places<C>()
    ensures { AfterEveryRunWithHistory {C = C} (λ w finish s h. CommittedTold s h) }
{}
