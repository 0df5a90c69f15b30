//! What an undo gives.

ghost use Rattle.protocol.specs.Laws.{AfterEveryRunWithHistory};
ghost use Rattle.protocol_laws.specs.Undo.{UndoGives};

/// A rollback gives back the state that the actor had before the first run of what is taken away. The leaving of an ACT that
/// is doomed or failed gives back the state before the ACT's first run there. In both cases it is the state that the last run
/// of what stays left.
pub fn undo_gives_the_state_before<C>()
    ensures { AfterEveryRunWithHistory (UndoGives {C = C}) }
{}
