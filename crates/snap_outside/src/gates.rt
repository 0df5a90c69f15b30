//! The trait of a gate before slices, and the gate that is always open.
use snap_base::ActorId;

/// What is passed before a worker runs a slice on an actor. A test may wait here.
pub trait Gate {
    /// Passes the gate before a slice on this actor.
    fn enter(&self, actor: ActorId);
}

/// A gate that is always open.
#[derive(Clone, Copy, Debug, PartialEq, Eq)]
pub struct FreeGate;

impl FreeGate {
    /// A gate through which every slice passes at once.
    pub fn new() -> Self {
        FreeGate
    }
}

impl Gate for FreeGate {
    fn enter(&self, _actor: ActorId) {}
}
