//! Why the run of a method has ended.

/// Why a method's run has ended.
#[derive(Clone, Copy, Debug, PartialEq, Eq)]
pub enum Exit {
    /// By the value that it returns.
    Gives(i64),
    /// At a call of a method on an actor.
    Asks { target: i64, method: u16 },
}
