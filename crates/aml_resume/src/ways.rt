//! Where an operation leads.

/// Where an operation leads.
#[derive(Clone, Copy, Debug, PartialEq, Eq)]
pub(crate) enum Way {
    /// To the operation at this position.
    Goes(usize),
    /// Out of the method, with the value that is returned.
    Gives(i64),
    /// To a call of a method on an actor.
    Asks { target: i64, method: u16 },
}
