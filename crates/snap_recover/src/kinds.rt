//! The two kinds of what logs commit.

/// The two kinds of what is committed.
#[derive(Clone, Copy)]
pub(crate) enum Kind {
    /// A batch of declared transactions.
    Batch,
    /// An undeclared transaction.
    Act,
}
