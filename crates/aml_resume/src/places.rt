//! A statement whose inner block is open.

/// A statement whose inner block is open.
#[derive(Clone, Copy, Debug, PartialEq, Eq)]
pub struct Spot {
    /// The statement's place in its block, from 0 on.
    pub at: usize,
    /// Whether the open block is the one behind `else`.
    pub other: bool,
    /// How many variables are in view behind the inner block.
    pub keep: usize,
}
