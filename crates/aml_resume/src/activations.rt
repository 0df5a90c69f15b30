//! A method between two statements: its variables and its place.

use crate::Spot;

/// Where a method stands, and its variables.
#[derive(Drop)]
pub struct Activation {
    /// The values of the variables in view, at most `MOST_NAMES`.
    pub variables: Vec<i64>,
    /// The statements whose inner blocks are open, the outermost last, fewer than `MOST_LEVELS`.
    pub path: Vec<Spot>,
    /// The statement of the innermost open block that is next.
    pub next: usize,
}
