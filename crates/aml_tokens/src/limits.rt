//! The limits of tokens.

/// The most bytes of a program's text: its tokens lie within the first so many.
pub const LONGEST_PROGRAM: usize = 65_536;

/// The most bytes of a name.
pub const LONGEST_NAME: usize = 32;
