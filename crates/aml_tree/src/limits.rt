//! The limits of a program's tree.

/// The most levels that may be open: blocks, parentheses and signs together.
pub const MOST_LEVELS: usize = 32;

/// The most parameters of a method.
pub const MOST_PARAMETERS: usize = 8;

/// The most names that a method may declare, its parameters among them.
pub const MOST_NAMES: usize = 32;

/// The most methods of a program.
pub const MOST_METHODS: usize = 64;

/// The greatest code behind `fail`; the least is 1.
pub const GREATEST_CODE: u64 = 999;
