//! The codes of failures.

/// The code of a failure, which a report names.
pub type Code = u16;

/// A PACT calls an actor that it did not declare, or more often than it declared.
pub const UNDECLARED: Code = 1001;

/// A result is outside signed 64 bits.
pub const OVERFLOW: Code = 1002;

/// A divisor is 0.
pub const ZERO_DIVISOR: Code = 1003;

/// The target is no actor.
pub const NO_ACTOR: Code = 1004;

/// A call more than `MOST_CALLS`, the root counted.
pub const TOO_MANY_CALLS: Code = 1005;

/// An actor more than `MOST_CALLED_ACTORS`.
pub const TOO_MANY_ACTORS: Code = 1006;

/// A call where `MOST_OPEN_CALLS` are open.
pub const TOO_DEEP: Code = 1007;

/// A statement more than `MOST_STATEMENTS`.
pub const TOO_MANY_STATEMENTS: Code = 1008;
