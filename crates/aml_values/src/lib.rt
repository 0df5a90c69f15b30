//! What flat expressions give, on an actor with its state and the values of a method's variables, exactly as
//! `aml_check` says; the codes of the failures; and what a call leaves of a
//! declaration.
#![tactic(auto)]

mod codes;
mod flat;
mod rows;
mod uses;
mod values;

pub use codes::{
    Code, NO_ACTOR, OVERFLOW, TOO_DEEP, TOO_MANY_ACTORS, TOO_MANY_CALLS, TOO_MANY_STATEMENTS,
    UNDECLARED, ZERO_DIVISOR,
};
pub use flat::value;
pub use uses::one_less;
pub use values::holds;
