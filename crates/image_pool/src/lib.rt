//! A region for images of actors' states, of a size that is fixed when it is made.
//!
//! A `Pool` keeps states in slots. Who gives it a state gets an `Image`, a token that is worth the state: it can be
//! neither copied nor let go, so that it has to come back to the pool, which then gives out the state again. An actor's
//! cell has one pool, and takes an image when an entry first runs.
#![tactic(auto)]

mod pool;

pub use pool::{Image, Pool};
