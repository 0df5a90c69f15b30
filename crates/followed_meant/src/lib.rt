//! What a follower of the logs of runs tells, of every program: the members of its rounds, one after the other in the order of
//! their places as the language means each, give the results that they had and leave the states that the follower has. The laws of
//! followed_logs stand over any method code that has some facts, and the code of a program's texts has them (machine_laws), so
//! here no premise on code is left. No code stands here.
#![tactic(auto)]

mod laws;

pub use laws::{followers_tell_meant_states, sets_are_as_meant};
