//! The two phases of ACTs: how each ended, what is prepared and vouched on its actors, and which are decided and sealed.
//!
//! A value is the votes on the ACTs that ended, in the order in which they did, and the number of the next commit. An
//! ACT is found by its tid in constant time, however many are over. The core notes here what its events End, Prepare,
//! Vouch, Decide and Seal say of an ACT, and asks what their conditions need.
#![tactic(auto)]

mod acts;
mod seats;
mod sorted;
mod stages;
mod vote;
mod votes;

pub use acts::Acts;
