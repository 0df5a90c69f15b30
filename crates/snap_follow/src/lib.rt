//! A follower of logs that grow: it reads them in rounds, and takes a commit once the round before has read it, with all that stand ahead
//! of it: those that changed an actor before it came there. Whom it takes, and which states these leave, stands in `specs/Followed.antt`;
//! what a round is in `specs/Rounds.antt`, and why it is refused in `specs/Refusals.antt`.
#![tactic(auto)]

mod changing;
mod choosing;
mod commits;
mod comparing;
mod copies;
mod follower;
mod laws;
mod ordering;
mod plain;
mod reading;
mod refusals;
mod rounds;
mod settling;

pub use follower::Follower;
pub use laws::{
    one_round, one_round_refusal, one_taking, refused_are_no_rounds, refused_for_memory_alone,
    some_taking, two_rounds_recover, two_rounds_take_all,
};
pub use refusals::FollowNo;
