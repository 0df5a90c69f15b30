//! What the logs of earlier runs give a new one: the actors' states, what is committed, and the next numbers.
//! A batch or an undeclared transaction is in where its commit is, and a record of one that is not in changes no
//! state. What that is stands in `specs/Opening.antt`, and why logs are refused in `specs/Refusals.antt`.
#![tactic(auto)]

mod causes;
mod commits;
mod genesis;
mod index;
mod infos;
mod keeping;
mod kinds;
mod laws;
mod numbers;
mod openings;
mod ordered;
mod ranges;
mod recovery;
mod refusals;
mod states;
mod values;
mod wholes;

pub use causes::{LogCause, What};
pub use genesis::first_genesis;
pub use laws::{
    begun_is_recovered, begun_logs_are_recovered, one_opening, one_refusal, recovered_states,
    refused_is_not_recovered,
};
pub use openings::{Kept, Opening, fresh};
pub use ranges::GREATEST_NUMBER;
pub use recovery::{committed, first_states, recover, replayed};
pub use refusals::RecoverNo;
