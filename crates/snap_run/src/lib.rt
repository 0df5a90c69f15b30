//! The top call: from the words of the command line and the input's bytes to the output's and the trace's bytes and the logs.
#![tactic(auto)]

mod audits;
mod compactions;
mod crews;
mod endings;
mod followings;
mod migrations;
mod recoveries;
mod solo;
mod top;
mod works;

pub use endings::Outcome;
pub use log_migration::fronts_of_records;
pub use solo::run_solo;
pub use top::run;
