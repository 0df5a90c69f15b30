//! The plain executor: one transaction alone, and a list of transactions one after the other, exactly
//! as `aml_check` says what they mean. A transaction runs slice after slice (`aml_slice`), each on the
//! state of the one actor where it stands, as a host does that has nothing else to run; of the world
//! only the states that it comes upon are kept, for its failure to put back.
#![tactic(auto)]

mod images;
mod runs;

pub use runs::{run_alone, run_list};
