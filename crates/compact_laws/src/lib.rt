//! Runs, crashes and compactions on the same devices: behind each the set folds, and what a run leaves folds to its members. No code
//! stands here.
#![tactic(auto)]

mod laws;

pub use laws::{logs_fold_to_the_members, set_stays, sets_recover_behind_each_step, used_stays};
pub use log_compact::{
    begun_is_set, begun_lists_fold, clearing_keeps, fronts_of_records, fronts_tell, one_fold,
    one_use,
};
