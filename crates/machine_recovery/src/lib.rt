//! What logs recover to, of every program: the laws of the machine's records and of recovery for every checked program, every
//! accepted text whose transactions may be asked of it, and every run on logs that earlier runs left. The laws stand over
//! any method code that has some facts (recovery_laws), and the code of a program's texts has them (machine_laws), so here no
//! premise on code is left.
#![tactic(auto)]

mod laws;

pub use compact_laws::{
    begun_is_set, begun_lists_fold, clearing_keeps, fronts_of_records, fronts_tell, one_fold,
    one_use, used_stays,
};
pub use laws::{logs_fold_to_the_members, logs_recover_as_meant, logs_recover_behind_each_run};
