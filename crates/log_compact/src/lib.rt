//! A checkpoint in place of old records: of four devices, which hold the logs in use (`specs/Sets.antt`), and what a crash
//! leaves while these are compacted (`specs/Compacting.antt`).
#![tactic(auto)]

mod checkpoints;
mod finding;
mod fold_laws;
mod folding;
mod folds;
mod founds;
mod laws;
mod numbers;
mod refusals;
mod set_laws;
mod sides;
mod strays;
mod stripping;

pub use checkpoints::{Counts, checkpoint_no, counts_before, counts_with};
pub use finding::find;
pub use fold_laws::{
    begun_lists_fold, folds_are_begun, folds_are_of_records, one_fold, one_fold_refusal,
    plain_folds, plain_lists_fold, refused_are_not_folded,
};
pub use folding::fold;
pub use folds::Folded;
pub use founds::{Found, set_of};
pub use laws::{
    clearing_keeps, compacting_ends, compacting_keeps, crashed_compaction_folds,
    images_hold_moments, one_set,
};
pub use refusals::{CheckpointNo, FoldNo};
pub use set_laws::{begun_is_set, fronts_of_records, fronts_tell, one_front, one_use};
pub use sides::clear_side;
