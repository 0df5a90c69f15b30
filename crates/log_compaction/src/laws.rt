//! Laws of the checkpoint that is written, and of crashes while it is.
ghost use Rattle.log_compaction.specs.Fits.{CompactionFits};
ghost use Rattle.log_compaction.specs.Steps.{GuardedIsSafe};

use gate_log::{
    append_is_whole, beginning_is_safe, clear_is_safe, logs_are_lists, one_list, opening_is_safe,
    upgrade_is_safe,
};
use log_compact::{
    crashed_compaction_folds, folds_are_begun, folds_are_of_records, fronts_of_records,
    fronts_tell, one_fold, one_use,
};
use record_log::{few_may_be_appended, one_list_of_records};
use snap_outside::images_of_settled;

/// What logs of records fold to, of which no number is spent, may be written as a checkpoint.
pub fn compaction_fits()
    ensures { CompactionFits }
{
    folds_are_of_records();
    folds_are_begun();
    few_may_be_appended();
}

/// Where the logs in use were not refused, or no device got another call than those of opening, these fold after each crash to what they
/// folded to, and none of them is of format 1 with an item, where none was.
pub(crate) fn guarded_is_safe()
    ensures { GuardedIsSafe }
{
    compaction_fits();
    crashed_compaction_folds();
    fronts_of_records();
    fronts_tell();
    images_of_settled();
    logs_are_lists();
    one_fold();
    one_list();
    one_list_of_records();
    one_use();
    opening_is_safe();
    beginning_is_safe();
    clear_is_safe();
    upgrade_is_safe();
    append_is_whole();
}
