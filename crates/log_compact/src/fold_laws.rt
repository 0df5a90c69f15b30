//! Laws of folds.
ghost use Rattle.log_compact.specs.Folds.{BegunListsFold, FoldsAreBegun, FoldsAreOfRecords, OneFoldRefusal, PlainListsFold, RefusedAreNotFolded};
ghost use Rattle.log_compact.specs.Sets.{OneFold, PlainFolds};

use snap_recover::{
    begun_logs_are_recovered, one_opening, one_refusal, recovered_states, refused_is_not_recovered,
};

/// Logs fold to one thing at most.
pub fn one_fold()
    ensures { OneFold }
{
    one_opening();
}

/// Logs are refused with one answer at most, want of memory aside.
pub fn one_fold_refusal()
    ensures { OneFoldRefusal }
{
    one_refusal();
}

/// Logs that are refused fold to nothing, want of memory aside.
pub fn refused_are_not_folded()
    ensures { RefusedAreNotFolded }
{
    refused_is_not_recovered();
}

/// What logs of records fold to are states, one for each actor, and no more than Genesis may tell.
pub fn folds_are_of_records()
    ensures { FoldsAreOfRecords }
{
    recovered_states();
}

/// Logs that fold have one Genesis, which tells how many there are; and the next numbers are at least 1.
pub fn folds_are_begun()
    ensures { FoldsAreBegun }
{}

/// Logs without a checkpoint fold to what they recover to, with generation 0.
pub fn plain_folds()
    ensures { PlainFolds }
{}

/// Logs without a checkpoint fold where they recover.
pub fn plain_lists_fold()
    ensures { PlainListsFold }
{}

/// Logs of which log 0 holds Genesis alone, and the others no record, fold to what the first run begins with.
pub fn begun_lists_fold()
    ensures { BegunListsFold }
{
    begun_logs_are_recovered();
}
