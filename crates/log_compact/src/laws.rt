//! Laws of sets: what a compaction keeps at every moment, in records and on devices.
ghost use Rattle.log_compact.specs.Compacting.{ClearingKeeps, CompactingEnds, CompactingKeeps};
ghost use Rattle.log_compact.specs.OnDevices.{CrashedCompactionFolds, ImagesHoldMoments};
ghost use Rattle.log_compact.specs.Sets.{OneSet};

use gate_log::{append_is_whole, clear_is_safe, logs_are_lists, upgrade_is_safe};
use snap_outside::images_of_settled;
use snap_recover::begun_logs_are_recovered;

/// Devices hold one set at most: one head, with its number of logs and its generation.
pub fn one_set()
    ensures { OneSet }
{}

/// Clearing the logs of the other side, or some of them, leaves the logs in use, and what they hold.
pub fn clearing_keeps()
    ensures { ClearingKeeps }
{}

/// At every moment of compacting, whatever a crash leaves of each device, the logs in use fold to the same states, next numbers
/// and counts.
pub fn compacting_keeps()
    ensures { CompactingKeeps }
{
    begun_logs_are_recovered();
}

/// Once the group is there the set is that of the other side.
pub fn compacting_ends()
    ensures { CompactingEnds }
{}

/// At every moment of the order of operations, whatever a crash leaves of each device: each is left a log of records, and
/// together they hold what the set was, or what it is compacted to.
pub fn images_hold_moments()
    ensures { ImagesHoldMoments }
{
    images_of_settled();
    logs_are_lists();
    clear_is_safe();
    upgrade_is_safe();
    append_is_whole();
}

/// So whatever a crash leaves of the devices folds to what was folded before.
pub fn crashed_compaction_folds()
    ensures { CrashedCompactionFolds }
{
    compacting_keeps();
    images_hold_moments();
}
