//! Laws of a log that grows by groups of records: how its history grows, and what a crash leaves.
ghost use Rattle.record_log.specs.GrowthLaws.{OpeningGrows, GroupGrows, FaultGrows, EndGrows, GrowthGives, MomentKeeps, MomentIsRecent, GrowthKeeps};

use gate_log::{
    append_is_whole, beginning_is_safe, logs_are_lists, one_list, opening_is_safe, upgrade_is_safe,
};
use snap_outside::images_of_settled;

/// A history grows by opening's operations, and an upgrade's where the log is of format 1; by those of one append after the
/// other; and at last by a front of those of one that met a fault.
pub fn history_grows()
    ensures opening { OpeningGrows }
    ensures group { GroupGrows }
    ensures fault { FaultGrows }
    ensures end { EndGrows }
{
    opening_is_safe();
}

/// A log whose history grew by an opening and whole appends holds the earlier records and those of the groups. A crash
/// at any moment of a history that grew by appends leaves whole groups, and behind the opening no log of format 1.
pub fn groups_are_whole()
    ensures gives { GrowthGives }
    ensures moment { MomentKeeps }
    ensures recent { MomentIsRecent }
    ensures keeps { GrowthKeeps }
{
    beginning_is_safe();
    append_is_whole();
    logs_are_lists();
    one_list();
    upgrade_is_safe();
    images_of_settled();
}
