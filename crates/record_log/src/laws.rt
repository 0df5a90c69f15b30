//! Laws of every log of records: its one list, and what opening, refusing and upgrading keep.
ghost use Rattle.record_log.specs.RecordLogLaws.{OneListOfRecords, RecordsAreNotForeign, RecordsAreNotDamaged, NoRecordIsBad, OpenedHeld, OpenedHolds, ItemsAreRecords, RecordLogHolds, OpeningKeepsRecords, RefusalKeepsRecords, UpgradeKeepsRecords, FewMayBeAppended, FewTakeLittle};

use gate_log::{damage_is_no_log, logs_are_lists, one_difference, one_list};
use snap_outside::images_of_settled;
use txn_records::{one_record, records_are_short};

/// Bytes hold one list of records at most.
pub fn one_list_of_records()
    ensures { OneListOfRecords }
{
    one_list();
    one_record();
}

/// Bytes that hold records are neither a foreign file nor a damaged log, and have no item that is no record.
pub fn no_more_records()
    ensures foreign { RecordsAreNotForeign }
    ensures damaged { RecordsAreNotDamaged }
    ensures bad { NoRecordIsBad }
{
    one_difference();
    damage_is_no_log();
    one_list();
    logs_are_lists();
}

/// A device that was opened and whose items are records held them before, and holds them now.
pub fn opened_holds()
    ensures before { OpenedHeld }
    ensures after { OpenedHolds }
{
    logs_are_lists();
}

/// Items are read as records that may be written. A device with a log of records holds just those records.
pub fn records_are_held()
    ensures items { ItemsAreRecords }
    ensures log { RecordLogHolds }
{
    logs_are_lists();
}

/// Opening loses no record, whatever a crash leaves, and leaves no log of format 1 with an item where there was none.
pub fn opening_keeps()
    ensures { OpeningKeepsRecords }
{
    images_of_settled();
    one_list();
}

/// An opening that is refused loses no record either.
pub fn refused_keeps()
    ensures { RefusalKeepsRecords }
{
    images_of_settled();
    one_list();
}

/// An upgrade of a log of format 1 that was opened loses no record, whatever a crash leaves, and leaves no log of format 1 with an item where
/// there was none.
pub fn upgrade_keeps()
    ensures { UpgradeKeepsRecords }
{
    logs_are_lists();
    one_list();
}

/// A few records may be appended to a log that is not near the end of offsets, and it grows by little.
pub fn few_may_be_appended()
    ensures may { FewMayBeAppended }
    ensures little { FewTakeLittle }
{
    records_are_short();
}
