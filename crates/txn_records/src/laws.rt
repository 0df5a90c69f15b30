//! Laws of every record: one spelling, few bytes, and room for every state and value.
ghost use Rattle.std.specs.Prelude.{FitsSigned};
ghost use Rattle.std.specs.List.{AllByRecursion};
ghost use Rattle.std.specs.Int.{w64};
ghost use Rattle.txn_records.specs.RecordLaws.{OneRecord, RecordsAreShort};
ghost use Rattle.txn_records.specs.Records.{IsState};

use snap_base::State;

/// Bytes are those of one record at most.
pub fn one_record()
    ensures { OneRecord }
{}

/// A record has some bytes, and at most `LONGEST_RECORD`.
pub fn records_are_short()
    ensures { RecordsAreShort }
{}

/// Every state may stand in a record. What bounds its numbers is their type, so the body reads them.
pub fn states_fit(state: &State)
    ensures { IsState state.now }
{
    for field in &state.0 {
        let _field = *field;
    }
}

/// Every list of values may stand in a record. What bounds the values is their type, so the body reads them.
pub fn values_fit(values: &[i64])
    ensures { AllByRecursion (FitsSigned w64) values.now }
{
    for value in values {
        let _value = *value;
    }
}
