//! Appending records to a log, as one group.
ghost use Rattle.std.specs.Prelude.{◌≡◌, ◌≢◌, ◌+◌, ◌≤◌, ◌⊎◌, [], length, true, false, IsOk, IsErr, OnOk, IsErrOf, IfOk, MatchResult};
ghost use Rattle.std.specs.List.{AllByRecursion};
ghost use Rattle.snap_outside.specs.Causes.{Rose};
ghost use Rattle.snap_outside.specs.Disk.{AddsAll};
ghost use Rattle.gate_log.specs.Appends.{append_ops, end_behind, AddsRefused};
ghost use Rattle.gate_log.specs.Bytes.{items_bytes};
ghost use Rattle.gate_log.specs.Device.{MayAppend};
ghost use Rattle.gate_log.specs.State.{IsUntouched};
ghost use Rattle.txn_records.specs.Records.{IsRecord};
ghost use Rattle.record_log.specs.Records.{spelled, AppendsRecords, CrashesRecords};

use gate_log::{AppendNo, Log, logs_are_lists};
use snap_base::{Memory, Sequence};
use snap_outside::{LogDev, images_of_settled};
use std::alloc::Global;
use txn_records::{Record, encode};

/// Appends the records as one group, which is durable then. Nothing is written for an empty list. `Memory` and `Shut`
/// leave the log and its device as they were; `Device` shuts the log, and a crash leaves the records with the group or
/// without it.
#[tactic(auto, using(crate::proofs::Appending::appends_at, crate::proofs::Appending::crashes_at))]
pub fn append_records<D: LogDev>(
    alloc: Global,
    log: &mut Log<D>,
    records: &[Record],
) -> Result<(), AppendNo>
    requires records { AllByRecursion IsRecord records.now }
    requires may { MayAppend log.old.end (spelled records.now) }
    requires format { log.old.format ≡ 2 }

    ensures appended { OnOk result (AppendsRecords log.old.told log.new.told log.old.end log.new.end records.now) }
    ensures crashes { CrashesRecords log.old.told log.new.told log.old.end records.now }

    // The device's history grew by the operations of the append, in order, up to the fault that ended them.
    ensures ops { MatchResult result
        (λ _. AddsAll log.old.told log.new.told (append_ops log.old.end (spelled records.now)))
        (AddsRefused log.old.told log.new.told (append_ops log.old.end (spelled records.now))) }

    ensures end { OnOk result (log.new.end ≡ end_behind log.old.end (spelled records.now)) }
    ensures grown { records.now ≢ [] → OnOk result (log.new.end ≡ log.old.end + 5 + length (items_bytes (spelled records.now))) }
    ensures empty { records.now ≡ [] → IsUntouched log.old log.new × (log.old.shut ≡ false → IsOk result) }
    ensures end_kept { IsErr result → log.new.end ≡ log.old.end }
    ensures open { OnOk result (log.new.shut ≡ false) }

    ensures device { IsErrOf result AppendNo.Device → (log.new.shut ≡ true) × Rose log.old.faults log.new.faults }
    ensures shut { IsErrOf result AppendNo.Shut → (log.old.shut ≡ true) × IsUntouched log.old log.new }
    ensures memory { IsErrOf result AppendNo.Memory → IsUntouched log.old log.new }

    // A log that is shut takes no record.
    ensures closed { log.old.shut ≡ true → IsErrOf result AppendNo.Shut ⊎ IsErrOf result AppendNo.Memory }

    ensures faults { log.old.faults ≤ log.new.faults }
    ensures found { log.new.found ≡ log.old.found }
    ensures format { log.new.format ≡ log.old.format }
{
    logs_are_lists();
    images_of_settled();
    let Ok(items) = items_of(alloc, records) else {
        return Err(AppendNo::Memory);
    };
    log.append(alloc, items.as_slice())
}

/// The items that records are, in order. An empty list takes no memory.
fn items_of(alloc: Global, records: &[Record]) -> Result<Sequence<Sequence<u8>>, Memory>
    requires { AllByRecursion IsRecord records.now }
    ensures items { IfOk result (λ items. items ≡ spelled records.now) }
    ensures some { IsErr result → records.now ≢ [] }
{
    let mut items = Sequence::new(alloc);
    for record in records {
        items.push(Sequence::from_vec(encode(alloc, record)?))?;
    }
    Ok(items)
}
