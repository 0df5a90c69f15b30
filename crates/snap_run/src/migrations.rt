//! The command that makes those logs in use that are of format 1 ones of format 2.
ghost use Rattle.std.specs.Prelude.{◌≡◌, ◌≢◌, vec_len};
ghost use Rattle.std.specs.List.{AllZip};
ghost use Rattle.log_following.specs.log_opening.Devices.{Device, devices_of};
ghost use Rattle.record_log.specs.Records.{KeepsRecords};
ghost use Rattle.run_work.specs.Writings.{writing_of};
ghost use Rattle.snap_outside.specs.Causes.{EndsAtFault};
ghost use Rattle.snap_run.specs.Migrations.{IsMigrateAnswer};

use log_migration::migrate;
use run_work::{status_of, write_all};
use snap_outside::{LogDev, Sink};
use snap_report::Status;
use std::alloc::Global;

/// Makes those logs in use on these devices that are of format 1 ones of format 2, and prints how many there were.
pub(crate) fn print_migrated<D: LogDev, O: Sink>(
    alloc: Global,
    devices: &mut Vec<D>,
    out: &mut O,
) -> Status
    requires { vec_len devices.old ≡ 4 }
    ensures answer { IsMigrateAnswer (devices_of D.told D.faults devices.old.items) (devices_of D.told D.faults devices.new.items) (writing_of O.Sink out.old out.new) result }
    ensures once { EndsAtFault (result ≢ Status.OutFault) (O.faults out.old) (O.late out.old) (O.faults out.new) (O.late out.new) }
    ensures four { vec_len devices.new ≡ 4 }
    ensures safe { AllZip (λ (a b : Device). KeepsRecords a.told b.told) (devices_of D.told D.faults devices.old.items) (devices_of D.told D.faults devices.new.items) }
{
    let line = match migrate(alloc, devices) {
        Ok(line) => line,
        Err(no) => return status_of(no),
    };
    if write_all(out, line.as_bytes()).is_err() {
        return Status::OutFault;
    }
    Status::Done
}
