//! The command that writes a checkpoint in place of old records.
ghost use Rattle.std.specs.Prelude.{◌≡◌, ◌≢◌, vec_len};
ghost use Rattle.log_compaction.specs.Crashes.{CompactsSafely};
ghost use Rattle.log_following.specs.log_opening.Devices.{devices_of};
ghost use Rattle.run_work.specs.Writings.{writing_of};
ghost use Rattle.snap_outside.specs.Causes.{EndsAtFault};
ghost use Rattle.snap_run.specs.Compactions.{IsCompactAnswer};

use log_compaction::{CompactNo, compact};
use run_work::{status_of, write_all};
use snap_outside::{LogDev, Sink};
use snap_report::Status;
use std::alloc::Global;

/// Writes a checkpoint in place of the records that the logs in use on these devices hold, and prints its generation.
pub(crate) fn print_compacted<D: LogDev, O: Sink>(
    alloc: Global,
    devices: &mut Vec<D>,
    out: &mut O,
) -> Status
    requires { vec_len devices.old ≡ 4 }
    ensures answer { IsCompactAnswer (devices_of D.told D.faults devices.old.items) (devices_of D.told D.faults devices.new.items) (writing_of O.Sink out.old out.new) result }
    ensures once { EndsAtFault (result ≢ Status.OutFault) (O.faults out.old) (O.late out.old) (O.faults out.new) (O.late out.new) }
    ensures four { vec_len devices.new ≡ 4 }
    ensures safe { CompactsSafely (devices_of D.told D.faults devices.old.items) (devices_of D.told D.faults devices.new.items) }
{
    let line = match compact(alloc, devices) {
        Ok(line) => line,
        Err(CompactNo::Logs(no)) => return status_of(no),
        Err(CompactNo::TooMany { logs }) => return Status::Compact { logs },
    };
    if write_all(out, line.as_bytes()).is_err() {
        return Status::OutFault;
    }
    Status::Done
}
