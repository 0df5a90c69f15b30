//! The command that follows the logs.
ghost use Rattle.std.specs.Prelude.{◌≡◌, ◌≢◌, ◌≤◌, length, vec_len, IfOk, string_bytes};
ghost use Rattle.log_following.specs.Readings.{AreUntouched};
ghost use Rattle.log_following.specs.log_opening.Devices.{devices_of};
ghost use Rattle.run_work.specs.Writings.{writing_of};
ghost use Rattle.snap_outside.specs.Causes.{EndsAtFault};
ghost use Rattle.snap_run.specs.Followings.{IsFollowAnswer, following_report};

use crate::recoveries::push_actors;
use log_following::{Followed, follow};
use run_work::{Memory, status_of, write_all};
use snap_outside::{LogDev, Sink};
use snap_report::{Status, following_line};
use std::alloc::Global;

/// Reads the logs on these devices so many times, at least once, and prints what a follower of those in use has then.
pub(crate) fn print_followed<D: LogDev, O: Sink>(
    alloc: Global,
    rounds: u16,
    devices: &mut Vec<D>,
    out: &mut O,
) -> Status
    requires four { vec_len devices.old ≡ 4 }
    requires some { 1 ≤ rounds }
    ensures answer { IsFollowAnswer rounds (devices_of D.told D.faults devices.old.items) (devices_of D.told D.faults devices.new.items) (writing_of O.Sink out.old out.new) result }
    ensures once { EndsAtFault (result ≢ Status.OutFault) (O.faults out.old) (O.late out.old) (O.faults out.new) (O.late out.new) }
    ensures four { vec_len devices.new ≡ 4 }
    ensures untouched { AreUntouched (devices_of D.told D.faults devices.old.items) (devices_of D.told D.faults devices.new.items) }
{
    let followed = match follow(alloc, devices, rounds) {
        Ok(followed) => followed,
        Err(no) => return status_of(no),
    };
    let Ok(report) = report_of(alloc, &followed) else {
        return Status::Memory;
    };
    if write_all(out, report.as_bytes()).is_err() {
        return Status::OutFault;
    }
    Status::Done
}

/// The lines of the actors, and the last line.
fn report_of(alloc: Global, followed: &Followed) -> Result<String, Memory>
    requires { length followed.now.states ≤ 256 }
    ensures { IfOk result (λ s. string_bytes s ≡ following_report followed.now) }
{
    let mut text = String::new(alloc);
    push_actors(alloc, &mut text, followed.states.as_slice())?;
    let line = following_line(alloc, followed.batches, followed.acts)?;
    text.push_str(line.as_str())?;
    Ok(text)
}
