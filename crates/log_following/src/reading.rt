//! Reading the logs of all four devices, without a change of them.
ghost use Rattle.std.specs.Prelude.{◌≡◌, vec_len, IfErr, IfOk, MatchResult};
ghost use Rattle.std.specs.List.{AllByRecursion};
ghost use Rattle.log_opening.specs.Devices.{Device, devices_of};
ghost use Rattle.log_opening.specs.Found.{ArePlaced};
ghost use Rattle.log_following.specs.Readings.{AreAllRead, AreUntouched, IsToldOfLog, IsNoItems, IsReadOn, IsLeftAsItWas};

use gate_log::LogItem;
use log_opening::{LogsNo, of_opening};
use log_reading::read_items;
use snap_base::Sequence;
use snap_outside::LogDev;
use std::alloc::Global;

/// The items of the logs on these devices, one list for each, from device 0 on. The log of the first that is refused is named. Each device
/// holds what it held.
pub(crate) fn read_all<D: LogDev>(
    alloc: Global,
    devices: &mut Vec<D>,
) -> Result<Sequence<Sequence<LogItem>>, LogsNo>
    requires { vec_len devices.old ≡ 4 }
    ensures read { IfOk result (λ found. AreAllRead (devices_of D.told D.faults devices.old.items) found) }
    ensures placed { IfOk result (λ found. AllByRecursion ArePlaced found) }
    ensures refused { IfErr result (λ no. IsNoItems (devices_of D.told D.faults devices.old.items) (devices_of D.told D.faults devices.new.items) no) }
    ensures untouched { AreUntouched (devices_of D.told D.faults devices.old.items) (devices_of D.told D.faults devices.new.items) }
    ensures four { vec_len devices.new ≡ 4 }
{
    let mut found = Sequence::new(alloc);
    for log in 0..devices.len() {
        match read_one(alloc, &mut devices[log], log as u8) {
            Ok(items) => {
                if found.push(items).is_err() {
                    return Err(LogsNo::Memory);
                }
            }
            Err(no) => return Err(no),
        }
    }
    Ok(found)
}

/// The items of the log on this device, which has this number.
fn read_one<D: LogDev>(alloc: Global, dev: &mut D, log: u8) -> Result<Sequence<LogItem>, LogsNo>
    ensures read { let old : Device = record { told = D.told dev.old; faults = D.faults dev.old } in
        MatchResult result
        (λ items. IsReadOn old items × ArePlaced items)
        (λ no. IsToldOfLog log old (record { told = D.told dev.new; faults = D.faults dev.new }) no) }
    ensures untouched { let old : Device = record { told = D.told dev.old; faults = D.faults dev.old } in IsLeftAsItWas old (record { told = D.told dev.new; faults = D.faults dev.new }) }
{
    match read_items(alloc, dev) {
        Ok(items) => Ok(Sequence::from_vec(items)),
        Err(no) => Err(of_opening(no, log)),
    }
}
