//! Opening a device as a log: a short one is made a new log, and a longer one is read.
ghost use Rattle.std.specs.Prelude.{◌≡◌, ◌⊎◌, ℕ, ◌<◌, ◌≤◌, ◌^◌, List, [], ◌∷◌, length, Some, IsSome, IfSome, IfOk, IfErr, OnOk, MatchResult, false};
ghost use Rattle.std.specs.Option.{ForSome};
ghost use Rattle.snap_outside.specs.Causes.{Rose, HasCause};
ghost use Rattle.snap_outside.specs.Disk.{content, AddsAll, MayAdd};
ghost use Rattle.snap_outside.specs.declared.devices.DevOp.TheVariants as operation;
ghost use Rattle.gate_log.specs.Bytes.{DiffersAt, IsLogAt, IsDamagedAt, IsPlacedLogAt};
ghost use Rattle.gate_log.specs.Device.{DeviceLog, HasFormat, IsReadyDevice};
ghost use Rattle.gate_log.specs.declared.limits.TheConstants.{NEW_LOG_SIZE};
ghost use Rattle.gate_log.specs.Opened.{bytes_of, new_log, HasOpenedFormat, Opened, Refused, MadeSafely, RefusedLong, IsNoRead};

use crate::limits::{FARTHEST_END, NEW_LOG_SIZE};
use crate::reads::{format_at, read_log};
use crate::{Log, LogItem};
use snap_base::{Memory, Sequence};
use snap_outside::{Failed, LogDev};
use std::alloc::{AllocError, Global};
use std::mem;

const NEW_LOG: [u8; NEW_LOG_SIZE as usize] = *b"SNAPLOG2\0";

/// Why a log was not opened. No error but `Device` comes after a write or a sync.
#[derive(Clone, Copy, Debug, PartialEq, Eq)]
pub enum OpenNo {
    /// The device holds more bytes than a new log, and they do not begin as each log does: the first byte that differs.
    NotALog { offset: u64 },
    /// Behind the open gate at the offset there is no whole group with a gate behind it.
    Damage { offset: u64 },
    /// The device failed.
    Device,
    /// There was no memory.
    Memory,
}

impl From<Memory> for OpenNo {
    ghost use Rattle.std.specs.Prelude.{◌≡◌};
    ghost use Rattle.gate_log.specs.declared.opens.OpenNo.TheVariants as no;

    ghost from_gives = { λ _ e. e ≡ no.Memory };

    fn from(_error: Memory) -> OpenNo {
        OpenNo::Memory
    }
}

impl From<Failed> for OpenNo {
    ghost use Rattle.std.specs.Prelude.{◌≡◌};
    ghost use Rattle.gate_log.specs.declared.opens.OpenNo.TheVariants as no;

    ghost from_gives = { λ _ e. e ≡ no.Device };

    fn from(_error: Failed) -> OpenNo {
        OpenNo::Device
    }
}

impl From<AllocError> for OpenNo {
    ghost use Rattle.std.specs.Prelude.{◌≡◌};
    ghost use Rattle.gate_log.specs.declared.opens.OpenNo.TheVariants as no;

    ghost from_gives = { λ _ e. e ≡ no.Memory };

    fn from(_error: AllocError) -> OpenNo {
        OpenNo::Memory
    }
}

impl<D: LogDev> Log<D> {
    /// The log on a device. A device that is no longer than a new log is made one, of format 2, in which no item is found; a
    /// longer one is read, and its items are found with their places. Then the device is durable.
    pub fn open(alloc: Global, dev: D) -> Result<Log<D>, (D, OpenNo)>
        ensures opened { IfOk result (λ log. Opened (D.told dev) log.told log.end log.found) }
        ensures log { IfOk result (λ log. IfSome log.told (λ h. DeviceLog h log.end (bytes_of log.found))) }
        // The items found stand so in the bytes that were read, or made, also where the device tells nothing.
        ensures placed { IfOk result (λ log. (bytes : List ℕ) × IsPlacedLogAt bytes log.end log.found) }
        ensures open { IfOk result (λ log. log.shut ≡ false) }
        ensures format { IfOk result (λ log. HasFormat log.told log.format) }
        // Its format is 1 or 2, and a device that was made a log has format 2.
        ensures formats { IfOk result (λ log. HasOpenedFormat (D.told dev) log.format) }
        ensures crashes { MatchResult result (λ log. MadeSafely (D.told dev) log.told) (λ no. MadeSafely (D.told dev) (D.told no.0)) }
        ensures end { IfOk result (λ log. log.end ≤ FARTHEST_END) }
        ensures refused { IfErr result (λ no. Refused (D.told dev) (D.told no.0) no.1) }
        ensures device { IfErr result (λ no. no.1 ≡ OpenNo.Device → Rose (D.faults dev) (D.faults no.0)) }
        ensures later { MatchResult result (λ log. D.faults dev ≤ log.faults) (λ no. D.faults dev ≤ D.faults no.0) }
    {
        let mut dev = dev;
        match find_log(alloc, &mut dev) {
            Ok((end, found, format)) => Ok(Log {
                alloc,
                dev,
                end,
                format,
                shut: false,
                found,
            }),
            Err(no) => Err((dev, no)),
        }
    }

    /// The items that were found at opening, the first time; none from then on.
    pub fn take_found(&mut self) -> Sequence<LogItem>
        ensures items { result ≡ self.old.found }
        ensures others { self.new ≡ record self.old { found = [] } }
    {
        mem::replace(&mut self.found, Sequence::new(self.alloc))
    }
}

/// Finds the log on the device, or makes it one.
fn find_log<D: LogDev>(alloc: Global, dev: &mut D) -> Result<(u64, Sequence<LogItem>, u8), OpenNo>
    ensures opened { IfOk result (λ log. Opened (D.told dev.old) (D.told dev.new) log.0 log.1) }
    ensures log { IfOk result (λ log. IfSome (D.told dev.new) (λ h. DeviceLog h log.0 (bytes_of log.1))) }
    ensures placed { IfOk result (λ log. (bytes : List ℕ) × IsPlacedLogAt bytes log.0 log.1) }
    ensures ready { IfOk result (λ log. IsReadyDevice (D.told dev.new) (D.told_length dev.new) log.0 log.2) }
    ensures formats { IfOk result (λ log. HasOpenedFormat (D.told dev.old) log.2) }
    ensures end { IfOk result (λ log. log.0 ≤ FARTHEST_END) }
    ensures refused { IfErr result (Refused (D.told dev.old) (D.told dev.new)) }
    ensures device { IfErr result (λ no. no ≡ OpenNo.Device → Rose (D.faults dev.old) (D.faults dev.new)) }
    ensures later { D.faults dev.old ≤ D.faults dev.new }
{
    let len = dev.len()?;
    if len <= NEW_LOG_SIZE {
        make_log(dev)?;
        return Ok((8, Sequence::new(alloc), 2));
    }
    read_device(alloc, dev, len)
}

/// Makes a short device a new log.
fn make_log<D: LogDev>(dev: &mut D) -> Result<(), Failed>
    requires { IsSome (D.told_length dev.old) }
    ensures told { MatchResult result
        (λ _. AddsAll (D.told dev.old) (D.told dev.new) (operation.Write 0 new_log ∷ operation.Sync ∷ []))
        (λ _. MayAdd (D.told dev.old) (D.told dev.new) (operation.Write 0 new_log)) }
    ensures known { OnOk result (IsSome (D.told_length dev.new)) }
    ensures within { OnOk result (ForSome (D.told_length dev.new) (λ len. 8 < len)) }
    ensures cause { HasCause (D.faults dev.old) (D.faults dev.new) result }
{
    dev.write_at(0, &NEW_LOG)?;
    dev.sync()
}

/// The log that a longer device holds, which is then durable.
fn read_device<D: LogDev>(
    alloc: Global,
    dev: &mut D,
    len: u64,
) -> Result<(u64, Sequence<LogItem>, u8), OpenNo>
    requires known { D.told_length dev.old ≡ Some len }
    requires long { NEW_LOG_SIZE < len }
    ensures read { IfOk result (λ log. IfSome (D.told dev.old) (λ h. IsPlacedLogAt (content h) log.0 log.1)) }
    ensures placed { IfOk result (λ log. (bytes : List ℕ) × IsPlacedLogAt bytes log.0 log.1) }
    ensures within { IfOk result (λ log. (log.0 < len) × (log.0 < FARTHEST_END)) }
    ensures format { IfOk result (λ log. HasFormat (D.told dev.old) log.2) }
    ensures formats { IfOk result (λ log. (log.2 ≡ 1) ⊎ (log.2 ≡ 2)) }
    ensures synced { OnOk result (AddsAll (D.told dev.old) (D.told dev.new) (operation.Sync ∷ [])) }
    ensures refused { IfErr result (RefusedLong (D.told dev.old) (D.told dev.new)) }
    ensures same { D.told_length dev.new ≡ D.told_length dev.old }
    ensures device { IfErr result (λ no. no ≡ OpenNo.Device → Rose (D.faults dev.old) (D.faults dev.new)) }
    ensures later { D.faults dev.old ≤ D.faults dev.new }
{
    let bytes = read_all(alloc, dev, len)?;
    let (end, found) = read_log(alloc, &bytes)?;
    let format = format_at(&bytes);
    dev.sync()?;
    Ok((end, found, format))
}

/// All bytes of the device.
fn read_all<D: LogDev>(alloc: Global, dev: &mut D, len: u64) -> Result<Vec<u8>, OpenNo>
    requires { D.told_length dev.old ≡ Some len }
    ensures bytes { IfOk result (λ bytes. IfSome (D.told dev.old) (λ h. bytes.items ≡ content h)) }
    ensures count { IfOk result (λ bytes. length bytes.items ≡ len) }
    ensures history { D.told dev.new ≡ D.told dev.old }
    ensures same { D.told_length dev.new ≡ D.told_length dev.old }
    ensures cause { IfErr result (IsNoRead (D.faults dev.old) (D.faults dev.new)) }
    ensures later { D.faults dev.old ≤ D.faults dev.new }
{
    let mut bytes = vec![in alloc; 0u8; len as usize]?;
    dev.read_at(0, &mut bytes)?;
    Ok(bytes)
}
