//! The items of a log, from the bytes of its device.
ghost use Rattle.std.specs.Prelude.{◌≡◌, ◌-◌, ◌<◌, ◌≤◌, ℕ, List, Some, length, slice_index, slice_set, IfOk, IfErr, IfSome, MatchResult};
ghost use Rattle.snap_outside.specs.Causes.{Rose};
ghost use Rattle.snap_outside.specs.Disk.{content};
ghost use Rattle.gate_log.specs.Bytes.{IsPlacedLogAt};
ghost use Rattle.gate_log.specs.Opened.{IsNoRead, Refused};
ghost use Rattle.gate_log.specs.Reading.{IsNoLog};
ghost use Rattle.gate_log.specs.declared.limits.TheConstants.{FARTHEST_END, NEW_LOG_SIZE};
ghost use Rattle.log_reading.specs.Read.{IsReadFrom, of_copy};

use gate_log::{Log, LogItem, NEW_LOG_SIZE, OpenNo};
use snap_outside::{LogDev, MemLog};
use std::alloc::Global;

/// The items of the log on the device, with their places. A device that is no longer than a new log has none. It is refused as opening
/// refuses it: `NotALog` and `Damage` tell where the bytes are no log, `Device` that the device failed, and `Memory` that there was no
/// memory. Whatever the answer is, the device holds what it held: it got no call that changes it. It is asked for its length once, and
/// again only where the bytes up to that length end behind an open gate without its group, since another program may append to the log
/// meanwhile: a device that is longer by then is read again, up to the new length, and what is found then counts; the log of one that is
/// not is damaged.
pub fn read_items<D: LogDev>(alloc: Global, dev: &mut D) -> Result<Vec<LogItem>, OpenNo>
    ensures read { IfOk result (λ items. IfSome (D.told dev.old) (λ h. IsReadFrom (content h) items.items)) }
    // The items stand so in the bytes of some log, also where the device tells nothing.
    ensures placed { IfOk result (λ items. (bytes : List ℕ) × (end : ℕ) × IsPlacedLogAt bytes end items.items × (end ≤ FARTHEST_END)) }
    ensures refused { IfErr result (Refused (D.told dev.old) (D.told dev.new)) }
    ensures device { IfErr result (λ no. no ≡ OpenNo.Device → Rose (D.faults dev.old) (D.faults dev.new)) }
    ensures history { D.told dev.new ≡ D.told dev.old }
    ensures later { D.faults dev.old ≤ D.faults dev.new }
{
    let mut len = dev.len()?;
    loop {
        match read_of_length(alloc, dev, len) {
            Err(OpenNo::Damage { offset }) => {
                let now = dev.len()?;
                if now <= len {
                    return Err(OpenNo::Damage { offset });
                }
                len = now;
            }
            answer => return answer,
        }
    }
}

/// The items of the log on the device, whose length this is.
fn read_of_length<D: LogDev>(alloc: Global, dev: &mut D, len: u64) -> Result<Vec<LogItem>, OpenNo>
    requires { D.told_length dev.old ≡ Some len }
    ensures read { IfOk result (λ items. IfSome (D.told dev.old) (λ h. IsReadFrom (content h) items.items)) }
    ensures placed { IfOk result (λ items. (bytes : List ℕ) × (end : ℕ) × IsPlacedLogAt bytes end items.items × (end ≤ FARTHEST_END)) }
    ensures refused { IfErr result (Refused (D.told dev.old) (D.told dev.new)) }
    ensures device { IfErr result (λ no. no ≡ OpenNo.Device → Rose (D.faults dev.old) (D.faults dev.new)) }
    ensures history { D.told dev.new ≡ D.told dev.old }
    ensures same { D.told_length dev.new ≡ D.told_length dev.old }
    ensures later { D.faults dev.old ≤ D.faults dev.new }
{
    if len <= NEW_LOG_SIZE {
        return Ok(Vec::new(alloc));
    }
    let bytes = read_all(alloc, dev, len)?;
    items_in(alloc, bytes)
}

/// All bytes of the device, of which there is some. The last one is read first: it is the gate of a log behind which nothing was left, so
/// a group that is appended while the others are read is left out as a whole.
fn read_all<D: LogDev>(alloc: Global, dev: &mut D, len: u64) -> Result<Vec<u8>, OpenNo>
    requires known { D.told_length dev.old ≡ Some len }
    requires some { 0 < len }
    ensures bytes { IfOk result (λ bytes. IfSome (D.told dev.old) (λ h. bytes.items ≡ content h)) }
    ensures count { IfOk result (λ bytes. length bytes.items ≡ len) }
    ensures history { D.told dev.new ≡ D.told dev.old }
    ensures same { D.told_length dev.new ≡ D.told_length dev.old }
    ensures cause { IfErr result (IsNoRead (D.faults dev.old) (D.faults dev.new)) }
    ensures later { D.faults dev.old ≤ D.faults dev.new }
{
    let last = read_byte(dev, len, len - 1)?;
    let bytes = read_bytes(alloc, dev, len)?;
    Ok(with_last(bytes, last))
}

/// The byte of the device at this place.
fn read_byte<D: LogDev>(dev: &mut D, len: u64, at: u64) -> Result<u8, OpenNo>
    requires known { D.told_length dev.old ≡ Some len }
    requires within { at < len }
    ensures byte { IfOk result (λ byte. IfSome (D.told dev.old) (λ h. byte ≡ slice_index (content h) at)) }
    ensures history { D.told dev.new ≡ D.told dev.old }
    ensures same { D.told_length dev.new ≡ D.told_length dev.old }
    ensures cause { IfErr result (IsNoRead (D.faults dev.old) (D.faults dev.new)) }
    ensures later { D.faults dev.old ≤ D.faults dev.new }
{
    let mut byte = [0u8; 1];
    dev.read_at(at, &mut byte)?;
    Ok(byte[0])
}

/// All bytes of the device, read in their order.
fn read_bytes<D: LogDev>(alloc: Global, dev: &mut D, len: u64) -> Result<Vec<u8>, OpenNo>
    requires { D.told_length dev.old ≡ Some len }
    ensures bytes { IfOk result (λ bytes. IfSome (D.told dev.old) (λ h. bytes.items ≡ content h)) }
    ensures count { IfOk result (λ bytes. length bytes.items ≡ len) }
    ensures history { D.told dev.new ≡ D.told dev.old }
    ensures same { D.told_length dev.new ≡ D.told_length dev.old }
    ensures cause { IfErr result (IsNoRead (D.faults dev.old) (D.faults dev.new)) }
    ensures later { D.faults dev.old ≤ D.faults dev.new }
{
    let mut bytes = vec![in alloc; 0u8; len as usize]?;
    dev.read_at(0, &mut bytes)?;
    Ok(bytes)
}

/// The bytes, with this one in the place of the last.
fn with_last(bytes: Vec<u8>, last: u8) -> Vec<u8>
    requires { 0 < length bytes.items }
    ensures { result.items ≡ slice_set bytes.items (length bytes.items - 1) last }
{
    let mut bytes = bytes;
    let at = bytes.len() - 1;
    bytes[at] = last;
    bytes
}

/// The items of the log that these bytes are. It is opened on a copy in memory, so that what opening writes stays there.
fn items_in(alloc: Global, bytes: Vec<u8>) -> Result<Vec<LogItem>, OpenNo>
    requires { NEW_LOG_SIZE < length bytes.items }
    ensures { MatchResult result
        (λ items. (end : ℕ) × IsPlacedLogAt bytes.items end items.items × (end ≤ FARTHEST_END))
        (λ no. IsNoLog bytes.items no) }
{
    let Ok(copy) = MemLog::new(alloc, bytes, Vec::new(alloc)) else {
        return Err(OpenNo::Memory);
    };
    match Log::open(alloc, copy) {
        Ok(log) => {
            let mut log = log;
            let found = log.take_found();
            let _copy = log.into_dev();
            Ok(found.into_vec())
        }
        Err((_copy, no)) => Err(of_copy(no)),
    }
}

/// Why bytes are no log, where the opening of a copy of them in memory is refused. The copy fails only for want of memory.
fn of_copy(no: OpenNo) -> OpenNo
    ensures { result ≡ of_copy no }
{
    match no {
        OpenNo::NotALog { offset } => OpenNo::NotALog { offset },
        OpenNo::Damage { offset } => OpenNo::Damage { offset },
        OpenNo::Device | OpenNo::Memory => OpenNo::Memory,
    }
}
