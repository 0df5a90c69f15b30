//! Logs in memory that the rows open, append to and cut off.
use gate_log::{AppendNo, Log, LogItem, OpenNo};
use log_reading::read_items;
use snap_base::{Memory, Sequence};
use snap_outside::MemLog;
use std::alloc::Global;

/// The item of the worked row.
pub const ITEM: [u8; 9] = [4, 0, 0, 0, 0, 0, 0, 0, 1];

/// A new log with this item appended.
pub const WITH_ITEM: [u8; 25] = *b"SNAPLOG2\x01\0\0\0\x0b\0\x09\x04\0\0\0\0\0\0\0\x01\0";

/// What opening a device, or reading its log, answers.
#[derive(Drop)]
pub enum Answer {
    /// The found items.
    Found(Sequence<LogItem>),
    Refused(OpenNo),
}

/// Opens a log over these bytes.
pub fn open_bytes(alloc: Global, bytes: Vec<u8>) -> Result<Answer, Memory> {
    let dev = MemLog::new(alloc, bytes, Vec::new(alloc))?;
    Ok(match Log::open(alloc, dev) {
        Ok(log) => Answer::Found(found_in(log)),
        Err((_dev, no)) => Answer::Refused(no),
    })
}

/// Reads a log over these bytes.
pub fn read_bytes(alloc: Global, bytes: Vec<u8>) -> Result<Answer, Memory> {
    let mut dev = MemLog::new(alloc, bytes, Vec::new(alloc))?;
    Ok(match read_items(alloc, &mut dev) {
        Ok(items) => Answer::Found(Sequence::from_vec(items)),
        Err(no) => Answer::Refused(no),
    })
}

fn found_in(log: Log<MemLog>) -> Sequence<LogItem> {
    let mut log = log;
    let found = log.take_found();
    let _dev = log.into_dev();
    found
}

/// Opens a log over what a crash after so many of the device's operations leaves; none where it got fewer.
pub fn open_image(
    alloc: Global,
    dev: &MemLog,
    ops: usize,
    choice: u8,
) -> Result<Option<Answer>, Memory> {
    if dev.ops().len() < ops {
        return Ok(None);
    }
    let image = dev.image(alloc, ops, choice)?;
    Ok(Some(open_bytes(alloc, image)?))
}

/// Whether opening found just these items, in this order.
pub fn has_items(answer: &Answer, items: &[&[u8]]) -> bool {
    let Answer::Found(found) = answer else {
        return false;
    };
    let found = found.as_slice();
    if found.len() != items.len() {
        return false;
    }
    for (item, bytes) in found.iter().zip(items) {
        if item.bytes.as_slice() != *bytes {
            return false;
        }
    }
    true
}

/// Whether opening was refused so.
pub fn is_refused(answer: &Answer, no: OpenNo) -> bool {
    match answer {
        Answer::Found(_) => false,
        Answer::Refused(given) => *given == no,
    }
}

/// The items as a list.
fn list_of(alloc: Global, items: &[&[u8]]) -> Result<Vec<Sequence<u8>>, Memory> {
    let mut list = Vec::new(alloc);
    for item in items {
        list.push(Sequence::from_vec(Vec::from_slice(alloc, *item)?))?;
    }
    Ok(list)
}

/// Appends the items as one group. What may not be appended answers as want of memory does.
pub fn append(alloc: Global, log: &mut Log<MemLog>, items: &[&[u8]]) -> Result<(), AppendNo> {
    let Ok(list) = list_of(alloc, items) else {
        return Err(AppendNo::Memory);
    };
    if log.format() != 2 || !log.may_append(list.as_slice()) {
        return Err(AppendNo::Memory);
    }
    log.append(alloc, list.as_slice())
}

/// Appends these groups up to the first that is refused, and tells whether none was.
fn append_all(alloc: Global, log: &mut Log<MemLog>, groups: &[&[&[u8]]]) -> bool {
    for group in groups {
        if append(alloc, log, *group).is_err() {
            return false;
        }
    }
    true
}

fn grown_by(alloc: Global, log: Log<MemLog>, groups: &[&[&[u8]]]) -> (MemLog, bool) {
    let mut log = log;
    let is_so = append_all(alloc, &mut log, groups);
    (log.into_dev(), is_so)
}

/// A device of which a call may fail, on which a new log was opened and these groups were appended; and whether all were.
pub fn grown(
    alloc: Global,
    fails: Vec<u64>,
    groups: &[&[&[u8]]],
) -> Result<(MemLog, bool), Memory> {
    let dev = MemLog::new(alloc, Vec::new(alloc), fails)?;
    Ok(match Log::open(alloc, dev) {
        Ok(log) => grown_by(alloc, log, groups),
        Err((dev, _no)) => (dev, false),
    })
}
