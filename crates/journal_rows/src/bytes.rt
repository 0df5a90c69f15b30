//! Logs as bytes: what opening finds in each row, and what it refuses.
use crate::logs::{
    Answer, ITEM, WITH_ITEM, append, grown, has_items, is_refused, open_bytes, open_image,
    read_bytes,
};
use gate_log::{Log, OpenNo};
use snap_base::Memory;
use snap_outside::MemLog;
use std::alloc::Global;

/// Whether a crash after so many operations leaves a log of these items.
fn leaves(
    alloc: Global,
    dev: &MemLog,
    ops: usize,
    choice: u8,
    items: &[&[u8]],
) -> Result<bool, Memory> {
    match open_image(alloc, dev, ops, choice)? {
        Some(opened) => Ok(has_items(&opened, items)),
        None => Ok(false),
    }
}

/// The gate is the one byte that is not fixed after the fifth operation.
fn hangs_on_its_gate(alloc: Global, dev: &MemLog) -> Result<bool, Memory> {
    Ok(leaves(alloc, dev, 5, 0x01, &[&ITEM])? && leaves(alloc, dev, 5, 0x7f, &[])?)
}

/// A new log and its first group are these bytes.
pub fn first_group_is_written(alloc: Global) -> Result<bool, Memory> {
    let (dev, is_grown) = grown(alloc, Vec::new(alloc), &[&[&ITEM]])?;
    let is_so = is_grown && dev.ops().len() == 6 && dev.bytes() == WITH_ITEM.as_slice();
    Ok(is_so && hangs_on_its_gate(alloc, &dev)?)
}

/// Bytes, and the refusal that opening and reading them gives; or, where there is none, the items that each finds.
const OPENED: [(&'static [u8], Option<OpenNo>, &[&[u8]]); 17] = [
    (&WITH_ITEM, None, &[&ITEM]),
    // cut off, empty, as long as a new log, and a foreign file
    (
        b"SNAPLOG1\x01\0\0\0\x0b\0\x09\x04\0\0\0\0",
        Some(OpenNo::Damage { offset: 8 }),
        &[],
    ),
    (b"", None, &[]),
    (b"anything!", None, &[]),
    (b"SNAPLOX1\0\0", Some(OpenNo::NotALog { offset: 6 }), &[]),
    // the eighth byte tells a format and is never wrong
    (b"SNAPLOG3\0\0", None, &[]),
    // a log of format 1
    (
        b"SNAPLOG1\x01\0\0\0\x0b\0\x09\x04\0\0\0\0\0\0\0\x01\0",
        None,
        &[&ITEM],
    ),
    // one byte changed: the first, the block's length, the item's length, and the gate behind the block
    (
        b"TNAPLOG2\x01\0\0\0\x0b\0\x09\x04\0\0\0\0\0\0\0\x01\0",
        Some(OpenNo::NotALog { offset: 0 }),
        &[],
    ),
    (
        b"\0NAPLOG2\x01\0\0\0\x0b\0\x09\x04\0\0\0\0\0\0\0\x01\0",
        Some(OpenNo::NotALog { offset: 0 }),
        &[],
    ),
    (
        b"SNAPLOG2\x01\xff\0\0\x0b\0\x09\x04\0\0\0\0\0\0\0\x01\0",
        Some(OpenNo::Damage { offset: 8 }),
        &[],
    ),
    (
        b"SNAPLOG1\x01\0\0\0\x0a\0\x09\x04\0\0\0\0\0\0\0\x01\0",
        Some(OpenNo::Damage { offset: 8 }),
        &[],
    ),
    (
        b"SNAPLOG1\x01\0\0\0\x0c\0\x09\x04\0\0\0\0\0\0\0\x01\0",
        Some(OpenNo::Damage { offset: 8 }),
        &[],
    ),
    (
        b"SNAPLOG2\x01\0\0\0\x0b\0\0\x04\0\0\0\0\0\0\0\x01\0",
        Some(OpenNo::Damage { offset: 8 }),
        &[],
    ),
    (
        b"SNAPLOG1\x01\0\0\0\x0b\0\x08\x04\0\0\0\0\0\0\0\x01\0",
        Some(OpenNo::Damage { offset: 8 }),
        &[],
    ),
    (
        b"SNAPLOG1\x01\0\0\0\x0b\0\x09\x04\0\0\0\0\0\0\0\x01\x01",
        Some(OpenNo::Damage { offset: 24 }),
        &[],
    ),
    // a gate that is not open ends the log before the block, whatever it has in place of a closed gate's 0
    (
        b"SNAPLOG1\0\0\0\0\x0b\0\x09\x04\0\0\0\0\0\0\0\x01\0",
        None,
        &[],
    ),
    (
        b"SNAPLOG1\x02\0\0\0\x0b\0\x09\x04\0\0\0\0\0\0\0\x01\0",
        None,
        &[],
    ),
];

fn answers_so(answer: &Answer, no: Option<OpenNo>, items: &[&[u8]]) -> bool {
    match no {
        Some(no) => is_refused(answer, no),
        None => has_items(answer, items),
    }
}

fn opens_so(
    alloc: Global,
    bytes: &[u8],
    no: Option<OpenNo>,
    items: &[&[u8]],
) -> Result<bool, Memory> {
    let opened = open_bytes(alloc, bytes.to_vec(alloc)?)?;
    let read = read_bytes(alloc, bytes.to_vec(alloc)?)?;
    Ok(answers_so(&opened, no, items) && answers_so(&read, no, items))
}

/// The first of these bytes that are opened otherwise, if there are such.
pub fn opened_otherwise(alloc: Global) -> Result<Option<&'static [u8]>, Memory> {
    for (bytes, no, items) in OPENED {
        if !opens_so(alloc, bytes, no, items)? {
            return Ok(Some(bytes));
        }
    }
    Ok(None)
}

/// The bytes with which the log of three groups begins.
const FRONT: &[u8] = b"SNAPLOG2\x01\0\0\0\x0c\0\x01a\0\x02bc\0\x03def\x01\0\x01\0\x01\xff\xff\x07";

/// How many bytes the log of a group of three items and one of the longest item has.
const SIZE: usize = 8 + 5 + 12 + 5 + 2 + 65_535 + 1;

/// A group of several items, one of the longest item, and nothing are appended; what is longer than an item may be is refused.
fn takes_groups(alloc: Global, log: &mut Log<MemLog>, longest: &[u8], too_long: &[u8]) -> bool {
    append(alloc, log, &[b"a", b"bc", b"def"]).is_ok()
        && append(alloc, log, &[longest]).is_ok()
        && append(alloc, log, &[]).is_ok()
        && append(alloc, log, &[too_long]).is_err()
}

fn with_groups(alloc: Global, log: Log<MemLog>, longest: &[u8], too_long: &[u8]) -> (MemLog, bool) {
    let mut log = log;
    let is_so = takes_groups(alloc, &mut log, longest, too_long);
    (log.into_dev(), is_so)
}

/// The device of a new log to which these were appended, and whether it was so.
fn with_longest(alloc: Global, longest: &[u8], too_long: &[u8]) -> Result<(MemLog, bool), Memory> {
    let dev = MemLog::new(alloc, Vec::new(alloc), Vec::new(alloc))?;
    Ok(match Log::open(alloc, dev) {
        Ok(log) => with_groups(alloc, log, longest, too_long),
        Err((dev, _no)) => (dev, false),
    })
}

fn is_as_long(dev: &MemLog) -> bool {
    dev.ops().len() == 10
        && dev.bytes().len() == SIZE
        && dev.bytes().get(..FRONT.len()) == Some(FRONT)
}

/// Whether the log of such groups is as long as it should be, and is found again.
fn is_found_again(alloc: Global, longest: &[u8], too_long: &[u8]) -> Result<bool, Memory> {
    let (dev, is_so) = with_longest(alloc, longest, too_long)?;
    let found = open_bytes(alloc, dev.bytes().to_vec(alloc)?)?;
    Ok(is_so && is_as_long(&dev) && has_items(&found, &[b"a", b"bc", b"def", longest]))
}

/// Groups of several and of the longest item are found again.
pub fn long_groups_are_found(alloc: Global) -> Result<bool, Memory> {
    let longest = vec![in alloc; 7u8; 65_535]?;
    let too_long = vec![in alloc; 7u8; 65_536]?;
    is_found_again(alloc, &longest, &too_long)
}
