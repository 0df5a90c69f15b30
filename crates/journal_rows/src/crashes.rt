//! What every crash inside an opening and two appends leaves, whichever device call fails.
use crate::logs::{Answer, grown, has_items, open_image};
use snap_base::Memory;
use snap_outside::MemLog;
use std::alloc::Global;

/// The device calls of opening a new log and of two appends: one of the length, two of making the log, four of
/// each append.
const CALLS: u64 = 11;

/// The two groups.
const GROUPS: [&[&[u8]]; 2] = [&[b"a"], &[b"b", b"c"]];

/// How many of the two groups a crash after so many operations may leave: at least, and at most.
fn groups_after(ops: usize) -> (usize, usize) {
    match ops {
        0..=2 => (0, 0),
        3..=5 => (0, 1),
        6 => (1, 1),
        7..=9 => (1, 2),
        _ => (2, 2),
    }
}

fn has_groups(answer: &Answer, groups: usize) -> bool {
    match groups {
        0 => has_items(answer, &[]),
        1 => has_items(answer, &[b"a"]),
        _ => has_items(answer, &[b"a", b"b", b"c"]),
    }
}

/// Whether a crash after so many operations leaves whole groups, as many as it may.
fn leaves_groups(alloc: Global, dev: &MemLog, ops: usize, choice: u8) -> Result<bool, Memory> {
    let (least, most) = groups_after(ops);
    match open_image(alloc, dev, ops, choice)? {
        Some(answer) => Ok(has_groups(&answer, least) || has_groups(&answer, most)),
        None => Ok(false),
    }
}

/// After how many operations a crash of the device does not, if there are such.
fn wrong_after(alloc: Global, dev: &MemLog) -> Result<Option<(usize, u8)>, Memory> {
    for ops in 0..dev.ops().len() + 1 {
        for choice in [0, 1, 2, 0x7f] {
            if !leaves_groups(alloc, dev, ops, choice)? {
                return Ok(Some((ops, choice)));
            }
        }
    }
    Ok(None)
}

/// After how many operations a crash does not leave whole groups, where the device call with this number fails.
fn wrong_with(alloc: Global, failing: u64) -> Result<Option<(usize, u8)>, Memory> {
    let fails = vec![in alloc; failing]?;
    let (dev, _is_grown) = grown(alloc, fails, &GROUPS)?;
    wrong_after(alloc, &dev)
}

/// The first call with whose failure a crash does not leave whole groups, if there is one.
pub fn wrong_call(alloc: Global) -> Result<Option<u64>, Memory> {
    for failing in 1..CALLS + 2 {
        if wrong_with(alloc, failing)?.is_some() {
            return Ok(Some(failing));
        }
    }
    Ok(None)
}
