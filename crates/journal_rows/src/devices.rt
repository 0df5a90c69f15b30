//! Devices: what each call answers, and what a crash leaves of one in memory.
ghost use Rattle.std.specs.Prelude.{◌≡◌, vec_len, IfOk};

use snap_base::Memory;
use snap_outside::{DevOp, Failed, LogDev, MemLog};
use std::alloc::Global;

/// A call of a device. Before a read or a write the length is asked for.
#[derive(Clone, Copy)]
pub enum Call {
    Length,
    /// A read into a buffer of zeros with so much room.
    Read { at: u64, room: usize },
    Write { at: u64, bytes: &'static [u8] },
    Sync,
}

/// What a call answers.
#[derive(Clone, Copy)]
pub enum Answer {
    Length(u64),
    /// The bytes that a read moves.
    Bytes(&'static [u8]),
    Done,
    Fault,
}

/// Whether the device answers the calls so, in order.
pub fn answers<D: LogDev>(
    alloc: Global,
    device: &mut D,
    rows: &[(Call, Answer)],
) -> Result<bool, Memory> {
    for (call, answer) in rows {
        if !answers_so(alloc, device, *call, *answer)? {
            return Ok(false);
        }
    }
    Ok(true)
}

fn answers_so<D: LogDev>(
    alloc: Global,
    device: &mut D,
    call: Call,
    answer: Answer,
) -> Result<bool, Memory> {
    match call {
        Call::Length => Ok(is_length(device.len(), answer)),
        Call::Sync => Ok(is_done(device.sync(), answer)),
        Call::Write { at, bytes } => Ok(is_done(write(device, at, bytes), answer)),
        Call::Read { at, room } => {
            let mut buffer = vec![in alloc; 0u8; room]?;
            let moved = read(device, at, &mut buffer);
            Ok(is_moved(moved, &buffer, answer))
        }
    }
}

fn is_length(given: Result<u64, Failed>, answer: Answer) -> bool {
    match answer {
        Answer::Length(length) => given == Ok(length),
        Answer::Fault => given.is_err(),
        _ => false,
    }
}

fn is_done(given: Result<(), Failed>, answer: Answer) -> bool {
    match answer {
        Answer::Done => given.is_ok(),
        Answer::Fault => given.is_err(),
        _ => false,
    }
}

/// Whether all bytes are 0.
pub fn are_zeros(bytes: &[u8]) -> bool {
    for byte in bytes {
        if *byte != 0 {
            return false;
        }
    }
    true
}

/// Whether these bytes were moved to the front of the buffer, and zeros are left behind them.
pub fn is_filled(buffer: &[u8], count: usize, bytes: &[u8]) -> bool {
    match buffer.split_at_checked(count) {
        Some((front, left)) => front == bytes && are_zeros(left),
        None => false,
    }
}

fn is_moved(given: Result<usize, Failed>, buffer: &[u8], answer: Answer) -> bool {
    match (given, answer) {
        (Ok(count), Answer::Bytes(bytes)) => is_filled(buffer, count, bytes),
        (Err(Failed), Answer::Fault) => are_zeros(buffer),
        _ => false,
    }
}

/// Writes where the device has the place.
fn write<D: LogDev>(device: &mut D, at: u64, bytes: &[u8]) -> Result<(), Failed> {
    let length = device.len()?;
    if length < at {
        return Err(Failed);
    }
    device.write_at(at, bytes)
}

fn read<D: LogDev>(device: &mut D, at: u64, buffer: &mut [u8]) -> Result<usize, Failed> {
    device.len()?;
    device.read_at(at, buffer)
}

/// The calls of a device in memory that holds "abc".
const CALLS: [(Call, Answer); 5] = [
    (
        Call::Write {
            at: 2,
            bytes: b"XY",
        },
        Answer::Done,
    ),
    (Call::Sync, Answer::Done),
    (Call::Write { at: 4, bytes: b"Z" }, Answer::Done),
    (Call::Length, Answer::Length(5)),
    (Call::Read { at: 0, room: 8 }, Answer::Bytes(b"abXYZ")),
];

/// What a crash after so many of their operations leaves, by the choice.
const IMAGES: [(usize, u8, &[u8]); 9] = [
    (0, 0, b"abc"),
    (0, 2, b"abc"),
    (1, 0, b"abc"),
    (1, 2, b"abXY"),
    (1, 0x7F, b"ab\x7F\x7F"),
    (2, 0x7F, b"abXY"),
    (3, 0, b"abXY"),
    (3, 1, b"abXY\x01"),
    (3, 2, b"abXYZ"),
];

/// The calls of such a device of which the second, seventh, eighth and tenth fail.
const FAILING: [(Call, Answer); 8] = [
    (Call::Write { at: 3, bytes: b"d" }, Answer::Fault),
    (Call::Read { at: 0, room: 8 }, Answer::Bytes(b"abc")),
    (Call::Write { at: 3, bytes: b"d" }, Answer::Done),
    (Call::Sync, Answer::Fault),
    (Call::Length, Answer::Fault),
    (Call::Read { at: 1, room: 2 }, Answer::Fault),
    (Call::Read { at: 3, room: 2 }, Answer::Bytes(b"d")),
    (Call::Read { at: 0, room: 8 }, Answer::Bytes(b"abcd")),
];

fn is_write(op: &DevOp, place: u64, piece: &[u8]) -> bool {
    match op {
        DevOp::Write { at, bytes } => *at == place && bytes.as_slice() == piece,
        DevOp::Sync => false,
    }
}

/// Whether the operations are the three of the calls.
fn has_its_ops(device: &MemLog) -> bool {
    match device.ops() {
        [first, DevOp::Sync, last] => is_write(first, 2, b"XY") && is_write(last, 4, b"Z"),
        _ => false,
    }
}

fn leaves_its_images(alloc: Global, device: &MemLog) -> Result<bool, Memory> {
    for (ops, choice, bytes) in IMAGES {
        if !leaves(alloc, device, ops, choice, bytes)? {
            return Ok(false);
        }
    }
    Ok(true)
}

fn leaves(
    alloc: Global,
    device: &MemLog,
    ops: usize,
    choice: u8,
    bytes: &[u8],
) -> Result<bool, Memory> {
    if device.ops().len() < ops {
        return Ok(false);
    }
    let image = device.image(alloc, ops, choice)?;
    Ok(image.as_slice() == bytes)
}

/// A device in memory keeps what a crash may leave.
pub fn keeps_what_a_crash_leaves(alloc: Global) -> Result<bool, Memory> {
    let mut device = MemLog::new(alloc, b"abc".to_vec(alloc)?, Vec::new(alloc))?;
    Ok(
        answers(alloc, &mut device, &CALLS)?
            && has_its_ops(&device)
            && leaves_its_images(alloc, &device)?,
    )
}

/// A call that fails changes nothing.
pub fn stays_where_a_call_fails(alloc: Global) -> Result<bool, Memory> {
    let fails = [2, 7, 8, 10].to_vec(alloc)?;
    let mut device = MemLog::new(alloc, b"abc".to_vec(alloc)?, fails)?;
    let is_so = answers(alloc, &mut device, &FAILING)?;
    Ok(is_so && device.ops().len() == 1 && device.wanted() == 0)
}
