//! Records as bytes: those that are read and written as they stand, and the first bad byte of the others.
use snap_base::Memory;
use std::alloc::Global;
use txn_records::{DecodeNo, decode, encode};

/// A front, a byte that follows it so many times, and the offset of the first byte at which no record goes on; none
/// where the bytes are a record.
const ROWS: [(&'static [u8], u8, usize, Option<u32>); 24] = [
    // a Genesis with one state, and what an actor completed
    (b"\x01\x02\0\x01", 0xFF, 128, None),
    (b"\x03", 0x80, 138, None),
    (
        b"\x02\0\0\0\0\0\0\0\x07\0\x02\0\x01\x02\0\0\x01\0\0\0\0\0\0\0\x09",
        0,
        0,
        None,
    ),
    (b"\x04\0\0\0\0\0\0\x01\0", 0, 0, None),
    (b"", 0, 0, Some(0)),
    (b"\x09", 0, 0, Some(0)),
    (b"\x04", 0, 7, Some(8)),
    (b"\x04", 0, 9, Some(9)),
    // actors that fall, and one that leaves no room for the next
    (b"\x02\0\0\0\0\0\0\0\x07\0\x02\0\x01\0\0", 0, 0, Some(14)),
    (b"\x02\0\0\0\0\0\0\0\x07\0\x02\xFF\xFF\0\0", 0, 0, Some(12)),
    // what an undeclared transaction left an actor, its commit on two actors, with these in the wrong order, and on
    // too many
    (b"\x05", 0x80, 138, None),
    (
        b"\x06\0\0\0\0\0\0\0\x01\0\0\0\0\0\0\0\0\0\0\0\0\0\0\0\x01\0\x02\0\0\0\x01",
        0,
        0,
        None,
    ),
    (
        b"\x06\0\0\0\0\0\0\0\x01\0\0\0\0\0\0\0\0\0\0\0\0\0\0\0\x01\0\x02\0\x01\0\0",
        0,
        0,
        Some(30),
    ),
    (
        b"\x06\0\0\0\0\0\0\0\x01\0\0\0\0\0\0\0\0\0\0\0\0\0\0\0\x01\0\x11",
        0,
        34,
        Some(26),
    ),
    // the result of a batch's one transaction, with a byte more, and with no room for a second one
    (b"\x07\0\0\0\0\0\0\0\x01\0\x01", 0x80, 8, None),
    (b"\x07\0\0\0\0\0\0\0\x01\0\x01", 0x80, 9, Some(19)),
    (b"\x07\0\0\0\0\0\0\0\x01\0\x02", 0x80, 8, Some(19)),
    // no result, and too many
    (b"\x07\0\0\0\0\0\0\0\x01\0\0", 0, 0, Some(10)),
    (b"\x07\0\0\0\0\0\0\0\x01\x01\x01", 0, 2056, Some(10)),
    // the commit of an undeclared transaction with its result, on two actors, and with these in the wrong order
    (
        b"\x08\0\0\0\0\0\0\0\x01\0\0\0\0\0\0\0\0\0\0\0\0\0\0\0\x01\xFF\xFF\xFF\xFF\xFF\xFF\xFF\x9C\0\x02\0\0\0\x01",
        0,
        0,
        None,
    ),
    (
        b"\x08\0\0\0\0\0\0\0\x01\0\0\0\0\0\0\0\0\0\0\0\0\0\0\0\x01\xFF\xFF\xFF\xFF\xFF\xFF\xFF\x9C\0\x02\0\x01\0\0",
        0,
        0,
        Some(38),
    ),
    // a checkpoint with one state, one of generation 0, and one with no state
    (
        b"\x10\0\0\0\0\0\0\0\x01\0\0\0\0\0\0\0\x03\0\0\0\0\0\0\0\x03\0\0\0\0\0\0\0\x01\0\0\0\0\0\0\0\x02\0\0\0\0\0\0\0\0\0\x01",
        0x80,
        128,
        None,
    ),
    (b"\x10", 0, 8, Some(8)),
    (
        b"\x10\0\0\0\0\0\0\0\x01\0\0\0\0\0\0\0\x03\0\0\0\0\0\0\0\x03\0\0\0\0\0\0\0\x01\0\0\0\0\0\0\0\x02\0\0\0\0\0\0\0\0",
        0,
        2,
        Some(50),
    ),
];

fn bytes_of(alloc: Global, front: &[u8], byte: u8, count: usize) -> Result<Vec<u8>, Memory> {
    let mut bytes = front.to_vec(alloc)?;
    for _ in 0..count {
        bytes.push(byte)?;
    }
    Ok(bytes)
}

/// Whether the bytes are read as a record that is written as they stand, or are bad at this offset.
fn is_read(alloc: Global, bytes: &[u8], bad: Option<u32>) -> Result<bool, Memory> {
    match decode(alloc, bytes) {
        Ok(record) => Ok(bad.is_none() && encode(alloc, &record)?.as_slice() == bytes),
        Err(DecodeNo::Bad { offset }) => Ok(bad == Some(offset)),
        Err(DecodeNo::Memory) => Err(Memory),
    }
}

/// The front of the first record that is not written as it was read, if there is one.
pub fn written_otherwise(alloc: Global) -> Result<Option<&'static [u8]>, Memory> {
    for (front, byte, count, bad) in ROWS {
        let bytes = bytes_of(alloc, front, byte, count)?;
        if !is_read(alloc, &bytes, bad)? {
            return Ok(Some(front));
        }
    }
    Ok(None)
}
