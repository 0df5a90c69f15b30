//! Logs of records: what is read again after each crash, which byte is the first bad one, and a device that fails.
ghost use Rattle.std.specs.Prelude.{◌≡◌, ℕ, ◌+◌, ◌≤◌, ◌^◌, List, length};
ghost use Rattle.std.specs.List.{AllByRecursion};
ghost use Rattle.gate_log.specs.Bytes.{IsPlacedLogAt};
ghost use Rattle.txn_records.specs.Records.{IsRecord};

use gate_log::{AppendNo, FARTHEST_END, Log};
use record_log::{ItemsNo, append_records, few_may_be_appended, records_of};
use snap_base::{ActorId, Bid, Memory, Sequence, State};
use snap_outside::MemLog;
use std::alloc::Global;
use txn_records::{Key, Record, key_of};

/// What the bytes of a device are read as.
#[derive(Drop)]
enum Answer {
    Records(Sequence<Record>),
    Refused(ItemsNo),
    NoLog,
}

fn read_bytes(alloc: Global, bytes: Vec<u8>) -> Result<Answer, Memory> {
    let dev = MemLog::new(alloc, bytes, Vec::new(alloc))?;
    Ok(match Log::open(alloc, dev) {
        Ok(log) => read_log(alloc, log),
        Err((_dev, _no)) => Answer::NoLog,
    })
}

fn read_log(alloc: Global, log: Log<MemLog>) -> Answer
    requires { (bytes : List ℕ) × IsPlacedLogAt bytes log.end log.found × (log.end ≤ FARTHEST_END) }
{
    let mut log = log;
    let found = log.take_found();
    let _dev = log.into_dev();
    match records_of(alloc, found.as_slice()) {
        Ok(records) => Answer::Records(records),
        Err(no) => Answer::Refused(no),
    }
}

/// Whether records about just these were read, in this order.
fn has(answer: &Answer, keys: &[Key]) -> bool {
    let Answer::Records(records) = answer else {
        return false;
    };
    let records = records.as_slice();
    if records.len() != keys.len() {
        return false;
    }
    for (record, key) in records.iter().zip(keys) {
        if key_of(record) != *key {
            return false;
        }
    }
    true
}

fn is_refused(answer: &Answer, no: ItemsNo) -> bool {
    match answer {
        Answer::Refused(given) => *given == no,
        _ => false,
    }
}

/// Appends a few records as one group. A log of format 1 answers as want of memory does.
fn append(alloc: Global, log: &mut Log<MemLog>, records: &[Record]) -> Result<(), AppendNo>
    requires records { AllByRecursion IsRecord records.now }
    requires few { length records.now ≤ 16 }
    requires low { log.old.end ≤ FARTHEST_END + 2 ^ 40 }
    ensures { log.new.end ≤ log.old.end + 2 ^ 32 }
{
    few_may_be_appended();
    if log.format() != 2 {
        return Err(AppendNo::Memory);
    }
    append_records(alloc, log, records)
}

/// The commit of batch 1.
fn append_first(alloc: Global, log: &mut Log<MemLog>) -> Result<(), AppendNo>
    requires { log.old.end ≤ FARTHEST_END }
    ensures { log.new.end ≤ log.old.end + 2 ^ 32 }
{
    append(alloc, log, &[Record::BatchCommit { bid: Bid(1) }])
}

/// What completes batch 2, with its commit.
fn append_second(alloc: Global, log: &mut Log<MemLog>) -> Result<(), AppendNo>
    requires { log.old.end ≤ FARTHEST_END + 2 ^ 40 }
{
    append(
        alloc,
        log,
        &[
            Record::BatchComplete {
                bid: Bid(2),
                actor: ActorId(3),
                state: State([-1; 16]),
            },
            Record::BatchCommit { bid: Bid(2) },
        ],
    )
}

/// The device of a log to which both were appended, and the first refusal of the two.
fn grown_by_two(alloc: Global, log: Log<MemLog>) -> (MemLog, Option<AppendNo>)
    requires { log.end ≤ FARTHEST_END }
{
    let mut log = log;
    let first = append_first(alloc, &mut log);
    let second = append_second(alloc, &mut log);
    (log.into_dev(), first.err().or(second.err()))
}

/// The device of a new log to which both were appended, some of its calls failing, and the first refusal of the two.
fn grown(alloc: Global, fails: Vec<u64>) -> Result<(MemLog, Option<AppendNo>), Memory> {
    let dev = MemLog::new(alloc, Vec::new(alloc), fails)?;
    Ok(match Log::open(alloc, dev) {
        Ok(log) => grown_by_two(alloc, log),
        Err((dev, _no)) => (dev, None),
    })
}

const FIRST: [Key; 1] = [Key::Commit(Bid(1))];

const ALL: [Key; 3] = [
    Key::Commit(Bid(1)),
    Key::Complete(Bid(2), ActorId(3)),
    Key::Commit(Bid(2)),
];

/// The bytes with which the log of the two groups begins.
const FRONT: &[u8] = b"SNAPLOG2\x01\0\0\0\x0b\0\x09\x04\0\0\0\0\0\0\0\x01\x01\0\0\0\x98\0\x8b\x03";

/// Logs whose second record, the bytes from 26 on, is none, and the offset of the first bad byte.
const BAD: [(&[u8], u64); 2] = [
    (
        b"SNAPLOG1\x01\0\0\0\x15\0\x09\x04\0\0\0\0\0\0\0\x01\0\x08\x04\0\0\0\0\0\0\0\0",
        34,
    ),
    (
        b"SNAPLOG2\x01\0\0\0\x15\0\x09\x04\0\0\0\0\0\0\0\x01\0\x08\x09\0\0\0\0\0\0\0\0",
        26,
    ),
];

/// What a crash after so many operations leaves: no record, the first one, or all.
fn is_left(ops: usize, found: &Answer) -> bool {
    ops < 6 && has(found, &[])
        || 3 <= ops && ops < 10 && has(found, &FIRST)
        || 7 <= ops && has(found, &ALL)
}

fn is_read_again(alloc: Global, dev: &MemLog, ops: usize, choice: u8) -> Result<bool, Memory> {
    if dev.ops().len() < ops {
        return Ok(false);
    }
    let image = dev.image(alloc, ops, choice)?;
    Ok(is_left(ops, &read_bytes(alloc, image)?))
}

fn are_read_again(alloc: Global, dev: &MemLog) -> Result<bool, Memory> {
    for ops in 0..dev.ops().len() + 1 {
        for choice in [0, 1, 2, 0x7F] {
            if !is_read_again(alloc, dev, ops, choice)? {
                return Ok(false);
            }
        }
    }
    Ok(true)
}

/// Records are read again after a crash at any operation.
pub fn crashes_leave_records(alloc: Global) -> Result<bool, Memory> {
    let (dev, no) = grown(alloc, Vec::new(alloc))?;
    let is_grown = no.is_none()
        && dev.ops().len() == 10
        && dev.bytes().get(..FRONT.len()) == Some(FRONT);
    Ok(is_grown && are_read_again(alloc, &dev)?)
}

fn is_bad_at(alloc: Global, bytes: &[u8], offset: u64) -> Result<bool, Memory> {
    let found = read_bytes(alloc, bytes.to_vec(alloc)?)?;
    Ok(is_refused(&found, ItemsNo::BadRecord { offset }))
}

/// A bad record is told at its byte in the file.
pub fn bad_records_are_told(alloc: Global) -> Result<bool, Memory> {
    for (bytes, offset) in BAD {
        if !is_bad_at(alloc, bytes, offset)? {
            return Ok(false);
        }
    }
    Ok(true)
}

/// A failing device shuts the log.
pub fn fault_shuts_the_log(alloc: Global) -> Result<bool, Memory> {
    let (dev, no) = grown(alloc, [5].to_vec(alloc)?)?;
    Ok(no == Some(AppendNo::Device) && dev.ops().len() == 3)
}
