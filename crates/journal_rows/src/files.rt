//! Files that hold logs, and files that output goes to.
use crate::devices::{Answer, Call, answers};
use crate::streams::takes;
use snap_files::{FileLog, FileSink};
use snap_outside::{Failed, LogDev};
use std::alloc::{AllocError, Global};
use std::rt::{Files, HostRuntime};
use std::test::Fail;
use std::{fs, io};

// An empty folder of this name in the current one.
fn fresh(rt: &(impl Files + Alloc), folder: &str) -> io::Result<()> {
    let _ = fs::remove_dir_all(rt, folder);
    fs::create_dir(rt, folder)
}

fn text(alloc: Global, path: &str) -> Result<String, AllocError> {
    String::from_str(alloc, path)
}

/// The calls of a log in a new file.
const CALLS: [(Call, Answer); 6] = [
    (Call::Length, Answer::Length(0)),
    (
        Call::Write {
            at: 0,
            bytes: b"abc",
        },
        Answer::Done,
    ),
    (Call::Sync, Answer::Done),
    (Call::Write { at: 2, bytes: b"Z" }, Answer::Done),
    (Call::Length, Answer::Length(3)),
    (Call::Read { at: 1, room: 4 }, Answer::Bytes(b"bZ")),
];

/// The calls of another log in the same file.
const OTHERS: [(Call, Answer); 2] = [
    (Call::Length, Answer::Length(3)),
    (Call::Read { at: 0, room: 4 }, Answer::Bytes(b"abZ")),
];

/// The calls of a log whose folder is not there.
const LOST: [(Call, Answer); 2] = [(Call::Length, Answer::Fault), (Call::Sync, Answer::Fault)];

/// Whether a log in this file answers the calls so, and counts these faults.
fn log_answers(
    rt: &HostRuntime,
    path: &str,
    rows: &[(Call, Answer)],
    faults: u64,
) -> Result<bool, Fail> {
    let alloc = rt.alloc();
    let mut log = FileLog::new(rt, text(alloc, path)?);
    Ok(answers(alloc, &mut log, rows)? && log.faults() == faults)
}

/// Whether a log makes no file before its first call.
fn log_waits(rt: &HostRuntime, path: &str) -> Result<bool, Fail> {
    let log = FileLog::new(rt, text(rt.alloc(), path)?);
    let is_made = fs::exists(rt, path)?;
    drop(log);
    Ok(!is_made)
}

/// A log is read as it was written.
pub fn log_is_read(rt: &HostRuntime) -> Result<bool, Fail> {
    fresh(rt, "rows_log")?;
    let is_so = log_waits(rt, "rows_log/a")?
        && log_answers(rt, "rows_log/a", &CALLS, 0)?
        && log_answers(rt, "rows_log/a", &OTHERS, 0)?;
    fs::remove_dir_all(rt, "rows_log")?;
    Ok(is_so)
}

/// A log in a file of three bytes, which becomes a file of one byte: a read behind its end is a fault, until its length is asked
/// for again.
fn ends_early(rt: &HostRuntime, path: &str) -> Result<bool, Fail> {
    fs::write(rt, path, b"abc".as_slice())?;
    let mut log = FileLog::new(rt, text(rt.alloc(), path)?);
    let length = log.len()?;
    fs::write(rt, path, b"a".as_slice())?;
    let mut buffer = [0; 2];
    let behind = log.read_at(1, &mut buffer);
    let is_short = has_one(&mut log)?;
    Ok(length == 3 && behind == Err(Failed) && is_short && log.faults() == 1)
}

/// Whether a device has one byte.
fn has_one<D: LogDev>(device: &mut D) -> Result<bool, Failed> {
    let mut buffer = [0; 2];
    let length = device.len()?;
    let count = device.read_at(0, &mut buffer)?;
    Ok(length == 1 && count == 1)
}

/// A file that ends early is a fault.
pub fn short_file_is_a_fault(rt: &HostRuntime) -> Result<bool, Fail> {
    fresh(rt, "rows_short")?;
    let is_so = ends_early(rt, "rows_short/a")?;
    fs::remove_dir_all(rt, "rows_short")?;
    Ok(is_so)
}

/// Whether a sink in this file takes these pieces, and counts these faults.
fn sink_takes(
    rt: &HostRuntime,
    path: &str,
    rows: &[(&[u8], Option<usize>)],
    faults: u64,
) -> Result<bool, Fail> {
    let mut sink = FileSink::new(rt, text(rt.alloc(), path)?);
    Ok(takes(&mut sink, rows) && sink.faults() == faults)
}

/// A missing folder is a fault.
pub fn missing_folder_is_a_fault(rt: &HostRuntime) -> Result<bool, Fail> {
    let _ = fs::remove_dir_all(rt, "rows_none");
    Ok(
        log_answers(rt, "rows_none/a", &LOST[..1], 1)?
            && log_answers(rt, "rows_none/a", &LOST, 2)?
            && sink_takes(rt, "rows_none/b", &[(b"abc", None)], 1)?,
    )
}

fn holds(rt: &HostRuntime, path: &str, bytes: &[u8]) -> Result<bool, Fail> {
    Ok(fs::read(rt, path)?.as_slice() == bytes)
}

/// What is in a file before its sink's first call.
const BEFORE: &[u8] = b"what was there";

/// Whether a sink leaves the file as it is before its first call, and makes none.
fn sink_waits(rt: &HostRuntime, path: &str, unused: &str) -> Result<bool, Fail> {
    let alloc = rt.alloc();
    let first = FileSink::new(rt, text(alloc, path)?);
    let second = FileSink::new(rt, text(alloc, unused)?);
    let is_kept = holds(rt, path, BEFORE)?;
    drop(first);
    drop(second);
    Ok(is_kept && !fs::exists(rt, unused)?)
}

/// A sink makes its file at the first call.
pub fn sink_makes_its_file(rt: &HostRuntime) -> Result<bool, Fail> {
    fresh(rt, "rows_sink")?;
    let path = "rows_sink/a";
    fs::write(rt, path, BEFORE)?;
    let is_so = sink_waits(rt, path, "rows_sink/b")?
        && sink_takes(rt, path, &[(b"abc", Some(3)), (b"de", Some(2))], 0)?
        && holds(rt, path, b"abcde")?;
    fs::remove_dir_all(rt, "rows_sink")?;
    Ok(is_so)
}
