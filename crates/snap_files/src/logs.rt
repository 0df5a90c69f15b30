//! A file as a device that holds a log.
ghost use Rattle.std.specs.Prelude.{◌≡◌, ◌+◌, ◌-◌, min, max, length, IfOk, OnOk};

use crate::faults::counted;
use crate::files::LateFile;
use snap_outside::{Failed, LogDev};
use std::fs::{OpenFile, OpenOptions};
use std::io;
use std::io::{ErrorKind, Read, Seek, SeekFrom, Write};
use std::rt::Files;

/// A file that holds a log. The first call opens it for reading and writing, or makes it where it is not
/// there; before that call nothing is made. The length is what the last `len` found, raised by the writes
/// since. A sync makes the file's bytes durable; that a new file's name is too is up to its folder.
#[derive(Drop)]
pub struct FileLog<'a, R: Files> {
    file: LateFile<'a, R>,
    length: Option<u64>,
    faults: u64,
}

impl<'a, R: Files> FileLog<'a, R> {
    ghost use Rattle.std.specs.Prelude.{◌≡◌, None};

    /// The log in the file at this path. Nothing is opened or made before its first call, and no call is counted yet.
    pub fn new(rt: &'a R, path: String) -> Self
        ensures untold { result.length ≡ None }
        ensures faults { result.faults ≡ 0 }
    {
        let mut how = OpenOptions::new();
        how.read(true).write(true).create(true);
        FileLog {
            file: LateFile::new(rt, path, how),
            length: None,
            faults: 0,
        }
    }

    /// How many calls have failed. The count stops at 2^64 - 1.
    pub fn faults(&self) -> u64
        ensures { result ≡ self.now.faults }
    {
        self.faults
    }
}

impl<'a, R: Files> LogDev for FileLog<'a, R> {
    ghost use Rattle.std.specs.Prelude.{None};
    ghost use Rattle.std.proofs.Common.{rules};

    ghost told = { λ _. None };

    ghost told_length = { λ d. d.length };

    ghost faults = { λ d. d.faults };

    fn len(&mut self) -> Result<u64, Failed> {
        let length = counted(length_of(&mut self.file), &mut self.faults)?;
        self.length = Some(length);
        Ok(length)
    }

    fn read_at(&mut self, at: u64, buf: &mut [u8]) -> Result<usize, Failed> {
        let Some(length) = self.length else {
            unreachable!()
        };
        counted(
            read_up_to(&mut self.file, length, at, buf),
            &mut self.faults,
        )
    }

    fn write_at(&mut self, at: u64, bytes: &[u8]) -> Result<(), Failed> {
        let Some(length) = self.length else {
            unreachable!()
        };
        let end = counted(write_all_at(&mut self.file, at, bytes), &mut self.faults)?;
        self.length = Some(length.max(end));
        Ok(())
    }

    fn sync(&mut self) -> Result<(), Failed> {
        counted(sync(&mut self.file), &mut self.faults)
    }

    ghost content_length = { Prim.search rules };
}

fn length_of<R: Files>(file: &mut LateFile<'_, R>) -> io::Result<u64> {
    Ok(file.get()?.metadata()?.len())
}

/// Moves the bytes from `at` on to the front of the buffer, as far as it has room and the length goes. It is
/// an error where the file ends before that.
fn read_up_to<R: Files>(
    file: &mut LateFile<'_, R>,
    end: u64,
    at: u64,
    buf: &mut [u8],
) -> io::Result<usize>
    ensures count { IfOk result (λ n. n ≡ min (length buf.old) (end - at)) }
{
    let count = (buf.len() as u64).min(end.saturating_sub(at)) as usize;
    let file = file.get()?;
    file.seek(SeekFrom::Start(at))?;
    file.read_exact(&mut buf[..count])?;
    Ok(count)
}

/// Writes all bytes at the place, and tells where they end.
fn write_all_at<R: Files>(file: &mut LateFile<'_, R>, at: u64, bytes: &[u8]) -> io::Result<u64>
    ensures end { IfOk result (λ end. end ≡ at + length bytes.now) }
{
    let Some(end) = at.checked_add(bytes.len() as u64) else {
        return Err(ErrorKind::InvalidInput.into());
    };
    let file = file.get()?;
    file.seek(SeekFrom::Start(at))?;
    file.write_all(bytes)?;
    Ok(end)
}

fn sync<R: Files>(file: &mut LateFile<'_, R>) -> io::Result<()> {
    file.get()?.sync_all()
}
