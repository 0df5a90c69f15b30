//! A file as a sink, and a write of at least one byte.
ghost use Rattle.std.specs.Prelude.{◌<◌, ◌≤◌, length, IfOk};

use crate::faults::Calls;
use crate::files::LateFile;
use snap_outside::{Failed, Sink};
use std::fs::OpenOptions;
use std::io;
use std::io::{ErrorKind, Write};
use std::rt::Files;

/// A file that output goes to. The first call makes it, or empties the one that is there; before that call
/// nothing is made. A write that takes nothing, where there is something to take, is a fault too.
#[derive(Drop)]
pub struct FileSink<'a, R: Files> {
    file: LateFile<'a, R>,
    calls: Calls,
}

impl<'a, R: Files> FileSink<'a, R> {
    ghost use Rattle.std.specs.Prelude.{◌≡◌};

    /// A sink into the file at this path. Nothing is made or emptied before its first call, and no call is counted yet.
    pub fn new(rt: &'a R, path: String) -> Self
        ensures calls { result.calls ≡ record { faults = 0; late = 0 } }
    {
        let mut how = OpenOptions::new();
        how.write(true).create(true).truncate(true);
        FileSink {
            file: LateFile::new(rt, path, how),
            calls: Calls::new(),
        }
    }

    /// How many calls have failed. The count stops at 2^64 - 1.
    pub fn faults(&self) -> u64
        ensures { result ≡ self.now.calls.faults }
    {
        self.calls.faults
    }
}

impl<'a, R: Files> Sink for FileSink<'a, R> {
    ghost use Rattle.std.specs.Prelude.{None};

    ghost taken = { λ _. None };

    ghost faults = { λ s. s.calls.faults };

    ghost late = { λ s. s.calls.late };

    fn write(&mut self, piece: &[u8]) -> Result<usize, Failed> {
        self.calls.counted(write_late(&mut self.file, piece))
    }
}

fn write_late<R: Files>(file: &mut LateFile<'_, R>, piece: &[u8]) -> io::Result<usize>
    ensures count { IfOk result (λ n. n ≤ length piece.now) }
    ensures some { IfOk result (λ n. 0 < length piece.now → 0 < n) }
{
    write_some(file.get()?, piece)
}

/// Takes bytes from the front of the piece. To take none of some bytes is an error.
pub(crate) fn write_some<W: Write>(writer: &mut W, piece: &[u8]) -> io::Result<usize>
    ensures count { IfOk result (λ n. n ≤ length piece.now) }
    ensures some { IfOk result (λ n. 0 < length piece.now → 0 < n) }
{
    let count = writer.write(piece)?;
    if count == 0 && !piece.is_empty() {
        return Err(ErrorKind::WriteZero.into());
    }
    Ok(count)
}
