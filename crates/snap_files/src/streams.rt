//! The standard input as a source, and the standard output as a sink.
use crate::faults::Calls;
use crate::sinks::write_some;
use snap_outside::{Failed, Sink, Source};
use std::io;
use std::io::{BufRead, Printer};

/// The standard input.
#[derive(Drop)]
pub struct StdinSource<R> {
    reader: R,
    calls: Calls,
}

impl<R: BufRead> StdinSource<R> {
    ghost use Rattle.std.specs.Prelude.{◌≡◌};

    /// The standard input as a source, of which no call is counted yet.
    pub fn new<I: Input<Reader = R>>(rt: &I) -> Self
        ensures calls { result.calls ≡ record { faults = 0; late = 0 } }
    {
        StdinSource {
            reader: rt.reader(),
            calls: Calls::new(),
        }
    }

    /// How many calls have failed. The count stops at 2^64 - 1.
    pub fn faults(&self) -> u64
        ensures { result ≡ self.now.calls.faults }
    {
        self.calls.faults
    }
}

impl<R: BufRead> Source for StdinSource<R> {
    ghost use Rattle.std.specs.Prelude.{None};

    ghost left = { λ _. None };

    ghost faults = { λ s. s.calls.faults };

    ghost late = { λ s. s.calls.late };

    fn read(&mut self, buf: &mut [u8]) -> Result<usize, Failed> {
        self.calls.counted(self.reader.read(buf))
    }
}

/// The standard output. A write that takes nothing, where there is something to take, is a fault too.
#[derive(Drop)]
pub struct StdoutSink<'a, P> {
    writer: Printer<'a, P>,
    calls: Calls,
}

impl<'a, P: Print> StdoutSink<'a, P> {
    ghost use Rattle.std.specs.Prelude.{◌≡◌};

    /// The standard output as a sink, of which no call is counted yet.
    pub fn new(rt: &'a P) -> Self
        ensures calls { result.calls ≡ record { faults = 0; late = 0 } }
    {
        StdoutSink {
            writer: io::writer(rt),
            calls: Calls::new(),
        }
    }

    /// How many calls have failed. The count stops at 2^64 - 1.
    pub fn faults(&self) -> u64
        ensures { result ≡ self.now.calls.faults }
    {
        self.calls.faults
    }
}

impl<'a, P: Print> Sink for StdoutSink<'a, P> {
    ghost use Rattle.std.specs.Prelude.{None};

    ghost taken = { λ _. None };

    ghost faults = { λ s. s.calls.faults };

    ghost late = { λ s. s.calls.late };

    fn write(&mut self, piece: &[u8]) -> Result<usize, Failed> {
        self.calls.counted(write_some(&mut self.writer, piece))
    }
}
