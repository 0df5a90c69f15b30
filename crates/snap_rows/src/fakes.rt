//! What stands outside a call: a source that gives a byte at a time, one that never ends, and a sink that takes a few bytes at once.

use snap_base::Memory;
use snap_outside::{Failed, MemSink, MemSource, Sink, Source};
use std::alloc::Global;

/// A source that gives one byte at a read.
pub(crate) struct Trickle(MemSource);

// By hand, as are those below, so that whoever lets one go calls this, and does not repeat it.
impl Drop for Trickle {
    fn drop(self) {
        let Trickle(_source) = self;
    }
}

impl Trickle {
    /// The bytes of a text; the read with this number fails.
    pub(crate) fn new(alloc: Global, text: &str, fails: u64) -> Result<Trickle, Memory> {
        let bytes = text.as_bytes().to_vec(alloc)?;
        let fails = vec![in alloc; fails]?;
        Ok(Trickle(MemSource::new(bytes, fails)))
    }
}

impl Source for Trickle {
    ghost use Rattle.std.specs.Prelude.{None};
    ghost use Rattle.snap_rows.specs.Inner.{source_faults, source_late};

    ghost left = { λ _. None };

    ghost faults = { λ s. source_faults s.0 };

    ghost late = { λ s. source_late s.0 };

    fn read(&mut self, buf: &mut [u8]) -> Result<usize, Failed> {
        let room = buf.len().min(1);
        self.0.read(&mut buf[..room])
    }
}

/// A source that gives a comment without an end.
pub(crate) struct Endless;

impl Drop for Endless {
    fn drop(self) {
        let Endless = self;
    }
}

impl Source for Endless {
    ghost use Rattle.std.specs.Prelude.{None};

    ghost left = { λ _. None };

    ghost faults = { λ _. 0 };

    ghost late = { λ _. 0 };

    fn read(&mut self, buf: &mut [u8]) -> Result<usize, Failed> {
        buf.fill(b'#');
        Ok(buf.len())
    }
}

/// The bytes that a sink takes at most at a write.
const AT_ONCE: usize = 8;

/// A sink that takes a few bytes at a write.
pub(crate) struct Drip(pub(crate) MemSink);

impl Drop for Drip {
    fn drop(self) {
        let Drip(_sink) = self;
    }
}

impl Drip {
    /// An empty one, of which the write with this number fails.
    pub(crate) fn new(alloc: Global, fails: u64) -> Result<Drip, Memory> {
        let fails = vec![in alloc; fails]?;
        Ok(Drip(MemSink::new(alloc, fails)?))
    }
}

impl Sink for Drip {
    ghost use Rattle.std.specs.Prelude.{None};
    ghost use Rattle.snap_rows.specs.Inner.{sink_faults, sink_late};

    ghost taken = { λ _. None };

    ghost faults = { λ s. sink_faults s.0 };

    ghost late = { λ s. sink_late s.0 };

    fn write(&mut self, piece: &[u8]) -> Result<usize, Failed> {
        let room = piece.len().min(AT_ONCE);
        self.0.write(&piece[..room])
    }
}
