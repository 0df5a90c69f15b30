//! What is slow outside: a device whose syncs, and a sink whose writes, go on for a while.

use snap_outside::{Failed, LogDev, MemLog, MemSink, Sink};
use std::sync::atomic::{AtomicU64, Ordering};

/// Goes on for so many turns of a loop. It lets nobody else have its processor, which on a loaded machine takes too long.
fn linger(turns: u64) {
    let turned = AtomicU64::new(0);
    for turn in 0..turns {
        turned.store(turn, Ordering::SeqCst);
    }
}

/// A device in memory, each sync of which goes on for so many turns.
pub struct SlowLog {
    pub log: MemLog,
    pub turns: u64,
}

// By hand, as is that below, so that whoever lets one go calls this, and does not repeat it.
impl Drop for SlowLog {
    fn drop(self) {
        let SlowLog {
            log: _log,
            turns: _,
        } = self;
    }
}

impl SlowLog {
    /// The device in memory.
    pub fn into_log(self) -> MemLog {
        let SlowLog { log, turns: _ } = self;
        log
    }
}

impl LogDev for SlowLog {
    ghost use Rattle.std.specs.Prelude.{None, Some};
    ghost use Rattle.std.proofs.Common.{rules};
    ghost use Rattle.crew_rows.specs.Inner.{device_faults, device_length};

    ghost told = { λ _. None };

    ghost told_length = { λ d. Some (device_length d.log) };

    ghost faults = { λ d. device_faults d.log };

    fn len(&mut self) -> Result<u64, Failed> {
        self.log.len()
    }

    fn read_at(&mut self, at: u64, buf: &mut [u8]) -> Result<usize, Failed> {
        self.log.read_at(at, buf)
    }

    fn write_at(&mut self, at: u64, bytes: &[u8]) -> Result<(), Failed> {
        self.log.write_at(at, bytes)
    }

    fn sync(&mut self) -> Result<(), Failed> {
        linger(self.turns);
        self.log.sync()
    }

    ghost content_length = { Prim.search rules };
}

/// A sink in memory, each write to which goes on for so many turns.
pub struct SlowSink {
    pub sink: MemSink,
    pub turns: u64,
}

impl Drop for SlowSink {
    fn drop(self) {
        let SlowSink {
            sink: _sink,
            turns: _,
        } = self;
    }
}

impl SlowSink {
    /// The sink in memory.
    pub fn into_sink(self) -> MemSink {
        let SlowSink { sink, turns: _ } = self;
        sink
    }
}

impl Sink for SlowSink {
    ghost use Rattle.std.specs.Prelude.{None};
    ghost use Rattle.crew_rows.specs.Inner.{sink_faults, sink_late};

    ghost taken = { λ _. None };

    ghost faults = { λ s. sink_faults s.sink };

    ghost late = { λ s. sink_late s.sink };

    fn write(&mut self, piece: &[u8]) -> Result<usize, Failed> {
        linger(self.turns);
        self.sink.write(piece)
    }
}
