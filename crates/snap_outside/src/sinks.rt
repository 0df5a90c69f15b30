//! The trait of what takes output, a sink in memory, and one that keeps nothing.
ghost use Rattle.std.specs.Prelude.{◌≡◌, ℕ, ◌<◌, ◌≤◌, List, length, Option, IfOk, OnOk};
ghost use Rattle.std.specs.Io.KnownBytes.{WriteAppends};
ghost use Rattle.snap_outside.specs.Causes.{HasCause, CountsLate};

use crate::schedules::{Failed, Schedule};
use snap_base::Memory;
use std::alloc::Global;

/// Where output goes.
pub trait Sink {
    /// The bytes that were taken, where the sink tells them.
    ghost taken: { Self → Option (List ℕ) };

    /// How many calls have failed. It never falls.
    ghost faults: { Self → ℕ };

    /// How many calls were made after one had failed.
    ghost late: { Self → ℕ };

    /// Takes bytes from the front of `piece` and tells how many: some, where there are some. A call that
    /// fails takes none.
    fn write(&mut self, piece: &[u8]) -> Result<usize, Failed>
        ensures count { IfOk result (λ n. n ≤ length piece.now) }
        ensures some { IfOk result (λ n. 0 < length piece.now → 0 < n) }
        ensures moved { WriteAppends (taken self.old) (taken self.new) result piece.now }
        ensures cause { HasCause (faults self.old) (faults self.new) result }
        ensures quiet { OnOk result (faults self.new ≡ faults self.old) }
        ensures late { CountsLate (faults self.old) (late self.old) (late self.new) };
}

/// A sink in memory. A call that finds no memory is a fault too.
#[derive(Drop)]
pub struct MemSink {
    bytes: Vec<u8>,
    wanted: u64,
    schedule: Schedule,
}

impl MemSink {
    ghost use Rattle.std.specs.Prelude.{◌≡◌, [], IfOk};

    /// An empty sink whose calls with these numbers, from 1 on, fail.
    pub fn new(alloc: Global, fails: Vec<u64>) -> Result<Self, Memory>
        ensures bytes { IfOk result (λ s. s.bytes.items ≡ []) }
        ensures wanted { IfOk result (λ s. s.wanted ≡ 0) }
        ensures schedule { IfOk result (λ s. s.schedule ≡ record { fails = fails; calls = 0; faults = 0; late = 0 }) }
    {
        Ok(MemSink {
            bytes: Vec::with_capacity(alloc, FIRST_ROOM)?,
            wanted: 0,
            schedule: Schedule::new(fails),
        })
    }

    /// The bytes that were taken.
    pub fn bytes(&self) -> &[u8]
        ensures { result.now ≡ self.now.bytes.items }
    {
        self.bytes.as_slice()
    }

    /// How many of the faults were want of memory.
    pub fn wanted(&self) -> u64
        ensures { result ≡ self.now.wanted }
    {
        self.wanted
    }

    /// How many calls were made after one had failed. The count stops at 2^64 - 1.
    pub fn late(&self) -> u64
        ensures { result ≡ self.now.schedule.late }
    {
        self.schedule.late
    }
}

/// The room, in bytes, that a new sink in memory has.
const FIRST_ROOM: usize = 64;

impl Sink for MemSink {
    ghost use Rattle.std.specs.Prelude.{◌≡◌, ◌<◌, ◌≤◌, ◌⊎◌, length, Some, IfOk, IsErr, OnOk, MatchResult};
    ghost use Rattle.std.specs.Io.KnownBytes.{WriteAppends};
    ghost use Rattle.snap_outside.specs.Causes.{HasCause, CountsLate, Rose};
    ghost use Rattle.snap_outside.specs.Fakes.{OneCall, SinkFailsNext};

    ghost taken = { λ s. Some s.bytes.items };

    ghost faults = { λ s. s.schedule.faults };

    ghost late = { λ s. s.schedule.late };

    fn write(&mut self, piece: &[u8]) -> Result<usize, Failed>
        ensures count { IfOk result (λ n. n ≤ length piece.now) }
        ensures some { IfOk result (λ n. 0 < length piece.now → 0 < n) }
        ensures moved { WriteAppends (Some self.old.bytes.items) (Some self.new.bytes.items) result piece.now }
        ensures cause { HasCause self.old.schedule.faults self.new.schedule.faults result }
        ensures fails { SinkFailsNext self.old → IsErr result × (self.new.wanted ≡ self.old.wanted) }
        ensures wanted { MatchResult result
            (λ _. self.new.wanted ≡ self.old.wanted)
            (λ _. SinkFailsNext self.old ⊎ Rose self.old.wanted self.new.wanted) }
        ensures counted { OneCall self.old.schedule self.new.schedule }
        ensures quiet { OnOk result (self.new.schedule.faults ≡ self.old.schedule.faults) }
        ensures late { CountsLate self.old.schedule.faults self.old.schedule.late self.new.schedule.late }
    {
        self.schedule.call()?;
        if self.bytes.extend_from_slice(piece).is_err() {
            self.wanted = self.wanted.saturating_add(1);
            return Err(self.schedule.fault());
        }
        Ok(piece.len())
    }
}

/// A sink that takes all bytes, keeps none and never fails.
#[derive(Clone, Copy, Debug, PartialEq, Eq)]
pub struct NullSink;

impl NullSink {
    /// A sink that takes all bytes, keeps none and never fails.
    pub fn new() -> Self {
        NullSink
    }
}

impl Sink for NullSink {
    ghost use Rattle.std.specs.Prelude.{◌≡◌, length, None, Ok};

    ghost taken = { λ _. None };

    ghost faults = { λ _. 0 };

    ghost late = { λ _. 0 };

    fn write(&mut self, piece: &[u8]) -> Result<usize, Failed> {
        Ok(piece.len())
    }
}
