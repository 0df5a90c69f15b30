//! The trait of what gives input, and a source in memory.
ghost use Rattle.std.specs.Prelude.{◌≡◌, ℕ, ◌≤◌, min, List, length, take, Option, IfOk, OnOk};
ghost use Rattle.std.specs.Io.KnownBytes.{ReadConsumes};
ghost use Rattle.snap_outside.specs.Causes.{HasCause, CountsLate};

use crate::schedules::{Failed, Schedule};

/// Where input comes from.
pub trait Source {
    /// The bytes that are left, where the source tells them.
    ghost left: { Self → Option (List ℕ) };

    /// How many calls have failed. It never falls.
    ghost faults: { Self → ℕ };

    /// How many calls were made after one had failed.
    ghost late: { Self → ℕ };

    /// Moves bytes to the front of `buf` and tells how many. None into a buffer that has room is the end
    /// of the input. A call that fails moves none.
    fn read(&mut self, buf: &mut [u8]) -> Result<usize, Failed>
        ensures count { IfOk result (λ n. n ≤ length buf.old) }
        ensures moved { ReadConsumes (left self.old) (left self.new) result buf.new }
        ensures cause { HasCause (faults self.old) (faults self.new) result }
        ensures quiet { OnOk result (faults self.new ≡ faults self.old) }
        ensures late { CountsLate (faults self.old) (late self.old) (late self.new) };
}

/// A source in memory.
#[derive(Drop)]
pub struct MemSource {
    bytes: Vec<u8>,
    at: usize,
    schedule: Schedule,
    ghost within: { at ≤ length bytes.items },
}

impl MemSource {
    ghost use Rattle.std.specs.Prelude.{◌≡◌};
    ghost use Rattle.snap_outside.specs.Fakes.{source_left};

    /// A source of these bytes whose calls with these numbers, from 1 on, fail.
    pub fn new(bytes: Vec<u8>, fails: Vec<u64>) -> Self
        ensures left { source_left result ≡ bytes.items }
        ensures schedule { result.schedule ≡ record { fails = fails; calls = 0; faults = 0; late = 0 } }
    {
        MemSource {
            bytes,
            at: 0,
            schedule: Schedule::new(fails),
        }
    }

    /// How many calls were made after one had failed. The count stops at 2^64 - 1.
    pub fn late(&self) -> u64
        ensures { result ≡ self.now.schedule.late }
    {
        self.schedule.late
    }

    fn left(&self) -> &[u8]
        ensures { result.now ≡ source_left self.now }
    {
        &self.bytes[self.at..]
    }
}

impl Source for MemSource {
    ghost use Rattle.std.specs.Prelude.{◌≡◌, ◌≤◌, ◌↔◌, length, Some, IfOk, IsErr, OnOk};
    ghost use Rattle.std.specs.Io.KnownBytes.{ReadConsumes};
    ghost use Rattle.snap_outside.specs.Causes.{HasCause, CountsLate};
    ghost use Rattle.snap_outside.specs.Fakes.{source_left, OneCall, SourceFailsNext};

    ghost left = { λ s. Some (source_left s) };

    ghost faults = { λ s. s.schedule.faults };

    ghost late = { λ s. s.schedule.late };

    fn read(&mut self, buf: &mut [u8]) -> Result<usize, Failed>
        ensures count { IfOk result (λ n. n ≤ length buf.old) }
        ensures moved { ReadConsumes (Some (source_left self.old)) (Some (source_left self.new)) result buf.new }
        ensures cause { HasCause self.old.schedule.faults self.new.schedule.faults result }
        ensures fails { IsErr result ↔ SourceFailsNext self.old }
        ensures counted { OneCall self.old.schedule self.new.schedule }
        ensures quiet { OnOk result (self.new.schedule.faults ≡ self.old.schedule.faults) }
        ensures late { CountsLate self.old.schedule.faults self.old.schedule.late self.new.schedule.late }
    {
        self.schedule.call()?;
        let count = copied(self.left(), buf);
        self.at += count;
        Ok(count)
    }
}

/// Copies as many bytes from the front of `from` to the front of `to` as there are and fit.
pub(crate) fn copied(from: &[u8], to: &mut [u8]) -> usize
    ensures count { result ≡ min (length to.old) (length from.now) }
    ensures bytes { take result to.new ≡ take result from.now }
{
    let count = from.len().min(to.len());
    to[..count].copy_from_slice(&from[..count]);
    count
}
