//! The trait of a device that holds a log, and the operations that its history lists.
ghost use Rattle.std.specs.Prelude.{◌≡◌, ℕ, ◌+◌, ◌-◌, ◌≤◌, min, max, length, take, drop, Option, Some, IsSome, IfSome, IfOk, OnOk, OnErr, MatchResult};
ghost use Rattle.std.specs.Option.{ForSome};
ghost use Rattle.snap_outside.specs.Causes.{HasCause};
ghost use Rattle.snap_outside.specs.Disk.{DeviceHistory, content, AddsOperation, MayAdd};
ghost use Rattle.snap_outside.specs.declared.devices.DevOp.TheVariants as operation;

use crate::schedules::Failed;
use snap_base::Sequence;

/// An operation that changes a device or what a crash may leave of it.
#[derive(Drop)]
pub enum DevOp {
    Write { at: u64, bytes: Sequence<u8> },
    Sync,
}

/// A device that holds a log: bytes that are read and written at places, and made durable by a sync. What a
/// crash may leave of it is `IsImage` in `specs/Disk.antt`.
pub trait LogDev {
    /// What the device was handed over with and the operations since, where it tells them.
    ghost told: { Self → Option DeviceHistory };

    /// The length in bytes, from the first `len` that succeeds on.
    ghost told_length: { Self → Option ℕ };

    /// How many calls have failed. It never falls.
    ghost faults: { Self → ℕ };

    /// The length in bytes.
    fn len(&mut self) -> Result<u64, Failed>
        ensures told { IfOk result (λ n. told_length self.new ≡ Some n) }
        ensures kept { IsSome (told_length self.old) → IsSome (told_length self.new) }
        ensures history { told self.new ≡ told self.old }
        ensures cause { HasCause (faults self.old) (faults self.new) result };

    /// Moves bytes from `at` on to the front of `buf` and tells how many: as many as `buf` has room for, or
    /// all up to the end.
    fn read_at(&mut self, at: u64, buf: &mut [u8]) -> Result<usize, Failed>
        requires { IsSome (told_length self.old) }
        ensures count { IfOk result (λ n. IfSome (told_length self.old) (λ len. n ≡ min (length buf.old) (len - at))) }
        ensures bytes { IfOk result (λ n. IfSome (told self.old) (λ h. take n buf.new ≡ take n (drop at (content h)))) }
        ensures same { told_length self.new ≡ told_length self.old }
        ensures history { told self.new ≡ told self.old }
        ensures cause { HasCause (faults self.old) (faults self.new) result };

    /// Writes the bytes at `at`, over what is there or past the end. A write that fails may have happened.
    fn write_at(&mut self, at: u64, bytes: &[u8]) -> Result<(), Failed>
        requires told { IsSome (told_length self.old) }
        requires within { ForSome (told_length self.old) (λ len. at ≤ len) }
        ensures length { OnOk result (IfSome (told_length self.old) (λ len. told_length self.new ≡ Some (max len (at + length bytes.now)))) }
        ensures kept { IsSome (told_length self.new) }
        ensures history { MatchResult result
            (λ _. AddsOperation (told self.old) (told self.new) (operation.Write at bytes.now))
            (λ _. MayAdd (told self.old) (told self.new) (operation.Write at bytes.now)) }
        ensures cause { HasCause (faults self.old) (faults self.new) result };

    /// Makes durable what was written. A sync that fails has done nothing that can be relied on.
    fn sync(&mut self) -> Result<(), Failed>
        ensures same { told_length self.new ≡ told_length self.old }
        ensures history { MatchResult result (λ _. AddsOperation (told self.old) (told self.new) operation.Sync) (λ _. told self.new ≡ told self.old) }
        ensures cause { HasCause (faults self.old) (faults self.new) result };

    /// Where the content is told, the length is its length.
    ghost content_length: { (d : Self) (h : DeviceHistory) (n : ℕ) → told d ≡ Some h → told_length d ≡ Some n → n ≡ length (content h) };
}
