//! A device in memory, which tells its operations and what a crash after each of them may leave.
ghost use Rattle.std.specs.Prelude.{◌≡◌, ◌+◌, ◌-◌, ◌≤◌, max, ◌++◌, [], ◌∷◌, length, vec_len, OnOk, OnErr};
ghost use Rattle.snap_outside.specs.Disk.{content_of, overwritten};
ghost use Rattle.snap_outside.specs.declared.devices.DevOp.TheVariants as operation;

use crate::devices::{DevOp, LogDev};
use crate::disks::{Replay, overwrite};
use crate::schedules::{Failed, Schedule};
use crate::sources::copied;
use snap_base::{Memory, Sequence};
use std::alloc::Global;

/// A device in memory, which keeps its operations. A call that finds no memory is a fault too. A call that
/// fails leaves bytes and operations as they were.
#[derive(Drop)]
pub struct MemLog {
    alloc: Global,
    first: Sequence<u8>,
    bytes: Vec<u8>,
    ops: Vec<DevOp>,
    wanted: u64,
    schedule: Schedule,
    ghost same: { bytes.items ≡ content_of first ops.items },
}

impl MemLog {
    ghost use Rattle.std.specs.Prelude.{◌≡◌, ◌≢◌, ◌≤◌, [], vec_len, IfOk};
    ghost use Rattle.snap_outside.specs.Disk.{IsImage};
    ghost use Rattle.snap_outside.specs.Images.{filled_image};
    ghost use Rattle.snap_outside.specs.Causes.{Rose};
    ghost use Rattle.snap_outside.specs.MemoryLog.{history_of, disk_at};

    /// A device with these bytes whose calls with these numbers, from 1 on, fail.
    pub fn new(alloc: Global, bytes: Vec<u8>, fails: Vec<u64>) -> Result<Self, Memory>
        ensures first { IfOk result (λ d. d.first ≡ bytes.items) }
        ensures ops { IfOk result (λ d. d.ops.items ≡ []) }
        ensures bytes { IfOk result (λ d. d.bytes.items ≡ bytes.items) }
        ensures wanted { IfOk result (λ d. d.wanted ≡ 0) }
        ensures schedule { IfOk result (λ d. d.schedule ≡ record { fails = fails; calls = 0; faults = 0; late = 0 }) }
    {
        let first = bytes.as_slice().to_vec(alloc)?;
        Ok(MemLog {
            alloc,
            first: Sequence::from_vec(first),
            bytes,
            ops: Vec::new(alloc),
            wanted: 0,
            schedule: Schedule::new(fails),
        })
    }

    /// What a read of all bytes gives.
    pub fn bytes(&self) -> &[u8]
        ensures { result.now ≡ self.now.bytes.items }
    {
        self.bytes.as_slice()
    }

    /// The operations since it was made, in order.
    pub fn ops(&self) -> &[DevOp]
        ensures { result.now ≡ self.now.ops.items }
    {
        self.ops.as_slice()
    }

    /// How many of the faults were want of memory.
    pub fn wanted(&self) -> u64
        ensures { result ≡ self.now.wanted }
    {
        self.wanted
    }

    /// What a crash after so many of the operations leaves: at choice 0 nothing of what is not synced, at
    /// choice 2 all of it; any other choice is a byte, which stands at each place that is not fixed.
    pub fn image(&self, alloc: Global, ops: usize, choice: u8) -> Result<Vec<u8>, Memory>
        requires { ops ≤ vec_len self.now.ops }
        ensures image { IfOk result (λ v. IsImage (disk_at self.now ops) v.items) }
        ensures synced { choice ≡ 0 → IfOk result (λ v. v.items ≡ (disk_at self.now ops).synced) }
        ensures read { choice ≡ 2 → IfOk result (λ v. v.items ≡ (disk_at self.now ops).now) }
        ensures filled { choice ≢ 0 → choice ≢ 2 → IfOk result (λ v. v.items ≡ filled_image choice (disk_at self.now ops)) }
    {
        let disk = Replay::of(alloc, self.first.as_slice(), &self.ops[..ops])?;
        Ok(match choice {
            0 => disk.synced(),
            2 => disk.now(),
            byte => disk.filled(byte),
        })
    }

    /// Counts want of memory, which is a fault.
    fn want(&mut self) -> Failed
        ensures rose { Rose self.old.wanted self.new.wanted }
        ensures fault { Rose self.old.schedule.faults self.new.schedule.faults }
        ensures later { self.old.schedule.faults ≤ self.new.schedule.faults }
        ensures same { history_of self.new ≡ history_of self.old }
        ensures calls { (self.new.schedule.fails ≡ self.old.schedule.fails) × (self.new.schedule.calls ≡ self.old.schedule.calls) }
    {
        self.wanted = self.wanted.saturating_add(1);
        self.schedule.fault()
    }
}

/// Writes and keeps the operation, or does neither.
fn write_kept(
    alloc: Global,
    bytes: &mut Vec<u8>,
    ops: &mut Vec<DevOp>,
    at: u64,
    piece: &[u8],
) -> Result<(), Memory>
    requires { at ≤ vec_len bytes.old }
    ensures written { OnOk result (bytes.new.items ≡ overwritten bytes.old.items at piece.now) }
    ensures kept { OnOk result (ops.new.items ≡ ops.old.items ++ operation.Write at piece.now ∷ []) }
    ensures length { OnOk result (vec_len bytes.new ≡ max (vec_len bytes.old) (at + length piece.now)) }
    ensures same_bytes { OnErr result (bytes.new.items ≡ bytes.old.items) }
    ensures same_ops { OnErr result (ops.new.items ≡ ops.old.items) }
{
    let kept = Sequence::from_vec(piece.to_vec(alloc)?);
    ops.reserve(1)?;
    overwrite(bytes, at as usize, piece)?;
    ops.push(DevOp::Write { at, bytes: kept })?;
    Ok(())
}

impl LogDev for MemLog {
    ghost use Rattle.std.specs.Prelude.{◌≡◌, ◌+◌, ◌-◌, ◌≤◌, ◌⊎◌, ◌↔◌, min, max, length, take, drop, vec_len, Some, IfOk, IsErr, OnOk, MatchResult};
    ghost use Rattle.std.specs.Option.{ForSome};
    ghost use Rattle.snap_outside.specs.Causes.{Rose, HasCause};
    ghost use Rattle.snap_outside.specs.Disk.{with_op};
    ghost use Rattle.snap_outside.specs.Fakes.{OneCall};
    ghost use Rattle.snap_outside.specs.MemoryLog.{history_of, length_is, LogFailsNext};

    ghost told = { λ d. Some (history_of d) };

    ghost told_length = { λ d. Some (vec_len d.bytes) };

    ghost faults = { λ d. d.schedule.faults };

    fn len(&mut self) -> Result<u64, Failed>
        ensures told { IfOk result (λ n. n ≡ vec_len self.new.bytes) }
        ensures history { history_of self.new ≡ history_of self.old }
        ensures cause { HasCause self.old.schedule.faults self.new.schedule.faults result }
        ensures counted { OneCall self.old.schedule self.new.schedule }
        ensures quiet { OnOk result (self.new.schedule.faults ≡ self.old.schedule.faults) }
        ensures fails { IsErr result ↔ LogFailsNext self.old }
        ensures wanted { self.new.wanted ≡ self.old.wanted }
    {
        self.schedule.call()?;
        Ok(self.bytes.len() as u64)
    }

    fn read_at(&mut self, at: u64, buf: &mut [u8]) -> Result<usize, Failed>
        ensures count { IfOk result (λ n. n ≡ min (length buf.old) (vec_len self.old.bytes - at)) }
        ensures bytes { IfOk result (λ n. take n buf.new ≡ take n (drop at self.old.bytes.items)) }
        ensures history { history_of self.new ≡ history_of self.old }
        ensures same { vec_len self.new.bytes ≡ vec_len self.old.bytes }
        ensures cause { HasCause self.old.schedule.faults self.new.schedule.faults result }
        ensures counted { OneCall self.old.schedule self.new.schedule }
        ensures quiet { OnOk result (self.new.schedule.faults ≡ self.old.schedule.faults) }
        ensures fails { IsErr result ↔ LogFailsNext self.old }
        ensures wanted { self.new.wanted ≡ self.old.wanted }
    {
        self.schedule.call()?;
        let from = self.bytes.len().min(at as usize);
        Ok(copied(&self.bytes[from..], buf))
    }

    fn write_at(&mut self, at: u64, bytes: &[u8]) -> Result<(), Failed>
        requires { ForSome (Some (vec_len self.old.bytes)) (λ len. at ≤ len) }
        ensures length { OnOk result (vec_len self.new.bytes ≡ max (vec_len self.old.bytes) (at + length bytes.now)) }
        ensures history { MatchResult result
            (λ _. history_of self.new ≡ with_op (history_of self.old) (operation.Write at bytes.now))
            (λ _. history_of self.new ≡ history_of self.old) }
        ensures cause { HasCause self.old.schedule.faults self.new.schedule.faults result }
        ensures counted { OneCall self.old.schedule self.new.schedule }
        ensures quiet { OnOk result (self.new.schedule.faults ≡ self.old.schedule.faults) }
        ensures fails { LogFailsNext self.old → IsErr result × (self.new.wanted ≡ self.old.wanted) }
        ensures wanted { MatchResult result
            (λ _. self.new.wanted ≡ self.old.wanted)
            (λ _. LogFailsNext self.old ⊎ Rose self.old.wanted self.new.wanted) }
    {
        self.schedule.call()?;
        if write_kept(self.alloc, &mut self.bytes, &mut self.ops, at, bytes).is_err() {
            return Err(self.want());
        }
        Ok(())
    }

    fn sync(&mut self) -> Result<(), Failed>
        ensures same { vec_len self.new.bytes ≡ vec_len self.old.bytes }
        ensures history { MatchResult result
            (λ _. history_of self.new ≡ with_op (history_of self.old) operation.Sync)
            (λ _. history_of self.new ≡ history_of self.old) }
        ensures cause { HasCause self.old.schedule.faults self.new.schedule.faults result }
        ensures counted { OneCall self.old.schedule self.new.schedule }
        ensures quiet { OnOk result (self.new.schedule.faults ≡ self.old.schedule.faults) }
        ensures fails { LogFailsNext self.old → IsErr result × (self.new.wanted ≡ self.old.wanted) }
        ensures wanted { MatchResult result
            (λ _. self.new.wanted ≡ self.old.wanted)
            (λ _. LogFailsNext self.old ⊎ Rose self.old.wanted self.new.wanted) }
    {
        self.schedule.call()?;
        if self.ops.push(DevOp::Sync).is_err() {
            return Err(self.want());
        }
        Ok(())
    }

    ghost content_length = { length_is };
}
