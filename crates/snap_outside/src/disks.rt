//! The disk that a list of operations leaves, played again over its first bytes.
ghost use Rattle.std.specs.Prelude.{◌≡◌, ◌+◌, ◌≤◌, max, reverse, length, vec_len, IfOk, OnOk, OnErr};
ghost use Rattle.snap_outside.specs.Disk.{Disk, settled, overwritten, op_done, disk_after};
ghost use Rattle.snap_outside.specs.Images.{filled, filled_image};
ghost use Rattle.snap_outside.specs.declared.devices.DevOp.TheVariants as operation;

use crate::devices::DevOp;
use snap_base::Memory;
use std::alloc::Global;
use std::marker::Model;

/// The disk that operations make, one after the other.
#[derive(Drop)]
pub(crate) struct Replay {
    synced: Vec<u8>,
    now: Vec<u8>,
    // oldest first
    loose: Vec<(u64, usize)>,
}

impl Model for Replay {
    ghost Value = { Disk };

    ghost view = { λ r. record { synced = r.synced.items; now = r.now.items; loose = reverse r.loose.items } };
}

impl Replay {
    /// The disk after these operations on a disk with these bytes, all of them fixed.
    pub(crate) fn of(alloc: Global, first: &[u8], ops: &[DevOp]) -> Result<Self, Memory>
        ensures { IfOk result (λ r. r ≡ disk_after ops.now (settled first.now)) }
    {
        let mut replay = Replay::new(alloc, first)?;
        for op in ops {
            replay.make(op)?;
        }
        Ok(replay)
    }

    fn new(alloc: Global, first: &[u8]) -> Result<Self, Memory>
        ensures { IfOk result (λ r. r ≡ settled first.now) }
    {
        Ok(Replay {
            synced: first.to_vec(alloc)?,
            now: first.to_vec(alloc)?,
            loose: Vec::new(alloc),
        })
    }

    fn make(&mut self, op: &DevOp) -> Result<(), Memory>
        ensures { OnOk result (self.new ≡ op_done op.now self.old) }
    {
        match op {
            DevOp::Write { at, bytes } => self.write(*at, bytes.as_slice()),
            DevOp::Sync => self.sync(),
        }
    }

    fn write(&mut self, at: u64, piece: &[u8]) -> Result<(), Memory>
        ensures { OnOk result (self.new ≡ op_done (operation.Write at piece.now) self.old) }
    {
        let from = self.now.len().min(at as usize);
        overwrite(&mut self.now, from, piece)?;
        self.loose.push((at, piece.len()))?;
        Ok(())
    }

    fn sync(&mut self) -> Result<(), Memory>
        ensures { OnOk result (self.new ≡ op_done operation.Sync self.old) }
    {
        self.synced.clear();
        self.synced.extend_from_slice(self.now.as_slice())?;
        self.loose.clear();
        Ok(())
    }

    /// What the last sync fixed.
    pub(crate) fn synced(self) -> Vec<u8>
        ensures { result.items ≡ self.synced }
    {
        self.synced
    }

    /// What a read gives.
    pub(crate) fn now(self) -> Vec<u8>
        ensures { result.items ≡ self.now }
    {
        self.now
    }

    /// What a read gives, with each place that a crash may change filled with the byte.
    pub(crate) fn filled(self, byte: u8) -> Vec<u8>
        ensures { result.items ≡ filled_image byte self }
    {
        let end = self.now.len();
        let mut bytes = self.now;
        for (at, size) in self.loose.as_slice() {
            fill(&mut bytes, *at, *size, byte);
        }
        fill(&mut bytes, self.synced.len() as u64, end, byte);
        bytes
    }
}

/// Writes a piece over what is there and past the end. For want of memory all stays as it was.
pub(crate) fn overwrite(to: &mut Vec<u8>, at: usize, piece: &[u8]) -> Result<(), Memory>
    requires { at ≤ vec_len to.old }
    ensures written { OnOk result (to.new.items ≡ overwritten to.old.items at piece.now) }
    ensures length { OnOk result (vec_len to.new ≡ max (vec_len to.old) (at + length piece.now)) }
    ensures same { OnErr result (to.new.items ≡ to.old.items) }
{
    let over = piece.len().min(to.len() - at);
    to.extend_from_slice(&piece[over..])?;
    to[at..at + over].copy_from_slice(&piece[..over]);
    Ok(())
}

/// Fills a range of the bytes, as far as they go.
fn fill(bytes: &mut Vec<u8>, at: u64, size: usize, byte: u8)
    ensures { bytes.new.items ≡ filled byte (record { 0 = at; 1 = size }) bytes.old.items }
{
    let from = bytes.len().min(at as usize);
    let end = from + size.min(bytes.len() - from);
    bytes[from..end].fill(byte);
}
