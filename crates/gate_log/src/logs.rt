//! A log on a device: its appends, its format and its upgrade.
ghost use Rattle.std.specs.Prelude.{◌≡◌, ◌↔◌, ◌≤◌, [], true, false, IsOk, IsErr, IsTrue, OnOk, IsErrOf, MatchResult};
ghost use Rattle.snap_outside.specs.Causes.{Rose};
ghost use Rattle.snap_outside.specs.Disk.{AddsAll};
ghost use Rattle.gate_log.specs.Appends.{append_ops, end_behind, upgrade_ops, AddsRefused};
ghost use Rattle.gate_log.specs.Device.{MayAppend, Appended, Crashes, UpgradesSafely, Upgraded};

use crate::appends::{append_group, write_mark};
use crate::blocks::block_of;
use crate::sizes::size_of_group;
use snap_base::Sequence;
use snap_outside::LogDev;
use std::alloc::Global;
use std::marker::Model;

/// Why nothing was appended, upgraded or cleared, or why it is not known.
#[derive(Clone, Copy, Debug, PartialEq, Eq)]
pub enum AppendNo {
    /// The device failed. The log is shut from now on: a crash leaves the list from before the call, or the one that the
    /// call makes.
    Device,
    /// An earlier call met a failing device, so the log is shut. No call of the device was made.
    Shut,
    /// There was no memory. No call of the device was made.
    Memory,
}

/// An item and the offset of its bytes in the file.
#[derive(Drop)]
pub struct LogItem {
    pub at: u64,
    pub bytes: Sequence<u8>,
}

/// A log on a device.
pub struct Log<D: LogDev> {
    pub(crate) alloc: Global,
    pub(crate) dev: D,
    pub(crate) end: u64,
    pub(crate) format: u8,
    pub(crate) shut: bool,
    pub(crate) found: Sequence<LogItem>,
}

impl<D: LogDev> Model for Log<D> {
    ghost use Rattle.std.specs.Prelude.{◌≡◌, false};
    ghost use Rattle.gate_log.specs.State.{LogState};
    ghost use Rattle.gate_log.specs.Device.{IsReadyDevice};

    ghost Value = { LogState };

    ghost view = { λ l. record { told = D.told l.dev; end = l.end; format = l.format; shut = l.shut; found = l.found; faults = D.faults l.dev } };

    ghost invariant = { λ l. l.shut ≡ false → IsReadyDevice (D.told l.dev) (D.told_length l.dev) l.end l.format };
}

impl<D: LogDev> Log<D> {
    ghost use Rattle.gate_log.specs.State.{IsUntouched};

    /// Whether the items may be appended: each has 1 to `LONGEST_ITEM` bytes, all of them together with two more
    /// bytes each have at most `LARGEST_GROUP`, and offsets behind them fit a `u64`.
    pub fn may_append(&self, items: &[Sequence<u8>]) -> bool
        ensures { IsTrue result ↔ MayAppend self.now.end items.now }
    {
        match size_of_group(items) {
            Some(size) => self
                .end
                .checked_add(size)
                .is_some_and(|end| end < u64::MAX - 7),
            None => false,
        }
    }

    /// Appends the items as one group, which is durable then. Nothing is written for an empty list. `Memory` and `Shut`
    /// leave the log and its device as they were; `Device` shuts the log, and a crash leaves the list with the group or
    /// without it.
    pub fn append(&mut self, alloc: Global, items: &[Sequence<u8>]) -> Result<(), AppendNo>
        requires items { MayAppend self.old.end items.now }
        requires format { self.old.format ≡ 2 }

        ensures appended { OnOk result (Appended self.old.told self.new.told self.old.end self.new.end items.now) }

        // A crash at any moment of the call leaves the list from before it, or that list with all that is added.
        ensures crashes { Crashes self.old.told self.new.told self.old.end items.now }

        // The device's history grew by the operations of the append, in order, up to the fault that ended them.
        ensures ops { MatchResult result
            (λ _. AddsAll self.old.told self.new.told (append_ops self.old.end items.now))
            (AddsRefused self.old.told self.new.told (append_ops self.old.end items.now)) }

        ensures grown { OnOk result (self.new.end ≡ end_behind self.old.end items.now) }
        ensures empty { items.now ≡ [] → IsUntouched self.old self.new × (self.old.shut ≡ false → IsOk result) }
        ensures end_kept { IsErr result → self.new.end ≡ self.old.end }
        ensures open { OnOk result (self.new.shut ≡ false) }

        ensures device { IsErrOf result AppendNo.Device → (self.new.shut ≡ true) × Rose self.old.faults self.new.faults }
        ensures shut { IsErrOf result AppendNo.Shut ↔ (self.old.shut ≡ true) }
        ensures shut_kept { IsErrOf result AppendNo.Shut → IsUntouched self.old self.new }
        ensures memory { IsErrOf result AppendNo.Memory → IsUntouched self.old self.new }

        ensures faults { self.old.faults ≤ self.new.faults }
        ensures found { self.new.found ≡ self.old.found }
        ensures format { self.new.format ≡ self.old.format }
    {
        if self.shut {
            return Err(AppendNo::Shut);
        }
        if items.is_empty() {
            return Ok(());
        }
        let Ok(block) = block_of(alloc, items) else {
            return Err(AppendNo::Memory);
        };
        match append_group(&mut self.dev, self.end, block.as_slice()) {
            Ok(()) => {
                self.end += block.len() as u64;
                Ok(())
            }
            Err(_) => {
                self.shut = true;
                Err(AppendNo::Device)
            }
        }
    }

    /// The log's format, 1 or 2. A log may be appended to where it is 2.
    pub fn format(&self) -> u8
        ensures { result ≡ self.now.format }
    {
        self.format
    }

    /// Makes the log one of format 2, with the items that it has. It takes no memory. `Shut` leaves the log and its
    /// device as they were; `Device` shuts the log, and a crash leaves its items in one of the two formats.
    pub fn upgrade(&mut self) -> Result<(), AppendNo>
        ensures upgraded { OnOk result (Upgraded self.old.told self.new.told self.old.end) }

        // A crash at any moment of the call leaves the list from before it, in one of the two formats.
        ensures crashes { UpgradesSafely self.old.told self.new.told self.old.end }

        ensures ops { MatchResult result
            (λ _. AddsAll self.old.told self.new.told upgrade_ops)
            (AddsRefused self.old.told self.new.told upgrade_ops) }

        ensures format { OnOk result (self.new.format ≡ 2) }
        ensures end_kept { self.new.end ≡ self.old.end }
        ensures open { OnOk result (self.new.shut ≡ false) }

        ensures device { IsErrOf result AppendNo.Device → (self.new.shut ≡ true) × Rose self.old.faults self.new.faults }
        ensures shut { IsErrOf result AppendNo.Shut ↔ (self.old.shut ≡ true) }
        ensures shut_kept { IsErrOf result AppendNo.Shut → IsUntouched self.old self.new }
        ensures memory { ¬ IsErrOf result AppendNo.Memory }

        ensures faults { self.old.faults ≤ self.new.faults }
        ensures found { self.new.found ≡ self.old.found }
    {
        if self.shut {
            return Err(AppendNo::Shut);
        }
        let Ok(()) = write_mark(&mut self.dev) else {
            self.shut = true;
            return Err(AppendNo::Device);
        };
        self.format = 2;
        Ok(())
    }

    /// The log's device. The log is given up.
    pub fn into_dev(self) -> D
        ensures told { D.told result ≡ self.told }
        ensures faults { D.faults result ≡ self.faults }
    {
        let Log {
            alloc: _,
            dev,
            end: _,
            format: _,
            shut: _,
            found: _,
        } = self;
        dev
    }
}
