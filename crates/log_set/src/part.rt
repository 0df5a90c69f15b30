//! One log as a part of the machine.
ghost use Rattle.std.specs.Prelude.{◌≡◌, ◌+◌, ◌<◌, ◌≤◌, [], ◌∷◌, drop, map, IsOk, IfOk, OnOk, OnErr};
ghost use Rattle.log_set.specs.Logs.{no_records, with_record, all_synced};
ghost use Rattle.txn_records.specs.Records.{key, record_bytes, IsRecord};
ghost use Rattle.protocol.specs.Effects.{no_log, added, synced};
ghost use Rattle.protocol.specs.Parts.{Log};
ghost use Rattle.protocol.specs.Records.{LogRecord};
ghost use Rattle.log_set.specs.Items.{item_of};
ghost use Rattle.log_set.specs.Shown.{ShowsLog, told_bytes};
ghost use Rattle.log_set.specs.Told.{told};

use crate::{Item, Pending};
use snap_base::{Memory, Sequence};
use std::alloc::Global;
use std::marker::Model;
use txn_records::Record;

/// One log of the machine: a `Pending` whose contracts speak of the logs that it shows. Contracts see its list side, and how
/// many more records there is room for.
pub struct LogPart {
    pub(crate) pending: Pending,
}

// Written out, so that a crate above calls it and does not repeat it.
impl Drop for LogPart {
    fn drop(self) {
        let LogPart { pending: _pending } = self;
    }
}

impl Model for LogPart {
    ghost use Rattle.log_set.specs.Logs.{PendingState};

    ghost Value = { PendingState };

    ghost view = { λ p. p.pending };
}

impl LogPart {
    /// A log with no record, as the machine has it before any event. `Memory` where room for its first records cannot be
    /// allocated.
    pub fn new(alloc: Global) -> Result<LogPart, Memory>
        ensures log { IfOk result (λ p. p.log ≡ no_records) }
        ensures shows { IfOk result (λ p. ShowsLog p.log no_log) }
    {
        Ok(LogPart {
            pending: Pending::new(alloc)?,
        })
    }

    /// Makes room for one more record, if there is none. `Memory` leaves the records as they were.
    pub fn room(&mut self, alloc: Global) -> Result<(), Memory>
        ensures log { self.new.log ≡ self.old.log }
        ensures spare { self.old.spare ≤ self.new.spare }
        ensures ok { OnOk result (0 < self.new.spare) }
        ensures succeeds { 0 < self.old.spare → IsOk result }
    {
        self.pending.room(alloc)
    }

    /// Adds a record that was spelled before, where there is room. It waits for the next sync.
    pub fn put(&mut self, alloc: Global, item: Item)
        requires { 0 < self.old.spare }
        ensures log { self.new.log ≡ with_record item.key item.bytes self.old.log }
        ensures spare { self.old.spare ≤ self.new.spare + 1 }
        ensures shows { (l : Log) (r : LogRecord) → item ≡ item_of (told r) → ShowsLog self.old.log l → ShowsLog self.new.log (added (r ∷ []) l) }
    {
        let Item { key, bytes } = item;
        // There is room for it.
        let _added = self.pending.add(alloc, key, bytes);
    }

    /// Spells a record and adds it, to wait for the next sync. For want of memory it is not added.
    pub fn add(&mut self, alloc: Global, written: &Record) -> Result<(), Memory>
        requires { IsRecord written.now }
        ensures ok { OnOk result (self.new.log ≡ with_record (key written.now) (record_bytes written.now) self.old.log) }
        ensures err { OnErr result (self.new.log ≡ self.old.log) }
        ensures spare { self.old.spare ≤ self.new.spare + 1 }
        ensures shows { (l : Log) (r : LogRecord) → written.now ≡ told r → ShowsLog self.old.log l → OnOk result (ShowsLog self.new.log (added (r ∷ []) l)) }
    {
        let item = Item::of(alloc, written)?;
        self.room(alloc)?;
        self.put(alloc, item);
        Ok(())
    }

    /// The bytes of the records that wait, in the order in which they were added.
    pub fn group(&self) -> &[Sequence<u8>]
        ensures log { result.now ≡ self.now.log.waiting }
        ensures shows { (l : Log) → ShowsLog self.now.log l → result.now ≡ map told_bytes (drop l.synced l.records) }
    {
        self.pending.group()
    }

    /// All records are synced: the device has them durably. The bytes of those that waited are given up.
    pub fn sync(&mut self)
        ensures log { self.new.log ≡ all_synced self.old.log }
        ensures spare { self.old.spare ≤ self.new.spare }
        ensures shows { (l : Log) → ShowsLog self.old.log l → ShowsLog self.new.log (synced l) }
    {
        self.pending.mark_synced();
    }
}
