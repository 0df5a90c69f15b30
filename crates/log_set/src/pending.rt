//! The records of one log by their keys: which are synced, and the bytes of the others.
ghost use Rattle.std.specs.Prelude.{◌≡◌, ◌+◌, ◌<◌, ◌≤◌, drop, length, IsOk, IfOk, OnOk, OnErr};
ghost use Rattle.log_set.specs.Logs.{no_records, with_record, all_synced, is_key_durable};

use crate::places::put_first;
use snap_base::{Memory, Sequence};
use std::alloc::Global;
use std::collections::HashMap;
use std::marker::Model;
use txn_records::Key;

/// So many records are added before room has to grow.
const FIRST_ROOM: usize = 64;

/// The records of one log, found by their keys. Contracts see its list side, and how many more can be added with no new memory.
#[derive(Drop)]
pub struct Pending {
    /// Of all records, in the order in which they were added.
    keys: Vec<Key>,
    /// Where each key stands first.
    places: HashMap<Key, usize>,
    /// How many records, from the first on, are synced.
    synced: usize,
    /// The bytes of the others.
    waiting: Vec<Sequence<u8>>,
}

impl Model for Pending {
    ghost use Rattle.std.specs.Prelude.{◌≡◌, ◌+◌, ◌-◌, length, min, vec_capacity};
    ghost use Rattle.std.specs.HashMap.{get, spare};
    ghost use Rattle.log_set.specs.Firsts.{ArePlaces};
    ghost use Rattle.log_set.specs.Keys.{key_eq};
    ghost use Rattle.log_set.specs.Logs.{PendingState};

    ghost Value = { PendingState };

    ghost view = { λ p. record {
      log = record { keys = p.keys.items; synced = p.synced; waiting = p.waiting.items };
      spare = min (spare p.places) (min (vec_capacity p.keys - length p.keys.items) (vec_capacity p.waiting - length p.waiting.items));
    } };

    ghost invariant = { λ p. ArePlaces (get key_eq p.places) p.keys.items × (p.synced + length p.waiting.items ≡ length p.keys.items) };
}

impl Pending {
    /// A list side with no record. `Memory` where room for the first ones cannot be allocated.
    pub fn new(alloc: Global) -> Result<Pending, Memory>
        ensures { IfOk result (λ p. p.log ≡ no_records) }
    {
        Ok(Pending {
            keys: Vec::with_capacity(alloc, FIRST_ROOM)?,
            places: HashMap::with_capacity(alloc, FIRST_ROOM)?,
            synced: 0,
            waiting: Vec::with_capacity(alloc, FIRST_ROOM)?,
        })
    }

    /// Makes room for one more record, if there is none. `Memory` leaves the records as they were.
    pub fn room(&mut self, _alloc: Global) -> Result<(), Memory>
        ensures log { self.new.log ≡ self.old.log }
        ensures spare { self.old.spare ≤ self.new.spare }
        ensures ok { OnOk result (0 < self.new.spare) }
        ensures succeeds { 0 < self.old.spare → IsOk result }
    {
        self.keys.reserve(1)?;
        self.waiting.reserve(1)?;
        self.places.reserve(1)?;
        Ok(())
    }

    /// Adds a record, which waits for the next sync. For want of memory it is not added; where there was room, there is
    /// no want.
    pub fn add(&mut self, alloc: Global, key: Key, bytes: Vec<u8>) -> Result<(), Memory>
        ensures ok { OnOk result (self.new.log ≡ with_record key bytes.items self.old.log) }
        ensures err { OnErr result (self.new.log ≡ self.old.log) }
        ensures succeeds { 0 < self.old.spare → IsOk result }
        ensures spare { self.old.spare ≤ self.new.spare + 1 }
    {
        self.room(alloc)?;
        self.put(key, bytes);
        Ok(())
    }

    /// Adds a record, for which there is room.
    fn put(&mut self, key: Key, bytes: Vec<u8>)
        requires { 0 < self.old.spare }
        ensures log { self.new.log ≡ with_record key bytes.items self.old.log }
        ensures spare { self.old.spare ≤ self.new.spare + 1 }
    {
        let place = self.keys.len();
        put_first(&mut self.places, key, place);
        // There is room for both.
        let _key = self.keys.push(key);
        let _bytes = self.waiting.push(Sequence::from_vec(bytes));
    }

    /// How many records are not synced: those behind the synced ones.
    pub fn waiting(&self) -> usize
        ensures waiting { result ≡ length self.now.log.waiting }
        ensures rest { self.now.log.synced + result ≡ length self.now.log.keys }
    {
        self.waiting.len()
    }

    /// The keys of the records that are not synced, in the order in which they were added.
    pub fn waiting_keys(&self) -> &[Key]
        ensures { result.now ≡ drop self.now.log.synced self.now.log.keys }
    {
        &self.keys.as_slice()[self.synced..]
    }

    /// The bytes of the records that are not synced, in the order in which they were added.
    pub fn group(&self) -> &[Sequence<u8>]
        ensures { result.now ≡ self.now.log.waiting }
    {
        self.waiting.as_slice()
    }

    /// All records are synced: the device has them durably. The bytes of those that waited are given up.
    pub fn mark_synced(&mut self)
        ensures log { self.new.log ≡ all_synced self.old.log }
        ensures spare { self.old.spare ≤ self.new.spare }
    {
        self.synced = self.keys.len();
        self.waiting.clear();
    }

    /// Whether a record with this key is synced, found in constant time.
    pub fn is_durable(&self, key: Key) -> bool
        ensures { result ≡ is_key_durable key self.now.log }
    {
        match self.places.get(&key) {
            Some(place) => *place < self.synced,
            None => false,
        }
    }
}
