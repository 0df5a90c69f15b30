//! Messages of one kind, found by key and kept with their order of posting.
ghost use Rattle.std.specs.Prelude.{◌≡◌, ◌+◌, ◌^◌, ◌<◌, ◌≤◌, not, is_some, None, [], ◌∷◌, ◌++◌, length, filter, IsOk, IfOk, IfErr, OnOk, OnErr};
ghost use Rattle.std.specs.Option.{option_copied};
ghost use Rattle.std.specs.Map.{lookup};

use crate::numbered::Numbered;
use indexmap::IndexMap;
use snap_base::Memory;
use std::alloc::{AllocFailed, Global};
use std::hash::Hash;
use std::marker::Model;

/// For how many messages there is room at first.
const FIRST_ROOM: usize = 64;

/// Messages by key, in the order of posting.
///
/// A message that is taken leaves its place to the one that is kept last, so that a take moves one message only. The
/// order is that of the numbers which the messages got when they were posted.
#[derive(Drop)]
pub struct Posted<K: Eq + Hash, M> {
    pub(crate) messages: IndexMap<K, Numbered<M>>,
    /// The number of the next message.
    next: u64,
}

impl<K: Eq + Hash, M> Model for Posted<K, M> {
    ghost use Rattle.std.specs.Prelude.{◌^◌, ◌-◌, min};
    ghost use Rattle.post_box.specs.Messages.{Messages};

    ghost Value = { Messages K M };

    ghost use Rattle.indexmap.specs.IndexMap.{IsUnique, spare as spare_of};
    ghost use Rattle.post_box.specs.Order.{IsNumbered};
    ghost use Rattle.post_box.specs.Kept.{entry_number, in_posting_order};

    ghost view = { λ p. record { entries = in_posting_order p.next p.messages.entries; spare = min (spare_of p.messages) (2 ^ 64 - 1 - p.next) } };

    ghost invariant = { λ p. IsUnique K.eq p.messages × IsNumbered entry_number p.next p.messages.entries };
}

impl<K: Eq + Hash + Drop, M: Drop> Posted<K, M> {
    /// No messages.
    pub(crate) fn new(alloc: Global) -> Result<Self, Memory>
        ensures { IfOk result (λ posted. posted.entries ≡ []) }
    {
        Ok(Posted {
            messages: IndexMap::with_capacity(alloc, FIRST_ROOM)?,
            next: 0,
        })
    }

    /// Makes room for so many more. The messages stay, and there is never less room than before.
    pub(crate) fn room(&mut self, more: usize) -> Result<(), Memory>
        ensures entries { self.new.entries ≡ self.old.entries }
        ensures ok { OnOk result (more ≤ self.new.spare) }
        ensures spare { self.old.spare ≤ self.new.spare }
    {
        // The numbers last for 2^64 messages, more than any run posts.
        if u64::MAX - self.next < more as u64 {
            return Err(Memory);
        }
        self.messages.reserve(more)?;
        Ok(())
    }

    /// Posts a message at a key that has none. It fails for want of room, and hands the message back.
    pub(crate) fn put(&mut self, key: K, message: M) -> Result<(), M>
        requires { lookup (K.eq key) self.old.entries ≡ None }
        ensures ok { OnOk result (self.new.entries ≡ self.old.entries ++ (key, message) ∷ []) }
        ensures err { OnErr result (self.new.entries ≡ self.old.entries) }
        ensures back { IfErr result (λ left. left ≡ message) }
        ensures succeeds { 0 < self.old.spare → IsOk result }
        ensures spare { self.old.spare ≤ self.new.spare + 1 }
    {
        let number = self.next;
        if number == u64::MAX {
            return Err(message);
        }
        match self.messages.insert(key, Numbered { number, message }) {
            Ok(_) => {
                self.next = number + 1;
                Ok(())
            }
            Err(
                AllocFailed {
                    value: (_, numbered),
                },
            ) => Err(numbered.message),
        }
    }

    /// The message at a key.
    pub(crate) fn get(&self, key: &K) -> Option<&M>
        ensures { option_copied result ≡ lookup (K.eq key.now) self.now.entries }
    {
        match self.messages.get(key) {
            Some(numbered) => Some(&numbered.message),
            None => None,
        }
    }

    pub(crate) fn contains(&self, key: &K) -> bool
        ensures { result ≡ is_some (lookup (K.eq key.now) self.now.entries) }
    {
        self.messages.contains_key(key)
    }

    /// Takes the message at a key out. There is never less room than before.
    pub(crate) fn take(&mut self, key: &K) -> Option<M>
        ensures value { result ≡ lookup (K.eq key.now) self.old.entries }
        ensures entries { self.new.entries ≡ filter (λ entry. not (K.eq key.now entry.0)) self.old.entries }
        ensures spare { self.old.spare ≤ self.new.spare }
    {
        let numbered = self.messages.swap_remove(key)?;
        Some(numbered.message)
    }

    pub(crate) fn len(&self) -> usize
        ensures len { result ≡ length self.now.entries }
        ensures small { result < 2 ^ 63 }
    {
        self.messages.len()
    }
}
