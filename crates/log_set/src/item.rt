//! A record that is spelled before it is added.
ghost use Rattle.std.specs.Prelude.{◌≡◌, IfOk};
ghost use Rattle.log_set.specs.Items.{item_of};
ghost use Rattle.txn_records.specs.Records.{IsRecord};

use snap_base::Memory;
use std::alloc::Global;
use std::marker::Model;
use txn_records::{Key, Record, encode, key_of};

/// A record as a log takes it: what it is about, and its bytes.
#[derive(Drop)]
pub struct Item {
    pub(crate) key: Key,
    pub(crate) bytes: Vec<u8>,
}

impl Model for Item {
    ghost use Rattle.log_set.specs.Items as items;

    ghost Value = { items.Item };

    ghost view = { λ i. record { key = i.key; bytes = i.bytes.items } };
}

impl Item {
    /// Spells a record: its key and its bytes. `Memory` is the only refusal.
    pub fn of(alloc: Global, written: &Record) -> Result<Item, Memory>
        requires { IsRecord written.now }
        ensures { IfOk result (λ i. i ≡ item_of written.now) }
    {
        Ok(Item {
            key: key_of(written),
            bytes: encode(alloc, written)?,
        })
    }
}
