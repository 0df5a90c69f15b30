//! The records that the items of a log are, or the first byte at which none goes on.
ghost use Rattle.std.specs.Prelude.{ℕ, ◌≤◌, List, IfOk, IfErr, MatchResult};
ghost use Rattle.gate_log.specs.Bytes.{IsPlacedLogAt};
ghost use Rattle.record_log.specs.Reading.{IsNearItem, IsNoItem};
ghost use Rattle.record_log.specs.Records.{IsItemOf, AreItemsOf, AreNoRecords};

use gate_log::{FARTHEST_END, LogItem};
use snap_base::{Memory, Sequence};
use std::alloc::Global;
use txn_records::{DecodeNo, Record, decode};

/// Why items are no records.
#[derive(Clone, Copy, Debug, PartialEq, Eq)]
pub enum ItemsNo {
    /// The offset in the file of the first byte at which no record goes on, in the first item that is none.
    BadRecord { offset: u64 },
    /// There was no memory.
    Memory,
}

impl From<Memory> for ItemsNo {
    ghost use Rattle.std.specs.Prelude.{◌≡◌};
    ghost use Rattle.record_log.specs.declared.items.ItemsNo.TheVariants as no;

    ghost from_gives = { λ _ e. e ≡ no.Memory };

    fn from(_error: Memory) -> ItemsNo {
        ItemsNo::Memory
    }
}

/// The records that the items of a log are, in order; or the place of the first byte at which no record goes on.
#[tactic(auto, using(crate::proofs::Reading::records_more, crate::proofs::Reading::stops_at))]
pub fn records_of(alloc: Global, items: &[LogItem]) -> Result<Sequence<Record>, ItemsNo>
    // The items are ones that a log was found to have.
    requires { (bytes : List ℕ) × (end : ℕ) × IsPlacedLogAt bytes end items.now × (end ≤ FARTHEST_END) }
    ensures found { IfOk result (λ rs. AreItemsOf items.now rs) }
    ensures refused { IfErr result (λ no. AreNoRecords items.now no) }
{
    let Ok(room) = Vec::with_capacity(alloc, items.len()) else {
        return Err(ItemsNo::Memory);
    };
    let mut records = Sequence::from_vec(room);
    for item in items {
        match record_of(alloc, item) {
            Ok(record) => records.push(record)?,
            Err(no) => return Err(no),
        }
    }
    Ok(records)
}

/// The record that an item is.
fn record_of(alloc: Global, item: &LogItem) -> Result<Record, ItemsNo>
    requires { IsNearItem item.now }
    ensures { MatchResult result (IsItemOf item.now) (IsNoItem item.now) }
{
    match decode(alloc, item.bytes.as_slice()) {
        Ok(record) => Ok(record),
        Err(DecodeNo::Bad { offset }) => Err(ItemsNo::BadRecord {
            offset: item.at + offset as u64,
        }),
        Err(DecodeNo::Memory) => Err(ItemsNo::Memory),
    }
}
