//! The bytes that an append writes behind the closed gate.
ghost use Rattle.std.specs.Prelude.{◌≡◌, ◌+◌, ◌<◌, ◌≤◌, ◌^◌, [], ◌∷◌, ◌++◌, length, IfOk, OnOk};
ghost use Rattle.std.specs.List.{AllByRecursion};
ghost use Rattle.gate_log.specs.Bytes.{IsItem, item_bytes, items_bytes, group_bytes};

use crate::limits::{LARGEST_GROUP, LONGEST_ITEM};
use snap_base::{Memory, Sequence};
use std::alloc::Global;

const CLOSED: u8 = 0;

/// The bytes of a group and the closed gate behind it, in a buffer that has its whole room at first.
pub(crate) fn block_of(alloc: Global, items: &[Sequence<u8>]) -> Result<Vec<u8>, Memory>
    requires items { AllByRecursion IsItem items.now }
    requires short { length (items_bytes items.now) ≤ LARGEST_GROUP }
    ensures { IfOk result (λ block. block.items ≡ group_bytes items.now ++ 0 ∷ []) }
{
    let size = size_of_items(items);
    let mut block = Vec::with_capacity(alloc, size + 5)?;
    block.extend_from_slice(&(size as u32).to_be_bytes())?;
    for item in items {
        put_item(&mut block, item.as_slice())?;
    }
    block.push(CLOSED)?;
    Ok(block)
}

/// How many bytes the items take, each with its length.
fn size_of_items(items: &[Sequence<u8>]) -> usize
    requires short { length (items_bytes items.now) ≤ LARGEST_GROUP }
    ensures { result ≡ length (items_bytes items.now) }
{
    let mut size: usize = 0;
    for item in items {
        size += item.len() + 2;
    }
    size
}

/// Adds an item's length and its bytes.
fn put_item(block: &mut Vec<u8>, item: &[u8]) -> Result<(), Memory>
    requires { length item.now ≤ LONGEST_ITEM }
    ensures { OnOk result (block.new.items ≡ block.old.items ++ item_bytes item.now) }
{
    block.extend_from_slice(&(item.len() as u16).to_be_bytes())?;
    block.extend_from_slice(item)?;
    Ok(())
}
