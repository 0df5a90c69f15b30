//! The size of a group of items, where they may be appended.
ghost use Rattle.std.specs.Prelude.{◌≡◌, ◌≤◌, ◌^◌, length, IfSome, IfNone};
ghost use Rattle.std.specs.List.{AllByRecursion};
ghost use Rattle.gate_log.specs.Bytes.{IsItem, items_bytes};

use crate::limits::{LARGEST_GROUP, LONGEST_ITEM};
use snap_base::Sequence;

/// How many bytes the items take, each with its length; `None` where an item is empty or too long, or where
/// they are too many for a group.
pub(crate) fn size_of_group(items: &[Sequence<u8>]) -> Option<u64>
    ensures size { IfSome result (λ n. n ≡ length (items_bytes items.now)) }
    ensures items { IfSome result (λ _. AllByRecursion IsItem items.now) }
    ensures short { IfSome result (λ n. n ≤ LARGEST_GROUP) }
    ensures none { IfNone result (AllByRecursion IsItem items.now → length (items_bytes items.now) ≤ LARGEST_GROUP → ⊥) }
{
    let mut size: u64 = 0;
    for item in items {
        let len = item.len();
        if len == 0 || len > LONGEST_ITEM {
            return None;
        }
        size += len as u64 + 2;
        if size > LARGEST_GROUP {
            return None;
        }
    }
    Some(size)
}
