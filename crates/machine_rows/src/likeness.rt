//! Two cores and two lists of events, compared.

use footprint_rows::FootprintCore;
use ready_list::ReadyList;
use snap_base::{ActorId, TxNo};
use snap_core::Core;

/// Texts have at most so many transactions, and at most so many actors.
pub const MOST: u8 = 16;

/// Whether the lists have the same events in one order.
pub fn are_same(one: &ReadyList, other: &ReadyList) -> bool {
    for n in 0..one.count() {
        if one.nth(n) != other.nth(n) {
            return false;
        }
    }
    one.count() == other.count()
}

/// Whether the same became of each transaction in both.
fn same_verdicts(core: &Core, few: &FootprintCore) -> bool {
    for n in 0..MOST as u32 {
        if few.verdict(TxNo(n)) != core.verdict(TxNo(n)) {
            return false;
        }
    }
    true
}

/// Whether the actor has the same state in both, if there is one.
fn same_state(core: &Core, few: &FootprintCore, a: ActorId) -> bool {
    if a.0 as usize >= core.tables().opening.states.len() {
        return true;
    }
    few.state(a) == Some(core.state(a))
}

/// Whether both tell the same verdict of each of the first 16 transactions, and the same state of each of the first 16 actors of
/// the text.
pub fn tell_the_same(core: &Core, few: &FootprintCore) -> bool {
    for a in 0..MOST as u16 {
        if !same_state(core, few, ActorId(a)) {
            return false;
        }
    }
    same_verdicts(core, few)
}
