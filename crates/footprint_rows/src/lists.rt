//! Lists of events.

use core_events::Event;
use ready_list::ReadyList;

/// Whether the event stands in the list.
pub fn is_listed(list: &ReadyList, event: Event) -> bool {
    for n in 0..list.count() {
        if list.nth(n) == Some(event) {
            return true;
        }
    }
    false
}

/// Whether the event at this place stands in the other list; also where there is none.
fn is_listed_at(some: &ReadyList, n: usize, all: &ReadyList) -> bool {
    match some.nth(n) {
        Some(event) => is_listed(all, event),
        None => true,
    }
}

/// Whether each of these events stands in the other list.
pub(crate) fn are_listed(some: &ReadyList, all: &ReadyList) -> bool {
    for n in 0..some.count() {
        if !is_listed_at(some, n, all) {
            return false;
        }
    }
    true
}
