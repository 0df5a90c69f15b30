//! The rings of all kinds, in which the events of kind k stand at place k.
ghost use Rattle.std.specs.Prelude.{◌≡◌, ◌+◌, ◌<◌, ◌≤◌, ℕ, length, map, slice_get, Contains, OnErr, OnOk};
ghost use Rattle.std.specs.Option.{option_map};
ghost use Rattle.core_events.specs.Meant.{event_meant};
ghost use Rattle.protocol.specs.Events as machine;
ghost use Rattle.protocol_ready.specs.Ready.{put, without};
ghost use Rattle.ready_list.specs.Order.{kind_of};
ghost use Rattle.ready_list.specs.Rings.{AreOfKind, AreRoomier, IsOneChanged, NoneAhead, all_events, events_at, spare_at};

use crate::kinds::kind_of;
use crate::ring::Ring;
use core_events::Event;
use snap_base::Memory;
use std::alloc::Global;

/// The n-th of all events, of which there are none ahead of the first ring. `None` exactly where there are not so many.
pub(crate) fn nth_from(kinds: &[Ring], first: usize, n: usize) -> Option<Event>
    requires { NoneAhead kinds.now first }
    ensures { option_map event_meant result ≡ slice_get (all_events kinds.now) n }
{
    let mut left = n;
    for k in first..kinds.len() {
        let ring = &kinds[k];
        let count = ring.count();
        if left < count {
            return ring.nth(left);
        }
        left -= count;
    }
    None
}

/// The one of all events behind which so many stand, where there is one.
pub(crate) fn nth_to(kinds: &[Ring], behind: usize) -> Option<Event>
    ensures { (n : ℕ) → n + behind + 1 ≡ length (all_events kinds.now) → option_map event_meant result ≡ slice_get (all_events kinds.now) n }
{
    let mut left = behind;
    let mut k = kinds.len();
    while k > 0 {
        k -= 1;
        let ring = &kinds[k];
        let count = ring.count();
        if left < count {
            return ring.nth(count - 1 - left);
        }
        left -= count;
    }
    None
}

/// The first ring from this one on that has events, or the number of rings.
pub(crate) fn next_from(kinds: &[Ring], first: usize) -> usize
    requires { NoneAhead kinds.now first }
    ensures { NoneAhead kinds.now result }
{
    for k in first..kinds.len() {
        let ring = &kinds[k];
        if ring.count() != 0 {
            return k;
        }
    }
    kinds.len()
}

/// Makes the rings up to this kind, where there are none, and room for so many more in that of this kind. It changes nothing
/// else. `Memory` only where there was less room.
fn room_at(alloc: Global, kinds: &mut Vec<Ring>, kind: usize, more: usize) -> Result<(), Memory>
    requires { 1 ≤ more }
    ensures ok { OnOk result (more ≤ spare_at kinds.new.items kind) }
    ensures needed { OnErr result (spare_at kinds.old.items kind < more) }
    ensures kept { AreRoomier kinds.old.items kinds.new.items }
{
    grow(alloc, kinds, kind)?;
    room_in(kinds, kind, more)
}

/// Makes the rings up to this kind, where there are none. `Memory` only where there was none of it.
fn grow(alloc: Global, kinds: &mut Vec<Ring>, kind: usize) -> Result<(), Memory>
    ensures ok { OnOk result (kind < length kinds.new.items) }
    ensures needed { OnErr result (length kinds.old.items ≤ kind) }
    ensures kept { AreRoomier kinds.old.items kinds.new.items }
{
    while kinds.len() <= kind {
        kinds.push(Ring::new(alloc))?;
    }
    Ok(())
}

/// Makes room for so many more in the ring of this kind.
fn room_in(kinds: &mut [Ring], kind: usize, more: usize) -> Result<(), Memory>
    requires { kind < length kinds.old }
    ensures ok { OnOk result (more ≤ spare_at kinds.new kind) }
    ensures needed { OnErr result (spare_at kinds.old kind < more) }
    ensures kept { AreRoomier kinds.old kinds.new }
{
    let ring = &mut kinds[kind];
    ring.room(more)
}

/// Makes room for so many more in the ring of each of the events. It changes nothing else. `Memory` only where there was less
/// room in one of these rings.
pub(crate) fn room_for(alloc: Global, kinds: &mut Vec<Ring>, news: &[Event]) -> Result<(), Memory>
    ensures ok { OnOk result ((f : machine.Event) → Contains (map event_meant news.now) f → length news.now ≤ spare_at kinds.new.items (kind_of f)) }
    ensures needed { OnErr result ((f : machine.Event) × Contains (map event_meant news.now) f × (spare_at kinds.old.items (kind_of f) < length news.now)) }
    ensures kept { AreRoomier kinds.old.items kinds.new.items }
{
    for e in news {
        room_at(alloc, kinds, kind_of(*e) as usize, news.len())?;
    }
    Ok(())
}

/// Puts an event into the ring of its kind, where it is not in. How many have come in.
pub(crate) fn put_in(kinds: &mut [Ring], kind: usize, e: Event) -> usize
    requires within { kind < length kinds.old }
    requires kind { AreOfKind (kind_of (event_meant e)) (events_at kinds.old kind) }
    requires room { 1 ≤ spare_at kinds.old kind }
    ensures others { IsOneChanged kind kinds.old kinds.new }
    ensures events { events_at kinds.new kind ≡ put (event_meant e) (events_at kinds.old kind) }
    ensures room { spare_at kinds.old kind ≤ spare_at kinds.new kind + 1 }
    ensures counted { length (events_at kinds.new kind) ≡ length (events_at kinds.old kind) + result }
    ensures few { result ≤ 1 }
{
    let ring = &mut kinds[kind];
    if ring.put(e) { 1 } else { 0 }
}

/// Takes an event out of the ring of its kind, where it is in. How many have gone out.
pub(crate) fn take_out(kinds: &mut [Ring], kind: usize, e: Event) -> usize
    requires within { kind < length kinds.old }
    requires kind { AreOfKind (kind_of (event_meant e)) (events_at kinds.old kind) }
    ensures others { IsOneChanged kind kinds.old kinds.new }
    ensures events { events_at kinds.new kind ≡ without (event_meant e) (events_at kinds.old kind) }
    ensures no_less { spare_at kinds.old kind ≤ spare_at kinds.new kind }
    ensures counted { length (events_at kinds.new kind) + result ≡ length (events_at kinds.old kind) }
{
    let ring = &mut kinds[kind];
    if ring.take(e) { 1 } else { 0 }
}
