//! The events of one kind, in order.
ghost use Rattle.std.specs.Prelude.{◌≡◌, ℕ, ◌+◌, ◌<◌, ◌≤◌, ◌==◌, [], ◌++◌, if◌then◌else◌, filter, length, map, slice_get, slice_index_or, true, OnErr, OnOk};
ghost use Rattle.std.specs.List.{insert, remove};
ghost use Rattle.std.specs.Option.{option_map};
ghost use Rattle.std.specs.VecDeque.{deque_len, deque_capacity};
ghost use Rattle.core_events.specs.Meant.{event_meant};
ghost use Rattle.protocol_ready.specs.Ready.{put, without};
ghost use Rattle.ready_list.specs.Order.{IsGap, first_of, is_lower, is_same, is_there, kind_of, numbers};
ghost use Rattle.ready_list.specs.Rings.{AreOfKind};

use crate::numbered::with_number;
use crate::places::{Place, place_of};
use core_events::Event;
use protocol_ready::{events_stay_in_order, ranks_are_in_order};
use snap_base::Memory;
use std::alloc::Global;
use std::collections::VecDeque;
use std::marker::Model;

/// Events of one kind in order, each once. Contracts see them as the machine's, and for how many more there is room. They stand
/// in a ring, so that what changes near one end moves only what stands there.
#[derive(Drop)]
pub(crate) struct Ring {
    events: VecDeque<Event>,
}

impl Model for Ring {
    ghost use Rattle.std.specs.Prelude.{◌-◌, map};
    ghost use Rattle.std.specs.VecDeque.{deque_len, deque_capacity};
    ghost use Rattle.core_events.specs.Meant.{event_meant};
    ghost use Rattle.protocol.specs.Schedule.{AscendByRank};
    ghost use Rattle.ready_list.specs.Rings.{RoomedRing};

    ghost Value = { RoomedRing };

    ghost view = { λ l. record { events = map event_meant l.events.items; spare = deque_capacity l.events - deque_len l.events } };

    ghost invariant = { λ l. AscendByRank (map event_meant l.events.items) };
}

impl Ring {
    /// No events.
    pub(crate) fn new(alloc: Global) -> Ring
        ensures { result.events ≡ [] }
    {
        Ring {
            events: VecDeque::new(alloc),
        }
    }

    /// How many events there are.
    pub(crate) fn count(&self) -> usize
        ensures { result ≡ length self.now.events }
    {
        self.events.len()
    }

    /// The n-th of them, from 0 on. `None` exactly where there are not so many.
    pub(crate) fn nth(&self, n: usize) -> Option<Event>
        ensures { option_map event_meant result ≡ slice_get self.now.events n }
    {
        self.events.get(n).copied()
    }

    /// All of them, in order, in two pieces, since they stand in a ring.
    pub(crate) fn pieces(&self) -> (&[Event], &[Event])
        ensures { map event_meant (result.0.now ++ result.1.now) ≡ self.now.events }
    {
        if self.events.is_empty() {
            return (&[], &[]);
        }
        self.events.as_slices()
    }

    /// Those with this first number, in order, in two pieces.
    pub(crate) fn numbered(&self, number: u64) -> (&[Event], &[Event])
        requires { (k : ℕ) × AreOfKind k self.now.events }
        ensures { map event_meant (result.0.now ++ result.1.now) ≡ filter (λ f. first_of f == number) self.now.events }
    {
        if self.events.is_empty() {
            return (&[], &[]);
        }
        let (head, tail) = self.events.as_slices();
        if tail.is_empty() {
            return (with_number(head, number), &[]);
        }
        (with_number(head, number), with_number(tail, number))
    }

    /// Makes room for so many more, and changes nothing else. `Memory` only where there was less room; then there is as much
    /// as before.
    pub(crate) fn room(&mut self, more: usize) -> Result<(), Memory>
        ensures ok { OnOk result (more ≤ self.new.spare) }
        ensures needed { OnErr result (self.old.spare < more) }
        ensures unchanged { self.new.events ≡ self.old.events }
        ensures no_less { self.old.spare ≤ self.new.spare }
    {
        if more <= self.events.capacity().saturating_sub(self.events.len()) {
            return Ok(());
        }
        self.events.reserve(more)?;
        Ok(())
    }

    // Where the event is, or would go.
    fn gap(&self, e: Event) -> usize
        requires { AreOfKind (kind_of (event_meant e)) self.now.events }
        ensures { IsGap self.now.events (event_meant e) result }
    {
        ranks_are_in_order();
        let place = place_of(e);
        let (head, tail) = self.events.as_slices();
        let mut low = 0;
        let mut high = self.events.len();
        while low < high {
            let middle = low + (high - low) / 2;
            if stands_before(event_at(head, tail, middle), &place) {
                low = middle + 1;
            } else {
                high = middle;
            }
        }
        low
    }

    // Whether the event would go behind all.
    fn is_behind_all(&self, e: Event) -> bool
        requires { AreOfKind (kind_of (event_meant e)) self.now.events }
        ensures { result ≡ true → IsGap self.now.events (event_meant e) (length self.now.events) }
    {
        ranks_are_in_order();
        match self.events.back() {
            None => true,
            Some(last) => stands_before(*last, &place_of(e)),
        }
    }

    // Whether the event is the first.
    fn is_first(&self, e: Event) -> bool
        requires { AreOfKind (kind_of (event_meant e)) self.now.events }
        ensures gap { result ≡ true → IsGap self.now.events (event_meant e) 0 }
        ensures there { result ≡ true → is_there self.now.events (event_meant e) 0 ≡ true }
    {
        ranks_are_in_order();
        match self.events.front() {
            None => false,
            Some(first) => is_same(*first, e),
        }
    }

    // Whether the event is at its gap.
    fn is_at(&self, at: usize, e: Event) -> bool
        requires { IsGap self.now.events (event_meant e) at }
        ensures { result ≡ is_there self.now.events (event_meant e) at }
    {
        at < self.events.len() && !place_of(e).is_below(&place_of(self.events[at]))
    }

    /// Puts an event in, where it is not in. Whether it was not. The last is looked at first, since mostly a new one goes behind it.
    pub(crate) fn put(&mut self, e: Event) -> bool
        requires kind { AreOfKind (kind_of (event_meant e)) self.old.events }
        requires room { 1 ≤ self.old.spare }
        ensures events { self.new.events ≡ put (event_meant e) self.old.events }
        ensures room { self.old.spare ≤ self.new.spare + 1 }
        ensures counted { length self.new.events ≡ length self.old.events + (if result then 1 else 0) }
    {
        events_stay_in_order();
        ranks_are_in_order();
        let count = self.events.len();
        if self.is_behind_all(e) {
            put_at(&mut self.events, count, e);
            return true;
        }
        let at = self.gap(e);
        if self.is_at(at, e) {
            return false;
        }
        put_at(&mut self.events, at, e);
        true
    }

    /// Takes an event out, where it is in. Whether it was. The first is looked at first, since mostly it is the one.
    pub(crate) fn take(&mut self, e: Event) -> bool
        requires { AreOfKind (kind_of (event_meant e)) self.old.events }
        ensures events { self.new.events ≡ without (event_meant e) self.old.events }
        ensures no_less { self.old.spare ≤ self.new.spare }
        ensures counted { length self.new.events + (if result then 1 else 0) ≡ length self.old.events }
    {
        events_stay_in_order();
        ranks_are_in_order();
        if self.is_first(e) {
            take_at(&mut self.events, 0);
            return true;
        }
        let at = self.gap(e);
        if !self.is_at(at, e) {
            return false;
        }
        take_at(&mut self.events, at);
        true
    }
}

// Whether the event stands before the place.
fn stands_before(e: Event, place: &Place) -> bool
    ensures { result ≡ is_lower (numbers (event_meant e)) place.now }
{
    place_of(e).is_below(place)
}

// Whether the two have the same numbers.
fn is_same(e: Event, other: Event) -> bool
    ensures { result ≡ is_same (numbers (event_meant e)) (numbers (event_meant other)) }
{
    place_of(e).is_same(&place_of(other))
}

// The event at this place in two pieces, of which the second follows the first.
fn event_at(head: &[Event], tail: &[Event], i: usize) -> Event
    requires { i < length (head.now ++ tail.now) }
    ensures { result ≡ slice_index_or (head.now ++ tail.now) i result }
{
    if i < head.len() {
        head[i]
    } else {
        tail[i - head.len()]
    }
}

// There is room. Of what stands before the place and what stands behind it the shorter moves.
fn put_at(events: &mut VecDeque<Event>, at: usize, e: Event)
    requires within { at ≤ length events.old.items }
    requires room { deque_len events.old < deque_capacity events.old }
    ensures items { events.new.items ≡ insert events.old.items at e }
    ensures len { deque_len events.new ≡ deque_len events.old + 1 }
    ensures capacity { deque_capacity events.old ≤ deque_capacity events.new }
{
    if at == events.len() {
        events.push_back_reserved(e);
    } else {
        match events.insert(at, e) {
            Ok(()) => {}
            Err(_) => {}
        }
    }
}

fn take_at(events: &mut VecDeque<Event>, at: usize)
    requires { at < length events.old.items }
    ensures items { events.new.items ≡ remove events.old.items at }
    ensures len { deque_len events.new + 1 ≡ deque_len events.old }
    ensures capacity { deque_capacity events.new ≡ deque_capacity events.old }
{
    if at == 0 {
        events.pop_front();
    } else {
        match events.remove(at) {
            Some(_) => {}
            None => {}
        }
    }
}
