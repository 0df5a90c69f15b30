//! The list of events that are allowed, in order.
ghost use Rattle.std.specs.Prelude.{◌≡◌, ◌+◌, ◌<◌, ◌≤◌, ◌==◌, ◌&&◌, ℕ, [], ◌++◌, filter, length, map, slice_get, Contains, OnErr, OnOk};
ghost use Rattle.std.specs.Option.{option_map};
ghost use Rattle.core_events.specs.Meant.{event_meant};
ghost use Rattle.protocol.specs.Events as machine;
ghost use Rattle.protocol_ready.specs.Ready.{put, without};
ghost use Rattle.ready_list.specs.Order.{first_of, kind_of, spare_of};

use crate::kinds::{KIND_BOUND, kind_of};
use crate::ring::Ring;
use crate::rings::{next_from, nth_from, nth_to, put_in, room_for, take_out};
use core_events::Event;
use snap_base::Memory;
use std::alloc::Global;
use std::marker::Model;

/// Events in order, each once. Contracts see them as the machine's, and for how many more of each kind there is room. They stand
/// in a ring for each kind, since what comes in or goes out of one kind moves nothing of the others, and mostly it goes behind
/// the last of its kind or is the first.
#[derive(Drop)]
pub struct ReadyList {
    alloc: Global,
    /// By kind, as far as there was room for an event of the kind.
    kinds: Vec<Ring>,
    /// How many events there are.
    count: usize,
    /// There are no events in the rings ahead of this one.
    first: usize,
}

impl Model for ReadyList {
    ghost use Rattle.ready_list.specs.Order.{RoomedList};
    ghost use Rattle.ready_list.specs.Rings.{AreByKind, all_events, spares};

    ghost Value = { RoomedList };

    ghost view = { λ l. record { events = all_events l.kinds.items; spare = spares l.kinds.items l.count } };

    ghost invariant = { λ l. AreByKind l.kinds.items l.count l.first };
}

impl ReadyList {
    /// No events.
    pub fn new(alloc: Global) -> ReadyList
        ensures { result.events ≡ [] }
    {
        ReadyList {
            alloc,
            kinds: Vec::new(alloc),
            count: 0,
            first: KIND_BOUND as usize,
        }
    }

    /// How many events there are.
    pub fn count(&self) -> usize
        ensures { result ≡ length self.now.events }
    {
        self.count
    }

    /// The n-th of them, from 0 on. `None` exactly where there are not so many. It is counted from the end that is nearer.
    pub fn nth(&self, n: usize) -> Option<Event>
        ensures { option_map event_meant result ≡ slice_get self.now.events n }
    {
        if n <= self.count / 2 || n >= self.count {
            return nth_from(self.kinds.as_slice(), self.first, n);
        }
        nth_to(self.kinds.as_slice(), self.count - 1 - n)
    }

    /// Those of this kind, in order, in two pieces, since they stand in a ring.
    pub fn of_kind(&self, kind: u8) -> (&[Event], &[Event])
        ensures { map event_meant (result.0.now ++ result.1.now) ≡ filter (λ f. kind_of f == kind) self.now.events }
    {
        match self.kinds.get(kind as usize) {
            Some(ring) => ring.pieces(),
            None => (&[], &[]),
        }
    }

    /// Those of this kind with this first number, in order, in two pieces. They are found by halves.
    pub fn of_number(&self, kind: u8, number: u64) -> (&[Event], &[Event])
        ensures { map event_meant (result.0.now ++ result.1.now) ≡ filter (λ f. (kind_of f == kind) && (first_of f == number)) self.now.events }
    {
        match self.kinds.get(kind as usize) {
            Some(ring) => ring.numbered(number),
            None => (&[], &[]),
        }
    }

    /// Makes room for as many more of the kind of each of these events as there are of them, and changes nothing else. `Memory`
    /// only where there was less room for one of these kinds; then there is as much as before, or more.
    pub fn room(&mut self, news: &[Event]) -> Result<(), Memory>
        ensures ok { OnOk result ((f : machine.Event) → Contains (map event_meant news.now) f → length news.now ≤ spare_of self.new (kind_of f)) }
        ensures needed { OnErr result ((f : machine.Event) × Contains (map event_meant news.now) f × (spare_of self.old (kind_of f) < length news.now)) }
        ensures unchanged { self.new.events ≡ self.old.events }
        ensures no_less { (k : ℕ) → spare_of self.old k ≤ spare_of self.new k }
    {
        if usize::MAX - self.count < news.len() {
            return Err(Memory);
        }
        room_for(self.alloc, &mut self.kinds, news)
    }

    /// Puts an event in, where it is not in.
    pub fn put(&mut self, e: Event)
        requires { 1 ≤ spare_of self.old (kind_of (event_meant e)) }
        ensures events { self.new.events ≡ put (event_meant e) self.old.events }
        ensures room { (k : ℕ) → spare_of self.old k ≤ spare_of self.new k + 1 }
    {
        let kind = kind_of(e) as usize;
        self.count += put_in(&mut self.kinds, kind, e);
        self.first = self.first.min(kind);
    }

    /// Takes an event out, where it is in.
    pub fn take(&mut self, e: Event)
        ensures events { self.new.events ≡ without (event_meant e) self.old.events }
        ensures no_less { (k : ℕ) → spare_of self.old k ≤ spare_of self.new k }
    {
        let kind = kind_of(e) as usize;
        if kind < self.kinds.len() {
            self.count -= take_out(&mut self.kinds, kind, e);
            self.first = next_from(self.kinds.as_slice(), self.first);
        }
    }
}
