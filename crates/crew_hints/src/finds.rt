//! What a worker found, and has left to try.
use crate::follows::Mark;
use crate::kinds::{KINDS, Kind, kind_of, place_of};
use core_events::Event;
use snap_base::Memory;
use std::alloc::Global;
use std::collections::VecDeque;

/// How many events of a kind there is room for from the beginning on.
const ROOM: usize = 64;

/// Events that a worker has left to try, by their kinds. Of one kind they stand in the order in which they were found.
pub struct Finds {
    /// For each kind, those of it.
    queues: Vec<VecDeque<Event>>,
    /// For each kind a bit, from the lowest on: whether there are some of it.
    some: u64,
    /// The bits of the kinds that are tried in their order: all but Syncs, and but Runs where these are for whoever comes first.
    soon: u64,
    /// What the event that was just done may have made allowed.
    pub news: Vec<Event>,
    /// Whether the ring is to be looked at.
    ring: bool,
    /// How many logs there are of which the book is to be looked at for decisions.
    books: u8,
    /// What was taken over from other workers.
    pub(crate) heard: Vec<Event>,
    /// What lacked a part, and could not be left to the worker that has it.
    later: Vec<Event>,
}

// Written out, since a derived drop is proved again in each crate that lets a worker go.
impl Drop for Finds {
    fn drop(self) {
        let Finds {
            queues: _queues,
            some: _,
            soon: _,
            news: _news,
            ring: _,
            books: _,
            heard: _heard,
            later: _later,
        } = self;
    }
}

/// The bit of a kind.
fn bit_of(place: u32) -> u64 {
    1u64.wrapping_shl(place)
}

impl Finds {
    /// Nothing yet, but that the ring is to be looked at. `Memory` where there is none for the queues.
    pub fn new(alloc: Global) -> Result<Self, Memory> {
        let mut queues = Vec::with_capacity(alloc, KINDS)?;
        for _kind in 0..KINDS {
            queues.push(VecDeque::with_capacity(alloc, ROOM)?)?;
        }
        Ok(Finds {
            queues,
            some: 0,
            soon: !(bit_of(place_of(Kind::Slice)) | bit_of(place_of(Kind::Sync))),
            news: Vec::with_capacity(alloc, ROOM)?,
            ring: true,
            books: 0,
            heard: Vec::with_capacity(alloc, ROOM)?,
            later: Vec::new(alloc),
        })
    }

    /// One event more. False where there was no memory for it: then it is left out.
    pub fn put(&mut self, e: Event) -> bool {
        let place = place_of(kind_of(e));
        let Some(queue) = self.queues.get_mut(place as usize) else {
            return false;
        };
        if queue.push_back(e).is_err() {
            return false;
        }
        self.some |= bit_of(place);
        true
    }

    fn has(&self, kind: Kind) -> bool {
        self.some & bit_of(place_of(kind)) != 0
    }

    /// The first of this kind, which is left no more; `None` where there is none.
    fn next_at(&mut self, place: u32) -> Option<Event> {
        let queue = self.queues.get_mut(place as usize)?;
        let e = queue.pop_front();
        if queue.is_empty() {
            self.some &= !bit_of(place);
        }
        e
    }

    /// Whether Runs are tried in their order too: where they are not for whoever comes first.
    pub fn keep_runs(&mut self, kept: bool) {
        let slices = bit_of(place_of(Kind::Slice));
        self.soon = if kept {
            self.soon | slices
        } else {
            self.soon & !slices
        };
    }

    /// Whether there is something to try, but Syncs, the replies behind a Sync, and Runs that are not kept.
    pub fn has_next(&self) -> bool {
        let replies = bit_of(place_of(Kind::Reply));
        let some = self.some & self.soon;
        some & !replies != 0 || (some != 0 && !self.has(Kind::Sync))
    }

    /// The first of these, which is left no more; `None` where there is none.
    pub fn next(&mut self) -> Option<Event> {
        if self.has_next() {
            self.next_at((self.some & self.soon).trailing_zeros())
        } else {
            None
        }
    }

    /// The first Sync, which is left no more.
    pub fn next_sync(&mut self) -> Option<Event> {
        self.next_at(place_of(Kind::Sync))
    }

    /// The first Run, which is left no more.
    pub fn next_run(&mut self) -> Option<Event> {
        self.next_at(place_of(Kind::Slice))
    }

    /// The ring is to be looked at.
    pub fn mark_ring(&mut self) {
        self.ring = true;
    }

    /// The book is to be looked at for decisions, for each of so many logs.
    pub fn mark_book(&mut self, logs: u8) {
        self.books = logs;
    }

    /// The next mark, which is gone then.
    pub fn next_mark(&mut self) -> Option<Mark> {
        if self.ring {
            self.ring = false;
            return Some(Mark::Ring);
        }
        if self.books > 0 {
            self.books -= 1;
            return Some(Mark::Book(self.books));
        }
        None
    }

    /// What was taken over is left to try.
    pub fn keep_heard(&mut self) {
        for _event in 0..self.heard.len() {
            if let Some(e) = self.heard.pop() {
                let _kept = self.put(e);
            }
        }
    }

    /// An event that is tried again in a while.
    pub fn put_off(&mut self, e: Event) {
        let _kept = self.later.push(e);
    }

    /// What was put off is left to try.
    pub fn keep_later(&mut self) {
        for _event in 0..self.later.len() {
            if let Some(e) = self.later.pop() {
                let _kept = self.put(e);
            }
        }
    }
}
