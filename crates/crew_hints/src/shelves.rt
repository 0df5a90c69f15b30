//! Lists by which workers leave events to each other.
use core_events::Event;
use std::alloc::Global;
use std::collections::VecDeque;
use std::hint;
use std::sync::atomic::{AtomicU64, Ordering};
use std::sync::{Mutex, MutexGuard};

/// How often a list is tried that another worker has. It has it for as long as a few of these tries take.
const TRIES: usize = 32;

/// Events in the order in which they were left there, with room for so many from the beginning on: no memory is taken while a worker
/// has the list.
#[derive(Drop)]
pub(crate) struct Shelf {
    list: Mutex<VecDeque<Event>>,
    /// How many there are.
    count: AtomicU64,
}

impl Shelf {
    /// A list with room for so many; with none where there is no memory for that.
    pub fn new(alloc: Global, room: usize) -> Self {
        let list = match VecDeque::with_capacity(alloc, room) {
            Ok(list) => list,
            Err(_) => VecDeque::new(alloc),
        };
        Shelf {
            list: Mutex::new(list),
            count: AtomicU64::new(0),
        }
    }

    /// The list, unless another worker has it for long.
    fn open(&self) -> Option<MutexGuard<'_, VecDeque<Event>>> {
        for _try in 0..TRIES {
            let opened = self.list.try_lock();
            if opened.is_some() {
                return opened;
            }
            hint::spin_loop();
        }
        None
    }

    /// How many there are.
    pub fn count(&self) -> u64 {
        self.count.load(Ordering::SeqCst)
    }

    /// One event more. False where there is no room, or another worker has the list.
    pub fn put(&self, e: Event) -> bool {
        let Some(mut list) = self.open() else {
            return false;
        };
        if list.len() >= list.capacity() {
            return false;
        }
        let kept = list.push_back(e).is_ok();
        self.count.store(list.len() as u64, Ordering::SeqCst);
        kept
    }

    /// The first event, which is taken out; `None` where there is none, or another worker has the list.
    pub fn take_first(&self) -> Option<Event> {
        if self.count() == 0 {
            return None;
        }
        let mut list = self.open()?;
        let e = list.pop_front();
        self.count.store(list.len() as u64, Ordering::SeqCst);
        e
    }

    /// Takes events out, as far as there is room for them in this list.
    pub fn take_all(&self, taken: &mut Vec<Event>) {
        let Some(mut list) = self.open() else {
            return;
        };
        for _event in 0..list.len() {
            if taken.len() >= taken.capacity() {
                break;
            }
            if let Some(e) = list.pop_front() {
                let _kept = taken.push(e);
            }
        }
        self.count.store(list.len() as u64, Ordering::SeqCst);
    }
}
