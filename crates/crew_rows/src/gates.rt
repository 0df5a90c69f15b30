//! Gates at which the slices of several workers meet.

use snap_base::ActorId;
use snap_outside::Gate;
use std::sync::atomic::{AtomicU64, Ordering};
use std::thread;

/// How often a slice that waits for another looks for it, at most.
pub const PATIENCE: u64 = 20_000_000;

/// How often a slice looks for another that will not come.
pub const LITTLE: u64 = 1_000;

/// A gate where the slices of two actors wait for each other, but not for ever.
#[derive(Drop)]
pub struct Meeting {
    patience: u64,
    first: AtomicU64,
    second: AtomicU64,
    missed: AtomicU64,
}

impl Meeting {
    /// A gate at which no slice has arrived, and waits look so often for the other.
    pub fn new(patience: u64) -> Meeting {
        Meeting {
            patience,
            first: AtomicU64::new(0),
            second: AtomicU64::new(0),
            missed: AtomicU64::new(0),
        }
    }

    /// Whether each slice found the other there.
    pub fn has_met(&self) -> bool {
        self.missed.load(Ordering::SeqCst) == 0
    }
}

impl Gate for Meeting {
    fn enter(&self, actor: ActorId) {
        let (own, other) = match actor.0 {
            0 => (&self.first, &self.second),
            _ => (&self.second, &self.first),
        };
        own.store(1, Ordering::SeqCst);
        for _ in 0..self.patience {
            if other.load(Ordering::SeqCst) == 1 {
                return;
            }
            thread::yield_now();
        }
        self.missed.store(1, Ordering::SeqCst);
    }
}

/// A gate where slices wait a little for others, until one has found another there.
#[derive(Drop)]
pub struct Crossing {
    arrived: AtomicU64,
    met: AtomicU64,
}

impl Crossing {
    /// A gate at which no slice has arrived.
    pub fn new() -> Crossing {
        Crossing {
            arrived: AtomicU64::new(0),
            met: AtomicU64::new(0),
        }
    }

    /// Whether two slices were at the gate at once, which one thread cannot do.
    pub fn is_of_several(&self) -> bool {
        self.met.load(Ordering::SeqCst) != 0
    }
}

impl Gate for Crossing {
    fn enter(&self, _actor: ActorId) {
        let own = self.arrived.fetch_add(1, Ordering::SeqCst).wrapping_add(1);
        for _ in 0..LITTLE {
            if self.arrived.load(Ordering::SeqCst) != own {
                self.met.store(1, Ordering::SeqCst);
            }
            if self.is_of_several() {
                return;
            }
            thread::yield_now();
        }
    }
}
