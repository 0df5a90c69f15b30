//! Counters as parts of a table of turns, and changes of them as its events.
ghost use Rattle.std.specs.Prelude.{◌≡◌};

use turn_table::{Makes, Piece};

/// A part that counts, modulo 2^64.
#[derive(Clone, Copy, Debug, PartialEq, Eq)]
pub struct Counter {
    /// What was added to it less what was taken off.
    pub value: u64,
}

/// Adds to one counter, or moves from one to another.
#[derive(Clone, Copy, Debug, PartialEq, Eq)]
pub enum Change {
    Add { part: u64, amount: u64 },
    Move { from: u64, to: u64, amount: u64 },
}

impl Piece for Counter {
    type Tables = u64;

    type Event = Change;

    ghost use Rattle.turn_rows.specs.Changes.{touched, makes};

    ghost footprint = { λ tables change. touched change };

    ghost happens = { λ tables change old new. makes change old new };
}

/// The counters that a change made, in the order in which it names them.
#[derive(Drop)]
pub enum Counted {
    One(Counter),
    Two(Counter, Counter),
}

impl Makes<Counter, Change> for Counted {
    ghost use Rattle.turn_rows.specs.Changes.{counters_of};

    ghost made = { λ counted change. counters_of counted };
}

impl Counter {
    ghost use Rattle.turn_rows.specs.Changes.{more, less};

    /// Adds an amount, modulo 2^64.
    pub fn add(&mut self, amount: u64)
        ensures { self.new ≡ more self.old amount }
    {
        self.value = self.value.wrapping_add(amount);
    }

    /// Takes an amount off, modulo 2^64.
    pub fn take_off(&mut self, amount: u64)
        ensures { self.new ≡ less self.old amount }
    {
        self.value = self.value.wrapping_sub(amount);
    }
}
