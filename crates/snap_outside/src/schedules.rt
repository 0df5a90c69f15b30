//! The error of a call of the outside, and which calls of a fake in memory fail.
ghost use Rattle.std.specs.Prelude.{◌≡◌, ℕ, ◌+◌, ◌-◌, ◌^◌, ◌≤◌, ◌↔◌, min, IsErr, OnOk, Contains};
ghost use Rattle.snap_outside.specs.Causes.{Rose, HasCause, CountsLate};

use std::error::Error;
use std::fmt;

/// A call of the outside failed; the object's count of faults has risen.
#[derive(Clone, Copy, Debug, PartialEq, Eq)]
pub struct Failed;

impl fmt::Display for Failed {
    ghost use Rattle.std.specs.Prelude.{Some, codes};

    ghost output = { λ _. Some (codes "a call of the outside failed") };

    fn fmt<W: fmt::Write>(&self, f: &mut fmt::Formatter<W>) -> fmt::Result {
        f.write_str("a call of the outside failed")
    }
}

impl Error for Failed {}

/// Which calls of a fake fail, by their numbers from 1 on, and how many have been made, have failed, and were
/// made after one had failed. Counts stop at 2^64 - 1.
#[derive(Drop)]
pub(crate) struct Schedule {
    pub(crate) fails: Vec<u64>,
    pub(crate) calls: u64,
    pub(crate) faults: u64,
    pub(crate) late: u64,
}

impl Schedule {
    pub(crate) fn new(fails: Vec<u64>) -> Self
        ensures { result ≡ record { fails = fails; calls = 0; faults = 0; late = 0 } }
    {
        Schedule {
            fails,
            calls: 0,
            faults: 0,
            late: 0,
        }
    }

    /// Counts a call, which fails exactly where its number is one of those that are to fail.
    pub(crate) fn call(&mut self) -> Result<(), Failed>
        ensures fails { IsErr result ↔ Contains self.old.fails.items (min (self.old.calls + 1) (2 ^ 64 - 1)) }
        ensures calls { self.new.calls ≡ min (self.old.calls + 1) (2 ^ 64 - 1) }
        ensures same { self.new.fails ≡ self.old.fails }
        ensures cause { HasCause self.old.faults self.new.faults result }
        ensures unchanged { OnOk result (self.new.faults ≡ self.old.faults) }
        ensures late { CountsLate self.old.faults self.old.late self.new.late }
    {
        self.calls = self.calls.saturating_add(1);
        if self.faults > 0 {
            self.late = self.late.saturating_add(1);
        }
        if self.fails.contains(&self.calls) {
            return Err(self.fault());
        }
        Ok(())
    }

    /// Counts a fault.
    pub(crate) fn fault(&mut self) -> Failed
        ensures later { self.old.faults ≤ self.new.faults }
        ensures rose { Rose self.old.faults self.new.faults }
        ensures same { (self.new.fails ≡ self.old.fails) × (self.new.calls ≡ self.old.calls) × (self.new.late ≡ self.old.late) }
    {
        self.faults = self.faults.saturating_add(1);
        Failed
    }
}
