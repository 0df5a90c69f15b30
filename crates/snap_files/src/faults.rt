//! Errors of the system, counted and told as failures of the outside.
ghost use Rattle.std.specs.Prelude.{◌≡◌, Ok, IfOk, IsErr, OnOk, OnErr};
ghost use Rattle.snap_outside.specs.Causes.{HasCause, CountsLate};

use snap_outside::Failed;
use std::io;

/// How many calls of the outside have failed, and how many were made after one had failed. Counts stop at
/// 2^64 - 1.
#[derive(Drop)]
pub(crate) struct Calls {
    pub(crate) faults: u64,
    pub(crate) late: u64,
}

impl Calls {
    ghost use Rattle.std.specs.Prelude.{◌≡◌};

    pub(crate) fn new() -> Self
        ensures { result ≡ record { faults = 0; late = 0 } }
    {
        Calls { faults: 0, late: 0 }
    }

    /// The system's answer as the outside's, with the call counted.
    pub(crate) fn counted<T>(&mut self, answer: io::Result<T>) -> Result<T, Failed>
        ensures same { IfOk result (λ x. answer ≡ Ok x) }
        ensures failed { OnErr result (IsErr answer) }
        ensures cause { HasCause self.old.faults self.new.faults result }
        ensures quiet { OnOk result (self.new.faults ≡ self.old.faults) }
        ensures late { CountsLate self.old.faults self.old.late self.new.late }
    {
        if self.faults > 0 {
            self.late = self.late.saturating_add(1);
        }
        counted(answer, &mut self.faults)
    }
}

/// The system's answer as the outside's, with an error counted. The count stops at 2^64 - 1.
pub(crate) fn counted<T>(answer: io::Result<T>, faults: &mut u64) -> Result<T, Failed>
    ensures same { IfOk result (λ x. answer ≡ Ok x) }
    ensures failed { OnErr result (IsErr answer) }
    ensures cause { HasCause faults.old faults.new result }
    ensures quiet { OnOk result (faults.new ≡ faults.old) }
{
    match answer {
        Ok(value) => Ok(value),
        Err(_) => {
            *faults = faults.saturating_add(1);
            Err(Failed)
        }
    }
}
