//! What follows for a caller: a text is read as one thing, and what a work keeps. Each is called to cite it.

ghost use Rattle.std.specs.Prelude.{◌≡◌, ℕ, ◌≤◌, List, length, Result};
ghost use Rattle.snap_work.specs.declared.faults.WorkFault.{WorkFault};
ghost use Rattle.snap_work.specs.Works.{Work};
ghost use Rattle.work_text.specs.Reads.{Reads, IsWork, IsFirstWorkFault};
ghost use Rattle.snap_work.specs.Kept.{KeepsLimits};

use aml_parser::{faulty, one_fault, one_program};
use aml_resolver::checked_programs_are_closed;
use snap_work::LONGEST_WORK;

/// What a work keeps that a text stands for: its transactions may be asked of its states, and its numbers
/// are within their limits.
pub fn transactions_may_run()
    ensures { (text : List ℕ) (w : Work) → IsWork text w → KeepsLimits w }
{
    checked_programs_are_closed();
}

/// A text that stands for a work is not too long.
pub fn a_work_is_short()
    ensures { (text : List ℕ) (w : Work) → IsWork text w → length text ≤ LONGEST_WORK }
{}

/// A text is read as one thing.
pub fn one_reading()
    ensures { (text : List ℕ) (r s : Result Work WorkFault) → Reads text r → Reads text s → r ≡ s }
{
    one_program();
    one_fault();
    faulty();
    checked_programs_are_closed();
}

/// A text stands for one work at most.
pub fn one_work()
    ensures { (text : List ℕ) (v w : Work) → IsWork text v → IsWork text w → v ≡ w }
{
    one_reading();
}

/// A text has one first fault at most.
pub fn one_first_fault()
    ensures { (text : List ℕ) (f g : WorkFault) → IsFirstWorkFault text f → IsFirstWorkFault text g → f ≡ g }
{
    one_reading();
}

/// A text with a first fault stands for no work.
pub fn fault_or_work()
    ensures { (text : List ℕ) (f : WorkFault) (w : Work) → IsFirstWorkFault text f → ¬ IsWork text w }
{
    one_reading();
}
