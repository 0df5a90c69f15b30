//! Each reading of an input is the only one.
ghost use Rattle.std.specs.Prelude.{◌≡◌, ℕ, List};
ghost use Rattle.snap_work.specs.Works.{Work};
ghost use Rattle.protocol.specs.Events.{Event};
ghost use Rattle.audit_words.specs.Inputs.{ArePapers, InputFault, IsFirstFault, IsInOrder};
ghost use Rattle.audit_words.specs.Papers.{AreParts, LacksDivider, Line};

use audit_laws::{one_answer, one_report};
use trace_text::{one_first_line, one_trace, trace_or_line};
use work_text::{fault_or_work, one_first_fault as one_work_fault, one_work};

/// An input has parts in one way, or lacks a divider: never both.
pub fn parts_are_one()
    ensures once { (input text trace report other_text other_trace other_report : List ℕ) → AreParts input text trace report → AreParts input other_text other_trace other_report → (text ≡ other_text) × (trace ≡ other_trace) × (report ≡ other_report) }
    ensures apart { (input text trace report : List ℕ) → AreParts input text trace report → ¬ LacksDivider input }
{}

/// An input is the papers of one run at most.
pub fn one_run()
    ensures { (input : List ℕ) (v w : Work) (ds es : List Event) (ks ls : List Line) → ArePapers input v ds ks → ArePapers input w es ls → (v ≡ w) × (ds ≡ es) × (ks ≡ ls) }
{
    parts_are_one();
    one_work();
    one_trace();
    one_report();
}

/// An input has one first fault at most.
pub fn one_first_fault()
    ensures { (input : List ℕ) (f g : InputFault) → IsFirstFault input f → IsFirstFault input g → f ≡ g }
{
    parts_are_one();
    one_run();
    one_work_fault();
    fault_or_work();
    one_first_line();
    trace_or_line();
    one_answer();
}

/// An input that is in order has no fault.
pub fn an_input_in_order_has_no_fault()
    ensures { (input : List ℕ) → IsInOrder input → (f : InputFault) → ¬ IsFirstFault input f }
{
    parts_are_one();
    one_run();
    fault_or_work();
    trace_or_line();
    one_answer();
}
