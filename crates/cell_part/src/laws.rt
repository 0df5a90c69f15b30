//! What the machine's words for a cell are by the calls of a `CellPart`: public functions with empty bodies, whose
//! contracts are the laws.
ghost use Rattle.std.specs.Prelude.{◌≡◌, ℕ, List, Option, Some};
ghost use Rattle.protocol.specs.Fixed.{Code};
ghost use Rattle.protocol.specs.OnCell.{act_placed, slice_run, is_through};
ghost use Rattle.protocol.specs.Parts.{Cell, ControlMessage, Outcome, SubBatch, Waiting};
ghost use Rattle.protocol.specs.Rivals.{Lock};
ghost use Rattle.protocol.specs.Words.{control_of, outcome_of, sub_of, waiting_of};
ghost use Rattle.cell_part.specs.Running.{begun, written, ended};

/// Where a control waits, a run begins, writes the state that a slice of the control leaves, and ends with what the
/// slice ended with.
pub fn run_is_begin_slice_end<C>()
    ensures { (code : Code C) (t a : ℕ) (c : Cell C) (w : Waiting C) → waiting_of t c.inbox ≡ Some w
        → let r = code.slice w.control c.state in ended t r.next (is_through code a r.next) (written r.state (begun t c)) ≡ slice_run code t a c }
{}

/// An ACT that gives way to an older one leaves the cell as it is.
pub fn who_gives_way_is_not_placed<C>()
    ensures { (x : Lock) (older : ℕ) (m : Option (ControlMessage C)) (c : Cell C) → act_placed x (Some older) m c ≡ c }
{}

/// What is found by a number has this number: a control on its way and an outcome are of their transaction, and a
/// sub-batch is of its batch and for its actor.
pub fn what_is_found_has_its_number<C>()
    ensures control { (t : ℕ) (controls : List (ControlMessage C)) (m : ControlMessage C) → control_of t controls ≡ Some m → m.tid ≡ t }
    ensures outcome { (t : ℕ) (outbox : List (Outcome C)) (x : Outcome C) → outcome_of t outbox ≡ Some x → x.tid ≡ t }
    ensures sub { (k a : ℕ) (subs : List SubBatch) (m : SubBatch) → sub_of k a subs ≡ Some m → (m.bid ≡ k) × (m.actor ≡ a) }
{}
