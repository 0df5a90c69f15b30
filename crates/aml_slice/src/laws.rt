//! What follows for whoever runs transactions in slices. Each is called to cite it.

ghost use Rattle.std.specs.Prelude.{◌≡◌, ◌<◌, ℕ, IsTrue, List, length};
ghost use Rattle.snap_base.specs.declared.ids.Tid.{Tid};
ghost use Rattle.snap_base.specs.declared.transactions.State.{State};
ghost use Rattle.snap_base.specs.declared.transactions.Tx.{Tx};
ghost use Rattle.snap_base.specs.declared.transactions.TxResult.{TxResult};
ghost use Rattle.aml_check.specs.Checked.{methods_of};
ghost use Rattle.aml_check.specs.Closed.{IsClosedProgram};
ghost use Rattle.aml_check.specs.Meaning.{alone, state_at};
ghost use Rattle.aml_check.specs.Names.{method_at};
ghost use Rattle.aml_check.specs.Transactions.{IsTransaction};
ghost use Rattle.aml_resume.specs.Resuming.{BlocksRise, CallsRise, CountsRise, PausesAsMeant, PausesWhereAllowed};
ghost use Rattle.aml_slice.specs.Controls.{Rest, IsRest};
ghost use Rattle.aml_slice.specs.Readers.{AllReading, HandsOnReading};
ghost use Rattle.snap_base.specs.declared.next.Next.{Next};
ghost use Rattle.aml_slice.specs.Slicing.{slice_end, started};
ghost use Rattle.aml_slice.specs.Wholes.{BeginsTransaction, HandedOn, IsRestKept, RunsInSlices, world_after};
ghost use Rattle.aml_slice.specs.Moments.{IsHandedOn, IsMoment, IsSameEnd, IsSameState};
ghost use Rattle.aml_slice.specs.Finishing.{after_slice, finished};

use aml_check::Checked;
use aml_resume::{counts_rise, pauses_as_meant, pauses_where_allowed, reading_leaves};

/// At its beginning all of a transaction is left.
pub fn transactions_begin(program: &Checked)
    ensures { (count : ℕ) (tid : Tid) (tx : Tx) → IsTransaction (methods_of program.now) count tx → BeginsTransaction (methods_of program.now) tid tx (started tid tx) }
{
    known(program);
}

/// A slice ends at the first moment at which its transaction calls or returns to another actor, or ends; it
/// keeps what the rest of the transaction gives, and hands on a rest of that transaction.
pub fn each_slice(program: &Checked)
    ensures moment { (count : ℕ) (c : Rest) (s : State) → IsRest (methods_of program.now) count c → IsMoment (methods_of program.now) count c s (slice_end (methods_of program.now) count c s).state (slice_end (methods_of program.now) count c s).next }
    ensures kept { (count : ℕ) (c : Rest) (s : State) → IsRest (methods_of program.now) count c → IsRestKept (methods_of program.now) count c s (slice_end (methods_of program.now) count c s).state (slice_end (methods_of program.now) count c s).next }
    ensures handed_on { (count : ℕ) (c : Rest) (s : State) → IsRest (methods_of program.now) count c → IsHandedOn (methods_of program.now) count c (slice_end (methods_of program.now) count c s).next }
{
    known(program);
}

/// A slice has one end: whether the transaction goes to another actor, to which, or with which result it
/// ends, and what state it leaves, save for a failure.
pub fn one_moment(_program: &Checked)
    ensures state { (count : ℕ) (c : Rest) (s t u : State) (m n : Next Rest) → c.top.actor < count → IsMoment (methods_of _program.now) count c s t m → IsMoment (methods_of _program.now) count c s u n → IsSameState m t u }
    ensures end { (count : ℕ) (c : Rest) (s t u : State) (m n : Next Rest) → c.top.actor < count → IsMoment (methods_of _program.now) count c s t m → IsMoment (methods_of _program.now) count c s u n → IsSameEnd m n }
{}

/// However a transaction is cut into slices, it gives what it gives alone on the states that were found,
/// where nobody else changes these in between.
pub fn slices_add_up(_program: &Checked)
    ensures { (count : ℕ) (tid : Tid) (tx : Tx) (c : Rest) (w : List State) (cuts : List HandedOn) (r : TxResult) (after : List State) → BeginsTransaction (methods_of _program.now) tid tx c → tx.actor.0 < count → length w ≡ count → RunsInSlices (methods_of _program.now) count c w cuts r after → alone (methods_of _program.now) w tx ≡ record { result = r; world = world_after r w after } }
{}

/// Where nobody else changes the world, a slice keeps what becomes of its control, and what becomes of a control
/// at its beginning is what its transaction gives alone.
pub fn slices_finish(program: &Checked)
    ensures keeps { (count : ℕ) (c : Rest) (w : List State) → IsRest (methods_of program.now) count c → finished (methods_of program.now) count c w ≡ after_slice (finished (methods_of program.now) count) c w (slice_end (methods_of program.now) count c (state_at w c.top.actor)) }
    ensures alone { (count : ℕ) (tid : Tid) (tx : Tx) (w : List State) → IsTransaction (methods_of program.now) count tx → length w ≡ count → alone (methods_of program.now) w tx ≡ record { result = (finished (methods_of program.now) count (started tid tx) w).result; world = world_after (finished (methods_of program.now) count (started tid tx) w).result w (finished (methods_of program.now) count (started tid tx) w).world } }
{
    known(program);
}

/// A transaction whose root promises only to read leaves the state of each actor that it comes to: all its calls are
/// of methods that promise only to read, at its beginning and behind each slice, and each slice leaves the state.
pub fn readers_leave(program: &Checked)
    ensures begins { (tid : Tid) (tx : Tx) → IsTrue (method_at (methods_of program.now) tx.method).is_read → AllReading (methods_of program.now) (started tid tx) }
    ensures state { (count : ℕ) (c : Rest) (s : State) → AllReading (methods_of program.now) c → (slice_end (methods_of program.now) count c s).state ≡ s }
    ensures handed_on { (count : ℕ) (c : Rest) (s : State) → AllReading (methods_of program.now) c → HandsOnReading (methods_of program.now) (slice_end (methods_of program.now) count c s).next }
{
    known(program);
    reading_leaves();
}

/// What is known of every checked program, and of its methods that are run on.
pub(crate) fn known(program: &Checked)
    ensures closed { IsClosedProgram (methods_of program.now) }
    ensures meant { PausesAsMeant }
    ensures allowed { PausesWhereAllowed }
    ensures counts { CountsRise }
    ensures blocks { BlocksRise }
    ensures calls { CallsRise }
{
    program.methods();
    pauses_as_meant();
    pauses_where_allowed();
    counts_rise();
}
