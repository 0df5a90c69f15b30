//! What rows stand on, as public functions whose contracts are the laws. Their bodies call the laws below, to cite them.
ghost use Rattle.protocol.specs.Fixed.{Fixed};
ghost use Rattle.protocol.specs.Parts.{Machine};
ghost use Rattle.protocol.specs.Events.{Event};
ghost use Rattle.protocol.specs.Conditions.{IsAllowed};
ghost use Rattle.protocol.specs.Effects.{after};
ghost use Rattle.book_part.specs.After.{halves_after};
ghost use Rattle.book_part.specs.Halves.{Halves, Shows};
ghost use Rattle.core_facts.specs.RowsMay.{RowsMay};
ghost use Rattle.core_rows.specs.OnRuns.{HasRun};

use book_part::halves_stay_of_their_book;
use core_facts::rows_may_be_taken;

/// What the parts' calls ask is so in each state that a run has come to.
pub fn rows_may<C>()
    ensures { (w : Fixed C) (s : Machine C) → HasRun w s → RowsMay w s }
{
    rows_may_be_taken::<C>();
}

/// A run goes on with an event that is allowed.
pub fn runs_go_on<C>()
    ensures { (w : Fixed C) (e : Event) (s : Machine C) → HasRun w s → IsAllowed w e s → HasRun w (after w e s) }
{}

/// The halves of the book go on as those of the book after an event that is allowed.
pub fn books_go_on<C>()
    ensures { (w : Fixed C) (e : Event) (s : Machine C) (h : Halves) → HasRun w s → Shows h s.book → IsAllowed w e s → Shows (halves_after w e s h) (after w e s).book }
{
    rows_may::<C>();
    halves_stay_of_their_book::<C>();
}
