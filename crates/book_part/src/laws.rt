//! What the halves of a book are through the events, and what its conditions say of them: public functions whose contracts
//! are the laws. A body calls a law of the machine to cite it.
ghost use Rattle.std.specs.Prelude.{◌≡◌, ℕ, not, ◌&&◌, ◌||◌, ◌<◌, [], true, false, is_some, IsTrue};
ghost use Rattle.std.specs.List.{All};
ghost use Rattle.protocol.specs.BookParts.{no_orders, no_votes};
ghost use Rattle.protocol.specs.Events.{Event};
ghost use Rattle.protocol.specs.Effects.{after};
ghost use Rattle.protocol.specs.Fixed.{Fixed};
ghost use Rattle.protocol.specs.Numbers.{NumbersDrawnOnce};
ghost use Rattle.protocol.specs.Parts.{Book, Machine};
ghost use Rattle.protocol.specs.Runs.{opening_book};
ghost use Rattle.protocol.specs.Words.{act_of, holds, is_decided, is_doomed, is_failure, is_live_act, is_live_status, is_sealed, is_vouched_everywhere, joined_of};
ghost use Rattle.protocol_theorems.specs.BookFits.{HalvesMeet};
ghost use Rattle.act_commit.specs.Words.{is_ready};
ghost use Rattle.book_part.specs.After.{halves_after};
ghost use Rattle.book_part.specs.Halves.{Halves, Shows};

use protocol_theorems::halves_stay_fit;

/// Halves with nothing in them are those of the book that a run begins with. Halves that meet what an event asks of them,
/// as they do on every run where the event is allowed, are after it the halves of the book after it.
pub fn halves_stay_of_their_book<C>()
    ensures begins { (w : Fixed C) (most : ℕ) → Shows (record { orders = no_orders; votes = no_votes w.text.opening.next_c; cascades = []; most = most }) (opening_book w) }
    ensures stays { (w : Fixed C) (e : Event) (s : Machine C) (h : Halves) → Shows h s.book → HalvesMeet e s h.orders h.votes → Shows (halves_after w e s h) (after w e s).book }
{
    halves_stay_fit::<C>();
}

/// Where numbers are drawn once, as they are on every run, the next tid is above all ACTs of the orders.
pub fn next_tid_is_above_orders<C>()
    ensures { (w : Fixed C) (s : Machine C) (h : Halves) → NumbersDrawnOnce w s → Shows h s.book → All (λ x. x.tid < s.ring.next_tid) h.orders.acts }
{}

/// What the calls ask of the halves is in the conditions of their events: an ACT that asks for an actor is not given up,
/// and one that is decided has ended, and failed or is vouched on all its actors. The commits of the votes are numbered as
/// the book's.
pub fn conditions_are_met_in_halves()
    ensures asks { (h : Halves) (b : Book) (t : ℕ) → Shows h b → holds (λ x. not (is_doomed x.status)) (act_of t b.acts) ≡ true → IsTrue (holds (λ x. not (is_doomed x.status)) (act_of t h.orders.acts)) }
    ensures decides { (h : Halves) (b : Book) (t : ℕ) → Shows h b → holds (λ x. is_some x.result && is_live_status x.status) (act_of t b.acts) ≡ true → holds (λ x. is_failure x.result || is_vouched_everywhere x) (act_of t b.acts) ≡ true → IsTrue (holds is_ready (act_of t h.votes.acts)) }
    ensures numbers { (h : Halves) (b : Book) → Shows h b → h.votes.next_c ≡ b.next_c }
{}

/// Of an ACT that neither ended nor is given up nothing is to be vouched, sealed or left.
pub fn unbegun_acts_wait_for_nothing()
    ensures decided { (h : Halves) (b : Book) (t : ℕ) → Shows h b → holds (λ x. is_some x.result || is_doomed x.status) (act_of t b.acts) ≡ false → holds (λ x. is_decided x.status) (act_of t b.acts) ≡ false }
    ensures sealed { (h : Halves) (b : Book) (t : ℕ) → Shows h b → holds (λ x. is_some x.result || is_doomed x.status) (act_of t b.acts) ≡ false → holds (λ x. is_sealed x.status) (act_of t b.acts) ≡ false }
    ensures vouched { (h : Halves) (b : Book) (t : ℕ) → Shows h b → holds (λ x. is_some x.result || is_doomed x.status) (act_of t b.acts) ≡ false → (a : ℕ) → holds (λ x. is_live_act x && (not (is_doomed x.status) && holds (λ p. p.prepared && not p.vouched) (joined_of a x))) (act_of t b.acts) ≡ false }
{}
