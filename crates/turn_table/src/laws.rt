//! Laws of what passes hold: public functions with empty bodies, whose contracts are the laws.
ghost use Rattle.std.specs.Prelude.{◌≡◌, ◌≢◌, ◌<◌, ◌∷◌, ◌++◌, ℕ, List, Option, None, length, slice_index};
ghost use Rattle.atomic_table.specs.Table.{State};
ghost use Rattle.turn_table.specs.Places.{at, put_at, IsIdle};
ghost use Rattle.turn_table.specs.Rule.{HoldsAt, HoldsOn, IsEntry, IsLater, Kept};
ghost use Rattle.turn_table.specs.Runs.{GoesOnWithout, Run};

use crate::pieces::Piece;
use crate::views::View;

/// What is put at a number is there, and what stands at the others stays.
pub fn put_and_rest<P>()
    ensures there { (held : List (Option P)) (i : ℕ) (x : Option P) → at (put_at held i x) i ≡ x }
    ensures others { (held : List (Option P)) (i j : ℕ) (x : Option P) → j ≢ i → at (put_at held i x) j ≡ at held j }
{}

/// Where nothing else is held, nothing is once a part is given back: so after it was taken at once, or with an event.
pub fn taken_and_given<P>()
    ensures alone { (held : List (Option P)) (i : ℕ) → ((j : ℕ) → j ≢ i → at held j ≡ None) → IsIdle (put_at held i None) }
    ensures at_once { (held : List (Option P)) (i : ℕ) (x : Option P) → IsIdle held → IsIdle (put_at (put_at held i x) i None) }
    ensures after_an_event { (held : List (Option P)) (i : ℕ) (x y : Option P) → IsIdle held → IsIdle (put_at (put_at (put_at held i x) i y) i None) }
{}

/// At each step of a table, what is held one view alone holds.
pub fn one_view_holds_it<P: Piece>(tables: &P::Tables)
    ensures { (start : List P) (s : State (Option P) (View P P.Event)) (i j l : ℕ) → Kept (P.footprint tables.now) (P.happens tables.now) start s → i < length start → HoldsAt s i j → HoldsAt s i l → j ≡ l }
{
    let _ = tables;
}

/// Two runs of which the second begins where the first ends are one, and a run may be cut in two anywhere.
pub fn runs_join<P: Piece>(tables: &P::Tables)
    ensures join { (start middle end : List P) (es more : List P.Event) → Run (P.footprint tables.now) (P.happens tables.now) start es middle → Run (P.footprint tables.now) (P.happens tables.now) middle more end → Run (P.footprint tables.now) (P.happens tables.now) start (es ++ more) end }
    ensures cut { (start end : List P) (es more : List P.Event) → Run (P.footprint tables.now) (P.happens tables.now) start (es ++ more) end → (middle : List P) × Run (P.footprint tables.now) (P.happens tables.now) start es middle × Run (P.footprint tables.now) (P.happens tables.now) middle more end }
{
    let _ = tables;
}

/// Of two steps of a table the later has the history of the earlier and what was recorded in between: nothing where the counts
/// are the same; and where an entry has the earlier's count, its event is the first.
pub fn histories_go_on<P: Piece>(tables: &P::Tables)
    ensures more { (start : List P) (s t : State (Option P) (View P P.Event)) (k : Kept (P.footprint tables.now) (P.happens tables.now) start s) (l : Kept (P.footprint tables.now) (P.happens tables.now) start t) → IsLater s t → (more : List P.Event) × (l.history ≡ k.history ++ more) }
    ensures none { (start : List P) (s t : State (Option P) (View P P.Event)) (k : Kept (P.footprint tables.now) (P.happens tables.now) start s) (l : Kept (P.footprint tables.now) (P.happens tables.now) start t) → IsLater s t → slice_index t.words 0 ≡ slice_index s.words 0 → l.history ≡ k.history }
    ensures next { (start : List P) (s t : State (Option P) (View P P.Event)) (k : Kept (P.footprint tables.now) (P.happens tables.now) start s) (l : Kept (P.footprint tables.now) (P.happens tables.now) start t) (e : P.Event) → IsLater s t → IsEntry t (slice_index s.words 0, e) → (more : List P.Event) × (l.history ≡ k.history ++ e ∷ more) }
{
    let _ = tables;
}

/// What a view holds from one step of a table to another, while it records nothing, nobody touches.
pub fn what_is_held_is_left<P: Piece>(tables: &P::Tables)
    ensures { (start : List P) (s t : State (Option P) (View P P.Event)) (i j : ℕ) (k : Kept (P.footprint tables.now) (P.happens tables.now) start s) (l : Kept (P.footprint tables.now) (P.happens tables.now) start t) → IsLater s t → HoldsOn s t i j → GoesOnWithout (P.footprint tables.now) i k.history l.history }
{
    let _ = tables;
}
