//! The book is held in halves, orders and votes, beside cascades: what an event does to the book, it does to each of these
//! apart, and each of them answers its questions.

ghost use Rattle.std.specs.Prelude.{◌≡◌, ℕ, ◌++◌, Bool, true, Option, Some, None, is_some, List, [], ◌∷◌, option_map};
ghost use Rattle.protocol.specs.BookParts.{act_by, book_of, has_place, no_orders, no_votes, orders_cascaded, place_by, result_by};
ghost use Rattle.protocol.specs.Events.{Event};
ghost use Rattle.protocol.specs.Effects.{after};
ghost use Rattle.protocol.specs.Fixed.{Fixed};
ghost use Rattle.protocol.specs.Laws.{AfterEveryRunWithHistory};
ghost use Rattle.protocol.specs.OnBook.{act_admitted, act_asked, act_decided, act_ended, act_finished, act_prepared, act_sealed, act_vouched, batch_aborted, batch_arrived, failed_code, failed_tx};
ghost use Rattle.protocol.specs.Parts.{Act, Book, Cascade, Machine, Outcome};
ghost use Rattle.protocol.specs.Rivals.{Lock};
ghost use Rattle.protocol.specs.Runs.{opening_book};
ghost use Rattle.protocol.specs.Verdicts.{verdict_of_act};
ghost use Rattle.protocol.specs.Words.{Failure, act_of, count, holds, is_decided, is_doomed, is_live_act, is_live_status, is_ordered, is_sealed, is_vouched_everywhere, joined_of};
ghost use Rattle.protocol_theorems.specs.BookFits.{BookFits, HalvesGoOn, HalvesMeet, IsOfHalves, act_with, orders_after, verdict_of_halves, votes_after, votes_ended};

/// What an event does to the book passes through to orders and votes. A half reads of the other only what it is told: which
/// actors an ACT has joined when it ends, and who gets its place. Where nothing is asked for ahead of an equation, it holds of
/// any two halves.
pub fn books_are_of_parts<C>()
    ensures begins { (w : Fixed C) → IsOfHalves (opening_book w) no_orders (no_votes w.text.opening.next_c) }
    ensures admits { (o v : Book) (cs : List Cascade) (t n : ℕ) (reader : Bool) (m : ℕ) → act_of t v.acts ≡ None → act_admitted t n reader m (book_of o v cs) ≡ book_of (act_admitted t n reader m o) v cs }
    ensures arrives { (o v : Book) (cs : List Cascade) (k a : ℕ) (tids : List ℕ) → batch_arrived k a tids (book_of o v cs) ≡ book_of (batch_arrived k a tids o) v cs }
    ensures dies { (o v : Book) (cs : List Cascade) (older : ℕ) (group : List Lock) (t a m : ℕ) → act_asked (Some older) group t a m (book_of o v cs) ≡ book_of (act_asked (Some older) group t a m o) v cs }
    ensures joins { (o v : Book) (cs : List Cascade) (group : List Lock) (t a m : ℕ) → act_of t v.acts ≡ None → act_asked None group t a m (book_of o v cs) ≡ book_of (act_asked None group t a m o) v cs }
    ensures ends { (o v : Book) (cs : List Cascade) (t : ℕ) (is_act : Bool) (actors : List ℕ) (x : Option (Outcome C)) → BookFits o v → (is_act ≡ true → act_of t v.acts ≡ None) → act_ended t is_act x (book_of o v cs) ≡ book_of o (votes_ended t is_act actors x v) cs }
    ensures prepares { (o v : Book) (cs : List Cascade) (t a : ℕ) → BookFits o v → is_some (act_of t v.acts) ≡ true → act_prepared t a (book_of o v cs) ≡ book_of o (act_prepared t a v) cs }
    ensures vouches { (o v : Book) (cs : List Cascade) (t a : ℕ) → BookFits o v → is_some (act_of t v.acts) ≡ true → act_vouched t a (book_of o v cs) ≡ book_of o (act_vouched t a v) cs }
    ensures decides { (o v : Book) (cs : List Cascade) (t : ℕ) → BookFits o v → is_some (act_of t v.acts) ≡ true → holds (λ x. is_live_status x.status) (act_of t o.acts) ≡ true → act_decided t (book_of o v cs) ≡ book_of (has_place t o) (act_decided t v) cs }
    ensures seals { (o v : Book) (cs : List Cascade) (t : ℕ) → BookFits o v → act_sealed t (book_of o v cs) ≡ book_of o (act_sealed t v) cs }
    ensures finishes { (o v : Book) (cs : List Cascade) (t a : ℕ) → act_finished t a (book_of o v cs) ≡ book_of (act_finished t a o) v cs }
    ensures aborts { (o v : Book) (cs : List Cascade) (k upto : ℕ) (why : Option Failure) → batch_aborted k upto why (book_of o v cs) ≡ book_of (orders_cascaded k (failed_tx why) o) v (cs ++ record { first = k; upto = upto; by = failed_tx why; at = v.next_c; code = failed_code why } ∷ []) }
{}

/// What is asked of the book is asked of its halves. Of an ACT orders tell that it is live or doomed, where it stands and which
/// actors it has left; votes tell its result, its other marks, and how far its commit is.
pub fn books_are_asked_by_parts()
    ensures found { (o v : Book) (cs : List Cascade) (t : ℕ) → act_of t (book_of o v cs).acts ≡ option_map (act_by (act_of t v.acts)) (act_of t o.acts) }
    ensures lives { (o v : Book) (cs : List Cascade) → count is_live_act (book_of o v cs).acts ≡ count is_live_act o.acts }
    ensures live { (v : Option Act) (x : Act) → is_live_act (act_by v x) ≡ is_live_act x }
    ensures status { (v : Option Act) (x : Act) → is_live_status (act_by v x).status ≡ is_live_status x.status }
    ensures doomed { (v : Option Act) (x : Act) → is_doomed (act_by v x).status ≡ is_doomed x.status }
    ensures ordered { (v : Option Act) (x : Act) → is_ordered (act_by v x).status ≡ is_ordered x.status }
    ensures place { (v : Option Act) (x : Act) (a : ℕ) → joined_of a (act_by v x) ≡ option_map (place_by v) (joined_of a x) }
    ensures left { (f : Bool → Bool) (v : Option Act) (x : Act) (a : ℕ) → holds (λ p. f p.finished) (joined_of a (act_by v x)) ≡ holds (λ p. f p.finished) (joined_of a x) }
    ensures ended { (o v : Book) (t : ℕ) (x : Act) → BookFits o v → act_of t o.acts ≡ Some x → is_some (result_by (act_of t v.acts)) ≡ is_some (act_of t v.acts) }
    ensures decided { (o v : Book) (t : ℕ) (x : Act) → BookFits o v → act_of t o.acts ≡ Some x → is_decided (act_by (act_of t v.acts) x).status ≡ holds (λ y. is_decided y.status) (act_of t v.acts) }
    ensures sealed { (o v : Book) (t : ℕ) (x : Act) → BookFits o v → act_of t o.acts ≡ Some x → is_sealed (act_by (act_of t v.acts) x).status ≡ holds (λ y. is_sealed y.status) (act_of t v.acts) }
    ensures voted { (f : Bool → Bool → Bool) (o v : Book) (t a : ℕ) (x y : Act) → BookFits o v → act_of t o.acts ≡ Some x → act_of t v.acts ≡ Some y → holds (λ p. f p.prepared p.vouched) (joined_of a (act_by (Some y) x)) ≡ holds (λ p. f p.prepared p.vouched) (joined_of a y) }
    ensures vouched { (o v : Book) (t : ℕ) (x y : Act) → BookFits o v → act_of t o.acts ≡ Some x → act_of t v.acts ≡ Some y → is_vouched_everywhere (act_by (Some y) x) ≡ is_vouched_everywhere y }
    ensures verdict { (o v : Book) (cs : List Cascade) (n : ℕ) → BookFits o v → verdict_of_act n (book_of o v cs).acts ≡ verdict_of_halves v.acts (act_with n o.acts) }
{}

/// Halves of a book that meet what an event asks of them go on as the halves of the book after it.
pub fn halves_stay_fit<C>()
    ensures { (w : Fixed C) (e : Event) (s : Machine C) (o v : Book) → IsOfHalves s.book o v → HalvesMeet e s o v → IsOfHalves (after w e s).book (orders_after w e s o) (votes_after e s o v) }
{}

/// On every run an allowed event finds in the halves of the book what it asks of them.
pub fn halves_go_on<C>()
    ensures { AfterEveryRunWithHistory (HalvesGoOn {C = C}) }
{}
