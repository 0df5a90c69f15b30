//! Which events may be allowed, and when none is.

ghost use Rattle.std.specs.Prelude.{◌≡◌, Contains, List, None};
ghost use Rattle.protocol.specs.Candidates.{allowed_candidates, candidates, first_allowed};
ghost use Rattle.protocol.specs.Conditions.{IsAllowed};
ghost use Rattle.protocol.specs.Events.{Event};
ghost use Rattle.protocol.specs.Fixed.{Fixed, IsText};
ghost use Rattle.protocol.specs.Laws.{AfterEveryRun};
ghost use Rattle.protocol_laws.specs.Ranges.{NumbersInRange};
ghost use Rattle.protocol.specs.Runs.{IsQuiet, IsRun, reached};
ghost use Rattle.protocol.specs.Schedule.{IsEnabled};

/// Each tid and each batch number in the post, on the actors, at the desk and in the book was drawn in this run,
/// and each actor that is named there exists.
pub fn numbers_are_in_range<C>()
    ensures { AfterEveryRun (NumbersInRange {C = C}) }
{}

/// After a run each event that is allowed is among the candidates.
pub fn allowed_events_are_candidates<C>()
    ensures { (w : Fixed C) (es : List Event) (e : Event) → IsText w.text → IsRun w es → IsAllowed w e (reached w es) → Contains (candidates w (reached w es)) e }
{}

/// After a run the candidates that are allowed are all events that are allowed, in the order of kinds, then of the first
/// number, then of the second.
pub fn allowed_candidates_are_enabled<C>()
    ensures { (w : Fixed C) (es : List Event) → IsText w.text → IsRun w es → IsEnabled w (reached w es) (allowed_candidates w (reached w es)) }
{}

/// After a run the state is quiet where no candidate is allowed.
pub fn quiet_where_no_candidate_is_allowed<C>()
    ensures { (w : Fixed C) (es : List Event) → IsText w.text → IsRun w es → first_allowed w (reached w es) ≡ None → IsQuiet w (reached w es) }
{}
