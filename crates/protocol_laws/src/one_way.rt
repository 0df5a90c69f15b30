//! What no event takes back.

ghost use Rattle.std.specs.Prelude.{◌≤◌, List};
ghost use Rattle.protocol.specs.Conditions.{IsAllowed};
ghost use Rattle.protocol.specs.Effects.{after};
ghost use Rattle.protocol.specs.Events.{Event};
ghost use Rattle.protocol.specs.Laws.{AfterEveryRunWithHistory};
ghost use Rattle.protocol.specs.Fixed.{Fixed, IsText};
ghost use Rattle.protocol.specs.History.{History, grown};
ghost use Rattle.protocol_laws.specs.OneWay.{IsFront, PlacesStay, WentOn};
ghost use Rattle.protocol.specs.Parts.{Machine};
ghost use Rattle.protocol.specs.Runs.{EachAllowed, IsRun, reached, state_after};

/// In every state: an event that is allowed adds records at the end of logs, and what is durable stays so; a
/// cascade stays, and who was taken along was taken along by that one; an ACT keeps its tid, its transaction and
/// the actors that it joined, its before number never falls, and its status goes from Live to Doomed, Decided or
/// Sealed, and from Decided to Sealed alone; floors, epochs and the numbers that are drawn never fall.
pub fn events_go_one_way<C>()
    ensures { (w : Fixed C) (e : Event) (s : Machine C) → IsAllowed w e s → WentOn s (after w e s) }
{}

/// In every state: any number of events, one after the other, each of them allowed where it comes, add records at the end of
/// logs, and what is durable stays so; a cascade stays, and who was taken along was taken along by that one; an ACT keeps its
/// tid, its transaction and the actors that it joined, its before number never falls, and its status goes from Live to
/// Doomed, Decided or Sealed, and from Decided to Sealed alone; floors, epochs and the numbers that are drawn never fall.
pub fn runs_go_one_way<C>()
    ensures { (w : Fixed C) (es : List Event) (s : Machine C) → EachAllowed w es s → WentOn s (state_after w es s) }
{}

/// An event adds to the list of the transactions that committed at its end alone, and takes none out.
pub fn committed_grows_at_its_end<C>()
    ensures { (w : Fixed C) (e : Event) (s : Machine C) (h : History) → IsFront h.committed (grown w e s h).committed }
{}

/// Along a run the greatest settled batch never falls.
pub fn settled_never_falls<C>()
    ensures { (w : Fixed C) (es : List Event) (e : Event) → IsText w.text → IsRun w es → IsAllowed w e (reached w es) → (reached w es).desk.settled ≤ (after w e (reached w es)).desk.settled }
{}

/// After every run over code that has the facts: whoever has its place in the serial order keeps it, with its before number,
/// whatever event comes next. That a verdict stays is in `verdicts_have_evidence`.
pub fn places_stay<C>()
    ensures { AfterEveryRunWithHistory (PlacesStay {C = C}) }
{}
