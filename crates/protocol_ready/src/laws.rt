//! Which events an event leaves as they were, and how the allowed ones are kept and found. `C` is the type of controls.

ghost use Rattle.std.specs.Prelude.{◌≡◌, ◌↔◌, Bool, true, Contains, List, []};
ghost use Rattle.protocol.specs.Conditions.{IsAllowed};
ghost use Rattle.protocol.specs.Effects.{after};
ghost use Rattle.protocol.specs.Events.{Event};
ghost use Rattle.protocol.specs.Fixed.{Fixed, IsText};
ghost use Rattle.protocol.specs.Laws.{AfterEveryRun};
ghost use Rattle.protocol.specs.Parts.{Machine};
ghost use Rattle.protocol.specs.Runs.{IsRun, reached};
ghost use Rattle.protocol.specs.Schedule.{IsEnabled};
ghost use Rattle.protocol_ready.specs.Lying.{live};
ghost use Rattle.protocol_ready.specs.Ready.{AreAll, AreEnough, AreRenewed, looked, revised};
ghost use Rattle.protocol_ready.specs.Touched.{IsSound, LeavesUntouched, is_touched};
ghost use Rattle.protocol_ready.specs.Telling.{PartsTell};

use protocol_laws::{allowed_or_refused, frame, numbers_are_drawn_once};

/// An event leaves the conditions of the events that it does not touch.
pub fn untouched_stay<C>()
    ensures { (w : Fixed C) (s : Machine C) → LeavesUntouched w s }
{
    frame::<C>();
}

/// After every run a log has no more synced than it holds, and batches have consecutive numbers, which is what
/// `untouched_stay` asks of a state.
pub fn states_are_sound<C>()
    ensures { AfterEveryRun (IsSound {C = C}) }
{
    numbers_are_drawn_once::<C>();
}

/// After every run: what is not listed with what an event changes, before it or after it, is allowed after it
/// exactly where it was.
pub fn unlooked_stay<C>()
    ensures { (w : Fixed C) (es : List Event) (e f : Event) → IsText w.text → IsRun w es → IsAllowed w e (reached w es) → (Contains (looked w e (reached w es)) f → ⊥) → IsAllowed w f (reached w es) ↔ IsAllowed w f (after w e (reached w es)) }
{
    frame::<C>();
    numbers_are_drawn_once::<C>();
}

/// After every run: all allowed events, in order, are after an event what becomes of them when some events are looked
/// at again, these among them, each put in where it is allowed, and else taken out.
pub fn enabled_is_kept<C>()
    ensures { (w : Fixed C) (es : List Event) (e : Event) (again all : List Event) → IsText w.text → IsRun w es → IsAllowed w e (reached w es) → AreEnough w e (reached w es) again → IsEnabled w (reached w es) all → IsEnabled w (after w e (reached w es)) (revised w (after w e (reached w es)) again all) }
{
    allowed_or_refused::<C>();
    frame::<C>();
    numbers_are_drawn_once::<C>();
}

/// After every run, for a host that lists only after an event, and looks again at what it had among the allowed ones and at
/// what it lists: all allowed events, in order, are after the event what becomes of them when these are looked at again, each
/// put in where it is allowed, and else taken out.
pub fn enabled_is_renewed<C>()
    ensures { (w : Fixed C) (es : List Event) (e : Event) (again all : List Event) → IsText w.text → IsRun w es → IsAllowed w e (reached w es) → AreRenewed w e (reached w es) all again → IsEnabled w (reached w es) all → IsEnabled w (after w e (reached w es)) (revised w (after w e (reached w es)) again all) }
{
    allowed_or_refused::<C>();
    frame::<C>();
    numbers_are_drawn_once::<C>();
}

/// In every state what is allowed is listed with what lies there.
pub fn allowed_lies_there<C>()
    ensures { (w : Fixed C) (s : Machine C) (f : Event) → IsAllowed w f s → Contains (live w s) f }
{}

/// In every state: where all that lies there and is allowed is looked at, beginning with none, all allowed events are
/// found, in order.
pub fn enabled_is_found<C>()
    ensures { (w : Fixed C) (s : Machine C) (es : List Event) → AreAll w s es → IsEnabled w s (revised w s es []) }
{
    allowed_or_refused::<C>();
}

/// In every state: where each part tells what it has to, by itself, of the events that are asked for, each of these that is
/// allowed is told of. So where all are asked for it is all to look at, and where those are that an event touches, with what
/// was there before, a host has all to look at after it.
pub fn parts_tell_all<C>()
    ensures told { (asked : Event → Bool) (w : Fixed C) (s : Machine C) (es : List Event) → PartsTell asked w s es → (f : Event) → asked f ≡ true → IsAllowed w f s → Contains es f }
    ensures all { (w : Fixed C) (s : Machine C) (es : List Event) → PartsTell (λ f. true) w s es → AreAll w s es }
    ensures renewed { (w : Fixed C) (e : Event) (s : Machine C) (all es : List Event) → ((f : Event) → Contains all f → is_touched w e s f ≡ true → Contains es f) → PartsTell (is_touched w e s) w (after w e s) es → AreRenewed w e s all es }
{}
