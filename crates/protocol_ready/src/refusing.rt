//! Which allowed events another one may refuse. `C` is the type of controls.

ghost use Rattle.protocol.specs.Laws.{AfterEveryRun, OfEveryRun};
ghost use Rattle.protocol_ready.specs.Refusing.{KeepsOthers, RefusesItself, RenewedAreEnabled};

use protocol_laws::{allowed_or_refused, events_go_one_way, frame, numbers_are_drawn_once};
use protocol_verdicts::verdicts_have_evidence;

/// After every run: an event that was just taken is not allowed right behind itself.
pub fn no_event_is_allowed_again<C>()
    ensures { AfterEveryRun (RefusesItself {C = C}) }
{}

/// After every run: what is allowed stays allowed after another event that may not refuse it.
pub fn out_of_reach_stay<C>()
    ensures { OfEveryRun (KeepsOthers {C = C}) }
{
    frame::<C>();
    numbers_are_drawn_once::<C>();
    events_go_one_way::<C>();
    verdicts_have_evidence::<C>();
}

/// After every run: the list of all allowed events, in order, is the list of all allowed events after one more event when each
/// of those that it may refuse, and that is refused, is taken out, and each is put in that it has made allowed.
pub fn renewed_are_enabled<C>()
    ensures { OfEveryRun (RenewedAreEnabled {C = C}) }
{
    out_of_reach_stay::<C>();
    allowed_or_refused::<C>();
    frame::<C>();
    numbers_are_drawn_once::<C>();
}
