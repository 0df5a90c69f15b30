//! An event is tried: whether it is allowed is asked once, as a rule by the step itself.
ghost use Rattle.std.specs.Prelude.{◌≡◌, true, false};
ghost use Rattle.protocol.specs.Events as machine;
ghost use Rattle.snap_core.specs.Cores.{CoreState, IsNoBy};
ghost use Rattle.snap_core.specs.core_events.Meant.{event_meant};
ghost use Rattle.snap_core.specs.Kept.{IsAllowedAt, IsRefusedAt};
ghost use Rattle.solo_host.specs.Turns.{HasTried, asks_outside};

use aml_slice::Control;
use protocol_laws::allowed_or_refused;
use snap_core::{Core, Event, StepNo};
use std::alloc::Global;

/// What became of an event that was tried.
#[derive(Clone, Copy)]
pub(crate) enum Tried {
    /// It is not allowed.
    Refused,
    /// It was taken.
    Taken,
    /// It is allowed, and was not taken: something is to be done outside ahead of it.
    Asks,
    /// There was no memory.
    Memory,
}

/// Whether the event is allowed.
pub(crate) fn is_allowed(core: &Core, e: Event) -> bool
    ensures allowed { result ≡ true → IsAllowedAt core.now (event_meant e) }
    ensures refused { result ≡ false → IsRefusedAt core.now (event_meant e) }
{
    allowed_or_refused::<Control>();
    core.refusal(e) == 0
}

/// Asks for an event ahead of which something is done outside.
fn ask(core: &Core, e: Event) -> Tried
    ensures { HasTried (event_meant e) core.now core.now result }
{
    if is_allowed(core, e) {
        Tried::Asks
    } else {
        Tried::Refused
    }
}

/// What became of an event that a step did not take.
fn not_taken(no: StepNo) -> Tried
    ensures { (e : machine.Event) (c : CoreState) → IsNoBy e c no → HasTried e c c result }
{
    allowed_or_refused::<Control>();
    match no {
        StepNo::NotNow { rule: _ } => Tried::Refused,
        StepNo::Memory => Tried::Memory,
    }
}

/// Takes an event ahead of which nothing is done outside, where it is allowed.
fn take(alloc: Global, core: &mut Core, e: Event) -> Tried
    requires { asks_outside (event_meant e) ≡ false }
    ensures tried { HasTried (event_meant e) core.old core.new result }
    ensures tables { core.new.tables ≡ core.old.tables }
{
    match core.step(alloc, e) {
        Ok(()) => Tried::Taken,
        Err(no) => not_taken(no),
    }
}

/// Takes the event, where it is allowed and nothing is done outside ahead of it.
pub(crate) fn try_event(alloc: Global, core: &mut Core, e: Event) -> Tried
    ensures tried { HasTried (event_meant e) core.old core.new result }
    ensures tables { core.new.tables ≡ core.old.tables }
{
    match e {
        Event::Sync(_) => ask(core, e),
        Event::Reply(_) => ask(core, e),
        _ => take(alloc, core, e),
    }
}
