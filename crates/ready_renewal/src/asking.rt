//! Whether an event is allowed, with all parts at hand.
ghost use Rattle.std.specs.Prelude.{◌≡◌, true, false};
ghost use Rattle.core_events.specs.Meant.{event_meant};
ghost use Rattle.ready_renewal.specs.Asked.{IsAllowedOn, IsRefusedOn};
ghost use Rattle.snap_hand.specs.Hands.{IsHandOf, IsWhole};
ghost use Rattle.snap_hand.specs.Steps.{OnSomeRun};
ghost use Rattle.snap_hand.specs.Tables.{AreTables, fixed_of};

use aml_slice::Control;
use core_events::Event;
use protocol_laws::allowed_or_refused;
use snap_hand::{Hand, Tables, refusal};

/// Whether the event is allowed.
pub(crate) fn is_allowed(tables: &Tables, hand: &Hand, e: Event) -> bool
    requires tables { AreTables tables.now }
    requires places { IsHandOf (fixed_of tables.now) hand.now }
    requires whole { IsWhole hand.now }
    requires some { OnSomeRun (fixed_of tables.now) hand.now }
    ensures allowed { result ≡ true → IsAllowedOn (fixed_of tables.now) hand.now (event_meant e) }
    ensures refused { result ≡ false → IsRefusedOn (fixed_of tables.now) hand.now (event_meant e) }
{
    allowed_or_refused::<Control>();
    refusal(tables, hand, e) == 0
}
