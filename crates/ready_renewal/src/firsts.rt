//! The front of a list that leaves no allowed event out.
ghost use Rattle.std.specs.Option.{option_map};
ghost use Rattle.std.specs.Prelude.{◌≡◌, None, IfSome, slice_get};
ghost use Rattle.aml_slice.specs.Controls.{Rest};
ghost use Rattle.core_events.specs.Meant.{event_meant};
ghost use Rattle.protocol.specs.Conditions.{IsAllowed};
ghost use Rattle.protocol.specs.Fixed.{Fixed};
ghost use Rattle.protocol.specs.Parts.{Machine};
ghost use Rattle.protocol.specs.Runs.{IsQuiet};
ghost use Rattle.ready_renewal.specs.Covering.{Covers, IsFirst};

use aml_slice::Control;
use core_events::Event;
use protocol_laws::allowed_or_refused;
use ready_list::ReadyList;

/// The front of a list among which all allowed events are, and no event is asked: it is the first of the allowed events, if it is
/// allowed. `None` exactly where the list is empty, and then there are none.
pub fn front(list: &ReadyList) -> Option<Event>
    ensures some { IfSome result (λ e. (w : Fixed Rest) (s : Machine Rest) → Covers w s list.now.events → IsAllowed w (event_meant e) s → IsFirst w s (event_meant e)) }
    ensures none { result ≡ None → (w : Fixed Rest) (s : Machine Rest) → Covers w s list.now.events → IsQuiet w s }
    ensures front { option_map event_meant result ≡ slice_get list.now.events 0 }
{
    allowed_or_refused::<Control>();
    list.nth(0)
}
