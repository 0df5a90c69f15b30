//! The events that were taken.
ghost use Rattle.std.specs.Prelude.{◌≡◌, ◌<◌, ◌≤◌, ◌+◌, [], ◌∷◌, ◌++◌, vec_len, vec_capacity};

use snap_core::Event;

/// Keeps the event, in a list that has room for it.
pub(crate) fn keep(kept: &mut Vec<Event>, e: Event)
    requires { vec_len kept.old < vec_capacity kept.old }
    ensures kept { kept.new.items ≡ kept.old.items ++ e ∷ [] }
    ensures many { vec_len kept.new ≡ vec_len kept.old + 1 }
    ensures room { vec_capacity kept.old ≤ vec_capacity kept.new }
{
    match kept.push(e) {
        Ok(()) => {}
        Err(_) => {}
    }
}
