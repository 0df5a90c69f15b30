//! Which of the kept events comes next.
ghost use Rattle.std.specs.Prelude.{◌≡◌, ◌+◌, ◌<◌, ℕ, List, [], length, Contains, None, Some, IfSome, slice_get};
ghost use Rattle.aml_slice.specs.Controls.{Rest};
ghost use Rattle.snap_core.specs.core_events.Meant.{event_meant};
ghost use Rattle.protocol.specs.Conditions.{IsAllowed};
ghost use Rattle.protocol.specs.Events as machine;
ghost use Rattle.protocol.specs.Fixed.{Fixed};
ghost use Rattle.protocol.specs.Parts.{Machine};
ghost use Rattle.protocol.specs.Runs.{IsQuiet, reached};
ghost use Rattle.protocol.specs.Schedule.{pick};
ghost use Rattle.protocol_schedule.specs.Draw.{draw_of, word_of};
ghost use Rattle.solo_host.specs.Outside.{IsPicked};
ghost use Rattle.solo_host.specs.Turns.{IsBehindWords, IsKeptFor};

use rand_core::utils::NextWord;
use rand_pcg::Pcg32;
use snap_core::{Event, ReadyList, front};

/// The generator of a seed, which has drawn no word yet.
pub(crate) fn generator_of(seed: u64) -> Pcg32
    ensures { IsBehindWords seed 0 result }
{
    Pcg32::new(seed, 0)
}

/// Draws the word of a step, behind those of the steps before it.
pub(crate) fn draw(generator: &mut Pcg32) -> u32
    ensures word { (seed step : ℕ) → IsBehindWords seed step generator.old → result ≡ word_of seed step }
    ensures drawn { (seed step : ℕ) → IsBehindWords seed step generator.old → IsBehindWords seed (step + 1) generator.new }
{
    generator.next_word()
}

/// The place that the seed picks by the word of a step, of so many.
fn place_of(seed: u64, word: u32, many: usize) -> usize
    requires { 0 < many }
    ensures within { result < many }
    ensures place { (step : ℕ) → word ≡ word_of seed step → result ≡ pick (draw_of seed) step many }
{
    if seed == 0 { 0 } else { word as usize % many }
}

/// The event at the place that the seed picks by the word of a step; `None` exactly where there are none.
fn by_word(seed: u64, word: u32, enabled: &ReadyList) -> Option<Event>
    ensures some { IfSome result (λ e. (step : ℕ) → word ≡ word_of seed step → slice_get enabled.now.events (pick (draw_of seed) step (length enabled.now.events)) ≡ Some (event_meant e)) }
    ensures none { result ≡ None → enabled.now.events ≡ [] }
    ensures there { IfSome result (λ e. Contains enabled.now.events (event_meant e)) }
{
    if enabled.count() == 0 {
        return None;
    }
    enabled.nth(place_of(seed, word, enabled.count()))
}

/// The event that the seed's schedule takes by the word of a step, of those that are kept, if it is allowed; `None` exactly where
/// none is kept, and then none is allowed. With another seed than 0 all that are kept are allowed.
pub(crate) fn by_seed(seed: u64, word: u32, list: &ReadyList) -> Option<Event>
    ensures some { IfSome result (λ e. (w : Fixed Rest) (es : List machine.Event) → word ≡ word_of seed (length es)
        → IsKeptFor seed w (reached w es) list.now.events → IsAllowed w (event_meant e) (reached w es)
        → IsPicked w seed es (event_meant e)) }
    ensures none { result ≡ None → (w : Fixed Rest) (s : Machine Rest) → IsKeptFor seed w s list.now.events → IsQuiet w s }
    ensures there { IfSome result (λ e. Contains list.now.events (event_meant e)) }
{
    if seed == 0 {
        front(list)
    } else {
        by_word(seed, word, list)
    }
}
