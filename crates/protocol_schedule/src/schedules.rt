//! The schedule of a seed, computed. `C` is the type of controls.

ghost use Rattle.std.specs.Prelude.{ℕ};
ghost use Rattle.protocol.specs.Fixed.{Fixed, IsText};
ghost use Rattle.protocol.specs.Runs.{IsRun};
ghost use Rattle.protocol_schedule.specs.Draw.{IsFrontOfSeed, schedule_of};

use protocol_laws::allowed_candidates_are_enabled;

/// The first events that a seed takes, as many as asked for, are a run and a front of the seed's schedule.
pub fn schedules_are_followed<C>()
    ensures runs { (w : Fixed C) (seed many : ℕ) → IsText w.text → IsRun w (schedule_of w seed many) }
    ensures follows { (w : Fixed C) (seed many : ℕ) → IsText w.text → IsFrontOfSeed w seed (schedule_of w seed many) }
{
    allowed_candidates_are_enabled::<C>();
}
