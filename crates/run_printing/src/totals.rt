//! The sum of all fields of all actors.
ghost use Rattle.std.specs.Prelude.{◌≡◌, ◌≤◌, ◌*◌, ◌^◌, List, length, map, unsigned_abs};
ghost use Rattle.protocol.specs.Events as machine;
ghost use Rattle.run_printing.specs.Summed.{sum_of, total_of};
ghost use Rattle.snap_core.specs.Cores.{IsAt, state_at};

use aml_slice::Control;
use machine_laws::sizes_hold;
use snap_base::ActorId;
use snap_core::Core;

/// The sum of all fields of all actors.
pub(crate) fn total_of(core: &Core) -> i128
    ensures { (es : List machine.Event) → IsAt core.now es → result ≡ total_of (map (λ c. c.state) (state_at core.now es).cells) }
{
    sizes_hold::<Control>();
    let count = core.tables().opening.states.len();
    let mut total: i128 = 0;
    for number in 0..count {
        let state = core.state(ActorId(number as u16));
        total += sum_of(state.0.as_slice());
    }
    total
}

/// The sum of the fields of an actor.
fn sum_of(values: &[i64]) -> i128
    requires few { length values.now ≤ 16 }
    ensures sum { result ≡ sum_of values.now }
    ensures small { unsigned_abs result ≤ 16 * 2 ^ 63 }
{
    let mut sum: i128 = 0;
    for value in values {
        sum += *value as i128;
    }
    sum
}
