//! The calls that a PACT declared and has left.

ghost use Rattle.aml_values.specs.Uses.{IsTaken};

use snap_base::ActorId;

/// One call of an actor less of those that a PACT declared. False, with nothing changed, where none of them
/// is left.
pub fn one_less(uses: &mut [(ActorId, u8)], actor: usize) -> bool
    ensures { IsTaken actor uses.old uses.new result }
{
    for at in 0..uses.len() {
        if uses[at].0.0 as usize == actor {
            if uses[at].1 == 0 {
                return false;
            }
            uses[at].1 -= 1;
            return true;
        }
    }
    false
}
