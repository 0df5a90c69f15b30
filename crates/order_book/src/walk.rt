//! What an event changes of ACTs that it does not name.
ghost use Rattle.std.specs.Prelude.{◌≡◌, filter};
ghost use Rattle.protocol.specs.Spread.{crossed_out};
ghost use Rattle.order_book.specs.Changes.{changed_by, changed_along, raised_along};
ghost use Rattle.order_book.specs.Walking.{is_walked_at};

use crate::change::Change;
use crate::pair::Pair;
use crate::register::Register;
use snap_base::ActorId;

/// What becomes of each walked ACT; who is then no more to be walked is left out.
pub(crate) fn change_walked(
    register: &mut Register,
    walked: &mut Vec<usize>,
    pairs: &[Pair],
    change: Change,
)
    ensures acts { register.new ≡ changed_along walked.old.items (changed_by change) register.old }
    ensures kept { walked.new.items ≡ filter (is_walked_at pairs.now register.new) walked.old.items }
{
    change_along(register, walked.as_slice(), change);
    keep_walked(walked, register, pairs);
}

/// Numbers rise along the pairs; then who stands both behind a batch and ahead of it is given up.
pub(crate) fn spread(
    register: &mut Register,
    walked: &mut Vec<usize>,
    pairs: &[Pair],
    actor: ActorId,
)
    ensures acts { register.new ≡ changed_along walked.old.items (crossed_out actor.0) (raised_along pairs.now walked.old.items register.old) }
    ensures kept { walked.new.items ≡ filter (is_walked_at pairs.now register.new) walked.old.items }
{
    raise_along(register, walked.as_slice(), pairs);
    change_walked(register, walked, pairs, Change::Cross(actor));
}

/// Leaves out who is no more to be walked.
pub(crate) fn keep_walked(walked: &mut Vec<usize>, register: &Register, pairs: &[Pair])
    ensures { walked.new.items ≡ filter (is_walked_at pairs.now register.now) walked.old.items }
{
    walked.retain(|at| register.is_walked(*at, pairs));
}

fn change_along(register: &mut Register, walked: &[usize], change: Change)
    ensures { register.new ≡ changed_along walked.now (changed_by change) register.old }
{
    for at in walked {
        register.change(*at, change);
    }
}

/// Each takes the number of those that it stands behind, the youngest first: they are younger, and have risen before.
fn raise_along(register: &mut Register, walked: &[usize], pairs: &[Pair])
    ensures { register.new ≡ raised_along pairs.now walked.now register.old }
{
    let mut left = walked.len();
    while left > 0 {
        left -= 1;
        let at = walked[left];
        let number = register.carried(at, pairs);
        register.change(at, Change::Raise(number));
    }
}
