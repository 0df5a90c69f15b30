//! Nobody gains any more from an ACT that is given up.
ghost use Rattle.std.specs.Prelude.{◌≡◌, ◌==◌, slice_get};
ghost use Rattle.protocol.specs.Words.{holds};
ghost use Rattle.audit_tale.specs.Touching.{AreEased, IsEased, gave_up, lives};

use crate::tales::ActTale;
use crate::told::ActTies;

/// Whether an ACT is neither given up nor decided.
pub(crate) fn is_live(act: &ActTale) -> bool
    ensures { result ≡ lives act.now }
{
    match act.given_up {
        Some(_reason) => false,
        None => !act.decided,
    }
}

/// Whether there is an ACT at this place, and it is neither given up nor decided.
pub(crate) fn is_live_at(acts: &[ActTale], at: usize) -> bool
    ensures { result ≡ holds lives (slice_get acts.now at) }
{
    match acts.get(at) {
        Some(act) => is_live(act),
        None => false,
    }
}

/// Whether there is an ACT at this place, and it is given up.
fn has_given_up(acts: &[ActTale], at: usize) -> bool
    ensures { result ≡ gave_up (slice_get acts.now at) }
{
    match acts.get(at) {
        Some(act) => act.given_up.is_some(),
        None => false,
    }
}

/// Nobody gains any more from an ACT that is over.
fn ease_one(ties: &mut ActTies, over: bool)
    ensures { IsEased over ties.old ties.new }
{
    if over {
        ties.waiters.clear();
    }
}

/// Nobody gains any more from the ACT at this place where it is given up. Where none is kept there, nothing changes.
pub(crate) fn ease_at(acts: &[ActTale], ties: &mut [ActTies], at: usize)
    ensures { AreEased (λ i. at == i) acts.now ties.old ties.new }
{
    if at < ties.len() {
        let over = has_given_up(acts, at);
        ease_one(&mut ties[at], over);
    }
}
