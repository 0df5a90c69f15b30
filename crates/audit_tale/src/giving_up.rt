//! An ACT is given up, and nobody gains from it any more.
ghost use Rattle.std.specs.Prelude.{◌≡◌, ℕ, ◌<◌, true, false, Some, List, [], ◌∷◌, length, MatchOption};
ghost use Rattle.std.specs.List.{AllByRecursion};
ghost use Rattle.protocol.specs.Fixed.{Text};
ghost use Rattle.protocol.specs.Words.{is_among};
ghost use Rattle.audit_words.specs.Happenings as happenings;
ghost use Rattle.audit_words.specs.Seen.{Seen, sets_cross, was_given_up};
ghost use Rattle.audit_tale.specs.GivenUp.{ChangesWaiters, MayGiveUp, crosses, crossings};
ghost use Rattle.audit_tale.specs.Knows.{owner_of, why_of};
ghost use Rattle.audit_tale.specs.Risen.{tids};
ghost use Rattle.audit_tale.specs.Stands.{KnowsAll};
ghost use Rattle.audit_tale.specs.declared.tales.Owner.TheVariants as owners;

use crate::tales::{ActTale, Reason};
use crate::telling::act_at;
use crate::told::{ActTies, Told};
use snap_base::{ActorId, Bid, Tid};

/// Each of these ACTs that is live, and whose greatest batch before it is not below the least behind it, is given up at an
/// event on this actor. No other ACT may be one of that kind.
pub(crate) fn cross_each(told: &mut Told, us: &[Tid], a: ActorId)
    ensures { (w : Text) (s : Seen) → MayGiveUp s → AllByRecursion (λ x. sets_cross s x.tid ≡ true → is_among x.tid (tids us.now) ≡ true) s.acts → KnowsAll w told.old s → KnowsAll w told.new (happenings.cross_out a.0 s) }
{
    for u in us {
        cross(told, *u, a);
    }
}

/// The same of one ACT. A tid that no ACT drew changes nothing.
fn cross(told: &mut Told, u: Tid, a: ActorId)
    ensures { (w : Text) (s : Seen) → MayGiveUp s → KnowsAll w told.old s → KnowsAll w told.new (happenings.give_up (crossings a.0 (u.0 ∷ []) s) s) }
{
    let Some(at) = act_at(&told.tale, u) else {
        return;
    };
    let act = told.tale.acts[at];
    let Some(behind) = crossed(&act) else {
        return;
    };
    give_up(told, at, Reason::Crossed(act.before, behind, a));
}

/// The least batch behind an ACT that is live and whose numbers cross; `None` exactly of any other one.
fn crossed(act: &ActTale) -> Option<Bid>
    ensures { MatchOption result (crosses act.now ≡ false) (λ k. (crosses act.now ≡ true) × (act.now.behind ≡ Some k)) }
{
    if act.given_up.is_some() {
        return None;
    }
    if act.decided {
        return None;
    }
    match act.behind {
        Some(behind) if behind.0 <= act.before.0 => Some(behind),
        _ => None,
    }
}

/// The ACT that is kept at `at`, and was not given up, is given up for this reason.
pub(crate) fn give_up(told: &mut Told, at: usize, why: Reason)
    requires { at < length told.old.tale.acts.items }
    ensures { (w : Text) (s : Seen) (u : ℕ) → MayGiveUp s → KnowsAll w told.old s → owner_of u told.old.tale.owners.items ≡ Some (owners.Act at) → was_given_up s.dooms u ≡ false → KnowsAll w told.new (happenings.give_up (record { tid = u; why = why_of why } ∷ []) s) }
{
    told.tale.acts[at].given_up = Some(why);
    forget_waiters(&mut told.ties, at);
}

/// Nobody stands behind the ACT that is kept at `at` any more.
fn forget_waiters(ties: &mut Vec<ActTies>, at: usize)
    ensures { ChangesWaiters at (λ ws. []) ties.old.items ties.new.items }
{
    if at >= ties.len() {
        return;
    }
    ties[at].waiters.clear();
}
