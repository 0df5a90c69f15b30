//! What is done where an ACT or a batch comes to an actor.
ghost use Rattle.std.specs.Prelude.{◌≡◌, List, [], ◌∷◌, ◌++◌, map, OnOk, OnErr, IfOk, if◌then◌else◌};
ghost use Rattle.protocol.specs.Meant.{tid_number};
ghost use Rattle.protocol.specs.OnBook.{joins, lowered, new_pairs};
ghost use Rattle.order_book.specs.Asked.{locks_of};
ghost use Rattle.order_book.specs.Changes.{changed_at};

use crate::change::Change;
use crate::pair::Pair;
use crate::register::Register;
use snap_base::{ActorId, Bid, Memory, Tid};
use std::alloc::Global;

/// A pair for each of those ahead that is not given up.
pub(crate) fn new_pairs(
    alloc: Global,
    register: &Register,
    behind: Tid,
    ahead: &[Tid],
    actor: ActorId,
) -> Result<Vec<Pair>, Memory>
    ensures { IfOk result (λ made. made.items ≡ new_pairs behind.0 actor.0 (locks_of ahead.now) register.now) }
{
    let mut made = Vec::new(alloc);
    for t in ahead {
        let is_given_up = register.is_given_up(*t);
        add_unless(is_given_up, &mut made, Pair::new(behind, *t, actor))?;
    }
    Ok(made)
}

fn add_unless(is_left_out: bool, made: &mut Vec<Pair>, pair: Pair) -> Result<(), Memory>
    ensures { OnOk result (made.new.items ≡ (if is_left_out then made.old.items else made.old.items ++ pair ∷ [])) }
{
    if !is_left_out {
        made.push(pair)?;
    }
    Ok(())
}

/// The ACT at a place joins an actor, behind a batch and in the pairs made for it. For want of memory all is as before.
pub(crate) fn join(
    register: &mut Register,
    pairs: &mut Vec<Pair>,
    at: usize,
    made: Vec<Pair>,
    behind: Bid,
    actor: ActorId,
) -> Result<(), Memory>
    ensures acts { OnOk result (register.new ≡ changed_at at (joins actor.0 behind.0) register.old) }
    ensures pairs { OnOk result (pairs.new.items ≡ pairs.old.items ++ made.items) }
    ensures acts_stay { OnErr result (register.new ≡ register.old) }
    ensures pairs_stay { OnErr result (pairs.new.items ≡ pairs.old.items) }
{
    let mut made = made;
    pairs.reserve(made.len())?;
    register.join(at, actor, behind)?;
    let _added = pairs.append(&mut made);
    Ok(())
}

/// The batch stands behind each of the ACTs.
pub(crate) fn lower_each(register: &mut Register, acts: &[Tid], bid: Bid)
    ensures { register.new ≡ map (lowered bid.0 (map tid_number acts.now)) register.old }
{
    for t in acts {
        let at = register.place_of(*t);
        register.change(at, Change::Lower(bid));
    }
}
