//! The group that stands for what a set folds to, and its append.
ghost use Rattle.std.specs.Prelude.{◌≡◌, ◌+◌, ◌<◌, ◌^◌, IfOk};
ghost use Rattle.log_compact.specs.Compacting.{group_for};

use log_compact::Folded;
use snap_base::{Memory, Sequence};
use std::alloc::Global;
use txn_records::Record;

/// Genesis with the states with which the first run began, and the checkpoint of what this is.
pub(crate) fn group_of(alloc: Global, count: u8, folded: Folded) -> Result<Sequence<Record>, Memory>
    requires { folded.generation + 1 < 2 ^ 64 }
    ensures { IfOk result (λ group. group ≡ group_for count folded) }
{
    let Folded {
        opening,
        first,
        generation,
        batches,
        acts,
    } = folded;
    let states = Sequence::from_vec(Vec::from_slice(alloc, opening.states.as_slice())?);
    let mut group = Sequence::new(alloc);
    group.push(Record::Genesis {
        logs: count,
        states: first,
    })?;
    group.push(Record::Checkpoint {
        generation: generation + 1,
        next_tid: opening.next_tid,
        next_bid: opening.next_bid,
        next_c: opening.next_c,
        batches,
        acts,
        states,
    })?;
    Ok(group)
}
