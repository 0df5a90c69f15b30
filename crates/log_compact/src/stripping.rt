//! Logs without their checkpoint.
ghost use Rattle.std.specs.Prelude.{◌≡◌, IsTrue, ◌↔◌, IsSome, ◌∷◌, [], drop};
ghost use Rattle.std.specs.List.{AllByRecursion};
ghost use Rattle.snap_recover.specs.Logs.{is_genesis};
ghost use Rattle.log_compact.specs.Points.{IsPlain};
ghost use Rattle.log_compact.specs.Sets.{HasNoStray, point_in, restated, states_at, without_point};
ghost use Rattle.log_compact.specs.Stripping.{IsStripped, IsToldBy};

use snap_base::{Sequence, State};
use std::alloc::Global;
use std::mem;
use txn_records::Record;

/// The numbers that a checkpoint tells; all 0 where there is none.
#[derive(Clone, Copy)]
pub(crate) struct Told {
    pub(crate) generation: u64,
    pub(crate) next_tid: u64,
    pub(crate) next_bid: u64,
    pub(crate) next_c: u64,
    pub(crate) batches: u64,
    pub(crate) acts: u64,
}

/// Where there is no checkpoint.
const NOTHING: Told = Told {
    generation: 0,
    next_tid: 0,
    next_bid: 0,
    next_c: 0,
    batches: 0,
    acts: 0,
};

/// Logs without their checkpoint: Genesis has its states.
#[derive(Drop)]
pub(crate) struct Stripped {
    /// The logs.
    pub(crate) lists: Sequence<Sequence<Record>>,
    /// The states that Genesis had, where it has others now.
    pub(crate) first: Option<Sequence<State>>,
    /// The checkpoint's numbers.
    pub(crate) told: Told,
}

/// The logs without their checkpoint.
pub(crate) fn strip_lists(alloc: Global, lists: Sequence<Sequence<Record>>) -> Stripped
    requires { HasNoStray lists }
    ensures { IsStripped lists result }
{
    let mut all = lists.into_vec();
    if all.len() == 0 || !has_point(all[0].as_slice()) {
        return Stripped {
            lists: Sequence::from_vec(all),
            first: None,
            told: NOTHING,
        };
    }
    let (first, told) = strip_list(alloc, &mut all[0]);
    Stripped {
        lists: Sequence::from_vec(all),
        first: Some(first),
        told,
    }
}

/// Whether the second record is a checkpoint, behind a Genesis.
fn has_point(records: &[Record]) -> bool
    ensures { IsTrue result ↔ IsSome (point_in records.now) }
{
    match (records.get(0), records.get(1)) {
        (Some(Record::Genesis { .. }), Some(Record::Checkpoint { .. })) => true,
        _ => false,
    }
}

/// Takes the checkpoint out of the list, and gives Genesis its states. The states that Genesis had, and the checkpoint's
/// numbers.
fn strip_list(alloc: Global, list: &mut Sequence<Record>) -> (Sequence<State>, Told)
    requires point { IsSome (point_in list.old) }
    requires plain { AllByRecursion IsPlain (drop 2 list.old) }
    ensures list { list.new ≡ without_point list.old (point_in list.old) }
    ensures first { result.0 ≡ states_at list.old }
    ensures told { IsToldBy (point_in list.old) result.1 }
{
    let mut records = mem::replace(list, Sequence::new(alloc)).into_vec();
    let Record::Checkpoint {
        generation,
        next_tid,
        next_bid,
        next_c,
        batches,
        acts,
        states,
    } = records.remove(1)
    else {
        unreachable!()
    };
    let first = restate(&mut records[0], states);
    *list = Sequence::from_vec(records);
    let told = Told {
        generation,
        next_tid: next_tid.0,
        next_bid: next_bid.0,
        next_c,
        batches,
        acts,
    };
    (first, told)
}

/// Gives Genesis these states, for those that it had.
fn restate(genesis: &mut Record, states: Sequence<State>) -> Sequence<State>
    requires { IsTrue (is_genesis genesis.old) }
    ensures new { genesis.new ≡ restated states genesis.old }
    ensures old { result ≡ states_at (genesis.old ∷ []) }
{
    match genesis {
        Record::Genesis { states: first, .. } => mem::replace(first, states),
        _ => unreachable!(),
    }
}
