//! The actors' states after the records that count.
ghost use Rattle.std.specs.Prelude.{◌≡◌, ℕ, ◌%◌, ◌<◌, [], ◌∷◌, length, MatchOption, IfOk};
ghost use Rattle.std.specs.List.{AllByRecursion};
ghost use Rattle.std.specs.List.Sorted.{IsStrictlySortedBy};
ghost use Rattle.std.specs.Ordering.{nat_cmp};
ghost use Rattle.snap_recover.specs.declared.kinds.Kind.TheVariants as kinds;
ghost use Rattle.snap_recover.specs.Logs.{all_of, states_in};
ghost use Rattle.snap_recover.specs.Opening.{IsInRange, AreStatesOf};
ghost use Rattle.snap_recover.specs.Passes.{In, HasCommitted, RecordTellsState, Replays};

use crate::ordered::has_number;
use snap_base::{Memory, Sequence, State};
use std::alloc::Global;
use txn_records::Record;

/// The states of the actors, which began with these. The lists have the batches and the undeclared transactions that
/// are in.
pub(crate) fn states_after(
    alloc: Global,
    logs: &[Sequence<Record>],
    first: &[State],
    batches: &[u64],
    acts: &[u64],
) -> Result<Vec<State>, Memory>
    requires some { 0 < length logs.now }
    requires range { AllByRecursion (IsInRange (length first.now)) (all_of logs.now) }
    requires batches { HasCommitted kinds.Batch logs.now batches.now }
    requires acts { HasCommitted kinds.Act logs.now acts.now }
    ensures { IfOk result (λ states. AreStatesOf logs.now first.now states.items) }
{
    let mut states = Vec::from_slice(alloc, first)?;
    let count = logs.len() as u64;
    for i in 0..logs.len() {
        replay(
            &mut states,
            logs[i].as_slice(),
            i as u64,
            count,
            batches,
            acts,
        );
    }
    Ok(states)
}

/// Gives the actors whose log this is, number `log` of `logs`, the states that it tells of these batches and of these
/// undeclared transactions.
fn replay(
    states: &mut Vec<State>,
    rs: &[Record],
    log: u64,
    logs: u64,
    batches: &[u64],
    acts: &[u64],
)
    requires some { 0 < logs }
    requires batches { IsStrictlySortedBy nat_cmp batches.now }
    requires acts { IsStrictlySortedBy nat_cmp acts.now }
    requires range { AllByRecursion (IsInRange (length states.old.items)) rs.now }
    ensures { Replays log logs (In batches.now) (In acts.now) rs.now states.old.items states.new.items }
{
    let mut near = Near {
        batches: 0,
        acts: 0,
    };
    for r in rs {
        if let Some((actor, state)) = state_here(r, log, logs, batches, acts, &mut near) {
            states[actor] = state;
        }
    }
}

/// Where the batch and the undeclared transaction of the records before were found.
#[derive(Drop)]
struct Near {
    batches: usize,
    acts: usize,
}

/// The actor and the state that the record tells, of one of these batches or of these undeclared transactions, where
/// the log is that actor's.
fn state_here(
    r: &Record,
    log: u64,
    logs: u64,
    batches: &[u64],
    acts: &[u64],
    near: &mut Near,
) -> Option<(usize, State)>
    requires some { 0 < logs }
    requires batches { IsStrictlySortedBy nat_cmp batches.now }
    requires acts { IsStrictlySortedBy nat_cmp acts.now }
    ensures { MatchOption result ((a : ℕ) → a % logs ≡ log → ¬ RecordTellsState (In batches.now) (In acts.now) a r.now) (λ x. (x.0 % logs ≡ log) × (states_in r.now ≡ x.1 ∷ []) × RecordTellsState (In batches.now) (In acts.now) x.0 r.now) }
{
    match r {
        Record::BatchComplete { bid, actor, state } => {
            if actor.0 as u64 % logs == log && has_number(batches, bid.0, &mut near.batches) {
                Some((actor.0 as usize, *state))
            } else {
                None
            }
        }
        Record::ActPrepare { tid, actor, state } => {
            if actor.0 as u64 % logs == log && has_number(acts, tid.0, &mut near.acts) {
                Some((actor.0 as usize, *state))
            } else {
                None
            }
        }
        _ => None,
    }
}
