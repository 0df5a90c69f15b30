//! Recovery: its checks, in the order in which a refusal is told, and the opening; and its parts alone.
ghost use Rattle.std.specs.Prelude.{◌<◌, length, IfOk, IfErr, MatchResult};
ghost use Rattle.std.specs.List.{AllByRecursion};
ghost use Rattle.snap_recover.specs.declared.kinds.Kind.TheVariants as kinds;
ghost use Rattle.snap_recover.specs.Logs.{all_of};
ghost use Rattle.snap_recover.specs.Opening.{AreBegunWith, AreStatesOf, AreWhollyCommitted, IsInRange, IsRecovered};
ghost use Rattle.snap_recover.specs.Refusals.{IsLack, IsNotBegun, IsRefused};
ghost use Rattle.snap_recover.specs.Passes.{HasCommitted};

use crate::commits::commits_of;
use crate::genesis::{count_geneses, first_genesis};
use crate::index::{Index, index_of};
use crate::keeping::keep_all;
use crate::kinds::Kind;
use crate::numbers::next_numbers;
use crate::ranges::check_range;
use crate::states::states_after;
use crate::values::check_values;
use crate::wholes::check_all;
use crate::{Kept, Opening, RecoverNo};
use snap_base::{Bid, Memory, Sequence, State, Tid};
use std::alloc::Global;
use txn_records::Record;

/// What the records of the logs, one list for each log, recover to. Of the causes for which they are refused the first in
/// the order of `RecoverNo` is told.
pub fn recover(alloc: Global, logs: &[Sequence<Record>]) -> Result<Opening, RecoverNo>
    ensures recovered { IfOk result (λ o. IsRecovered logs.now o) }
    ensures refused { IfErr result (λ no. IsRefused logs.now no) }
{
    let first = first_states(logs)?;
    opening(alloc, logs, first.as_slice())
}

/// The states with which the logs began: those of their one Genesis, which tells how many logs there are. All records are in range.
/// `Missing`, `Values` and `Memory` are not answered.
pub fn first_states(logs: &[Sequence<Record>]) -> Result<&Sequence<State>, RecoverNo>
    ensures begun { IfOk result (λ first. AreBegunWith logs.now first.now) }
    ensures few { IfOk result (λ _. length logs.now < 256) }
    ensures refused { IfErr result (λ no. IsNotBegun logs.now no) }
{
    let Some((count, first)) = first_genesis(logs) else {
        return Err(RecoverNo::NoGenesis);
    };
    if count_geneses(logs) == 2 {
        return Err(RecoverNo::TwoGenesis);
    }
    if count as usize != logs.len() {
        return Err(RecoverNo::LogCount {
            kept: count as u64,
            found: logs.len() as u64,
        });
    }
    check_range(logs, first.len())?;
    Ok(first)
}

/// What logs recover to whose one Genesis has these states, and whose records are in range.
fn opening(alloc: Global, logs: &[Sequence<Record>], first: &[State]) -> Result<Opening, RecoverNo>
    requires some { 0 < length logs.now }
    requires few { length logs.now < 256 }
    requires begun { AreBegunWith logs.now first.now }
    ensures { MatchResult result (λ o. IsRecovered logs.now o) (λ no. IsLack logs.now no) }
{
    let found = found_whole(alloc, logs)?;
    let states = states_after(
        alloc,
        logs,
        first,
        &found.batches.committed,
        &found.acts.committed,
    )?;
    let next = next_numbers(logs);
    Ok(Opening {
        states: Sequence::from_vec(states),
        committed: found.kept,
        next_tid: Tid(next.tid),
        next_bid: Bid(next.bid),
        next_c: next.commit,
    })
}

/// What is committed in the logs, in the order of the places, where nothing is lacking of it. Neither their Genesis nor their
/// numbers are asked: what is lacking is the one refusal, `Missing` or `Values`, and `Memory`.
pub fn committed(alloc: Global, logs: &[Sequence<Record>]) -> Result<Sequence<Kept>, RecoverNo>
    requires some { 0 < length logs.now }
    requires few { length logs.now < 256 }
    ensures committed { IfOk result (λ kept. AreWhollyCommitted logs.now kept) }
    ensures refused { IfErr result (λ no. IsLack logs.now no) }
{
    let found = found_whole(alloc, logs)?;
    Ok(found.kept)
}

/// The states of the actors, which began with these, after all that is committed in the logs.
pub fn replayed(
    alloc: Global,
    logs: &[Sequence<Record>],
    first: &[State],
) -> Result<Sequence<State>, Memory>
    requires some { 0 < length logs.now }
    requires range { AllByRecursion (IsInRange (length first.now)) (all_of logs.now) }
    ensures { IfOk result (λ states. AreStatesOf logs.now first.now states) }
{
    let batches = index_of(alloc, Kind::Batch, logs)?;
    let acts = index_of(alloc, Kind::Act, logs)?;
    let states = states_after(alloc, logs, first, &batches.committed, &acts.committed)?;
    Ok(Sequence::from_vec(states))
}

/// What is committed, and nothing is lacking of it.
#[derive(Drop)]
struct FoundWhole {
    batches: Index,
    acts: Index,
    /// What is kept of each, in the order of the places.
    kept: Sequence<Kept>,
}

/// What is committed in the logs, where nothing is lacking of it: of the batches, then of the undeclared transactions; then their values.
fn found_whole(alloc: Global, logs: &[Sequence<Record>]) -> Result<FoundWhole, RecoverNo>
    requires some { 0 < length logs.now }
    requires few { length logs.now < 256 }
    ensures kept { IfOk result (λ found. AreWhollyCommitted logs.now found.kept) }
    ensures batches { IfOk result (λ found. HasCommitted kinds.Batch logs.now found.batches.committed.items) }
    ensures acts { IfOk result (λ found. HasCommitted kinds.Act logs.now found.acts.committed.items) }
    ensures refused { IfErr result (λ no. IsLack logs.now no) }
{
    let batches = index_of(alloc, Kind::Batch, logs)?;
    let acts = index_of(alloc, Kind::Act, logs)?;
    check_all(logs, &batches, &acts)?;
    let commits = commits_of(alloc, logs)?;
    check_values(logs, &batches.committed, &batches.infos, &commits)?;
    let kept = keep_all(alloc, logs, &batches, &commits, &acts)?;
    Ok(FoundWhole {
        batches,
        acts,
        kept,
    })
}
