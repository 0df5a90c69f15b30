//! Reading a record, kind by kind and field by field.
ghost use Rattle.std.specs.Prelude.{◌≡◌, ℕ, ◌+◌, ◌<◌, ◌≤◌, ◌^◌, List, [], ◌∷◌, ◌++◌, length, take, FitsSigned, MatchResult};
ghost use Rattle.std.specs.List.{AllByRecursion};
ghost use Rattle.std.specs.Int.{to_be_bytes, w16, w64};
ghost use Rattle.txn_records.specs.Stops.{IsWhyUnread, Any, Nil, Seq};
ghost use Rattle.txn_records.specs.Numbers.{Between};
ghost use Rattle.txn_records.specs.Records.{IsState, IsRecord, field_bytes, state_bytes, states_bytes, actors_bytes, tids_bytes, values_bytes, record_bytes, counted_states_bytes};
ghost use Rattle.txn_records.specs.Texts.{AreStates, AreActors, AreTids, AreValues, GenesisTexts, InfoTexts, CompleteTexts, CommitTexts, PrepareTexts, ActTexts, DoneTexts, ActDoneTexts, CheckpointTexts, CountedStates, RecordTexts};

use crate::numbers::{Stop, u8_between, u16_between, u64_between};
use crate::{MOST_ACT_ACTORS, MOST_LISTED, MOST_LOGS, Record};
use snap_base::{ActorId, Bid, FIELDS, Sequence, State, Tid};
use std::alloc::Global;

/// The state that stands first, and what is behind it.
fn state_of(bytes: &[u8]) -> Result<(State, &[u8]), Stop>
    ensures { MatchResult result (λ x. IsState x.0 × (bytes.now ≡ state_bytes x.0 ++ x.1.now)) (IsWhyUnread (Seq IsState state_bytes (λ s. Any)) bytes.now) }
{
    let mut fields = [0i64; FIELDS];
    let mut rest = bytes;
    for i in 0..FIELDS {
        let (bits, behind) = u64_between(rest, 0, u64::MAX)?;
        fields[i] = bits.cast_signed();
        rest = behind;
    }
    Ok((State(fields), rest))
}

/// So many states, and what is behind them.
fn states_of(alloc: Global, bytes: &[u8], count: usize) -> Result<(Sequence<State>, &[u8]), Stop>
    ensures { MatchResult result (λ x. AreStates count x.0 × (bytes.now ≡ states_bytes x.0 ++ x.1.now)) (IsWhyUnread (Seq (AreStates count) states_bytes (λ xs. Any)) bytes.now) }
{
    let mut states = Sequence::new(alloc);
    let mut rest = bytes;
    for i in 0..count {
        let (state, behind) = state_of(rest)?;
        states.push(state)?;
        rest = behind;
    }
    Ok((states, rest))
}

/// So many actors, which ascend, and what is behind them.
fn actors_of(alloc: Global, bytes: &[u8], count: usize) -> Result<(Sequence<ActorId>, &[u8]), Stop>
    requires { count ≤ MOST_LISTED }
    ensures { MatchResult result (λ x. AreActors count x.0 × (bytes.now ≡ actors_bytes x.0 ++ x.1.now)) (IsWhyUnread (Seq (AreActors count) actors_bytes (λ xs. Any)) bytes.now) }
{
    let mut actors = Sequence::new(alloc);
    let mut rest = bytes;
    let mut low: u32 = 0;
    for i in 0..count {
        let high = 65_535 - (count - 1 - i) as u16;
        let (number, behind) = u16_between(rest, low as u16, high)?;
        actors.push(ActorId(number))?;
        low = number as u32 + 1;
        rest = behind;
    }
    Ok((actors, rest))
}

/// So many tids, which ascend, and what is behind them.
fn tids_of(alloc: Global, bytes: &[u8], count: usize) -> Result<(Sequence<Tid>, &[u8]), Stop>
    requires { count ≤ MOST_LISTED }
    ensures { MatchResult result (λ x. AreTids count x.0 × (bytes.now ≡ tids_bytes x.0 ++ x.1.now)) (IsWhyUnread (Seq (AreTids count) tids_bytes (λ xs. Any)) bytes.now) }
{
    let mut tids = Sequence::new(alloc);
    let mut rest = bytes;
    let mut low: u128 = 0;
    for i in 0..count {
        let high = u64::MAX - (count - 1 - i) as u64;
        let (number, behind) = u64_between(rest, low as u64, high)?;
        tids.push(Tid(number))?;
        low = number as u128 + 1;
        rest = behind;
    }
    Ok((tids, rest))
}

/// The value that stands first, and what is behind it.
fn value_of(bytes: &[u8]) -> Result<(i64, &[u8]), Stop>
    ensures { MatchResult result (λ x. FitsSigned w64 x.0 × (bytes.now ≡ field_bytes x.0 ++ x.1.now)) (IsWhyUnread (Seq (FitsSigned w64) field_bytes (λ v. Any)) bytes.now) }
{
    let (bits, rest) = u64_between(bytes, 0, u64::MAX)?;
    Ok((bits.cast_signed(), rest))
}

/// So many values, and what is behind them.
fn values_of(alloc: Global, bytes: &[u8], count: usize) -> Result<(Sequence<i64>, &[u8]), Stop>
    ensures { MatchResult result (λ x. AreValues count x.0 × (bytes.now ≡ values_bytes x.0 ++ x.1.now)) (IsWhyUnread (Seq (AreValues count) values_bytes (λ xs. Any)) bytes.now) }
{
    let mut values = Sequence::new(alloc);
    let mut rest = bytes;
    for i in 0..count {
        let (value, behind) = value_of(rest)?;
        values.push(value)?;
        rest = behind;
    }
    Ok((values, rest))
}

/// A count from 1 to `MOST_LISTED`, and what is behind it.
fn count_of(bytes: &[u8]) -> Result<(usize, &[u8]), Stop>
    ensures { MatchResult result (λ x. Between 1 MOST_LISTED x.0 × (bytes.now ≡ to_be_bytes w16 x.0 ++ x.1.now)) (IsWhyUnread (Seq (Between 1 MOST_LISTED) (to_be_bytes w16) (λ n. Any)) bytes.now) }
{
    let (count, rest) = u16_between(bytes, 1, MOST_LISTED as u16)?;
    Ok((count as usize, rest))
}

/// Nothing is left.
fn end_of(bytes: &[u8]) -> Result<(), Stop>
    ensures { MatchResult result (λ x. bytes.now ≡ []) (IsWhyUnread Nil bytes.now) }
{
    if bytes.is_empty() {
        Ok(())
    } else {
        Err(Stop::Left(bytes.len()))
    }
}

/// The states behind their count, with nothing behind them.
fn last_states_of(alloc: Global, bytes: &[u8]) -> Result<Sequence<State>, Stop>
    ensures { MatchResult result (λ xs. Between 1 MOST_LISTED (length xs) × AllByRecursion IsState xs × (bytes.now ≡ counted_states_bytes xs)) (IsWhyUnread CountedStates bytes.now) }
{
    let (count, rest) = count_of(bytes)?;
    let (states, rest) = states_of(alloc, rest, count)?;
    end_of(rest)?;
    Ok(states)
}

fn commit_of(bytes: &[u8]) -> Result<Record, Stop>
    ensures { MatchResult result (λ r. IsRecord r × (4 ∷ bytes.now ≡ record_bytes r)) (IsWhyUnread CommitTexts bytes.now) }
{
    let (bid, rest) = u64_between(bytes, 0, u64::MAX)?;
    end_of(rest)?;
    Ok(Record::BatchCommit { bid: Bid(bid) })
}

fn complete_of(bytes: &[u8]) -> Result<Record, Stop>
    ensures { MatchResult result (λ r. IsRecord r × (3 ∷ bytes.now ≡ record_bytes r)) (IsWhyUnread CompleteTexts bytes.now) }
{
    let (bid, rest) = u64_between(bytes, 0, u64::MAX)?;
    let (actor, rest) = u16_between(rest, 0, u16::MAX)?;
    let (state, rest) = state_of(rest)?;
    end_of(rest)?;
    Ok(Record::BatchComplete {
        bid: Bid(bid),
        actor: ActorId(actor),
        state,
    })
}

fn info_of(alloc: Global, bytes: &[u8]) -> Result<Record, Stop>
    ensures { MatchResult result (λ r. IsRecord r × (2 ∷ bytes.now ≡ record_bytes r)) (IsWhyUnread InfoTexts bytes.now) }
{
    let (bid, rest) = u64_between(bytes, 0, u64::MAX)?;
    let (count, rest) = count_of(rest)?;
    let (actors, rest) = actors_of(alloc, rest, count)?;
    let (count, rest) = count_of(rest)?;
    let (tids, rest) = tids_of(alloc, rest, count)?;
    end_of(rest)?;
    Ok(Record::BatchInfo {
        bid: Bid(bid),
        actors,
        tids,
    })
}

fn genesis_of(alloc: Global, bytes: &[u8]) -> Result<Record, Stop>
    ensures { MatchResult result (λ r. IsRecord r × (1 ∷ bytes.now ≡ record_bytes r)) (IsWhyUnread GenesisTexts bytes.now) }
{
    let (logs, rest) = u8_between(bytes, 1, MOST_LOGS)?;
    let states = last_states_of(alloc, rest)?;
    Ok(Record::Genesis { logs, states })
}

fn prepare_of(bytes: &[u8]) -> Result<Record, Stop>
    ensures { MatchResult result (λ r. IsRecord r × (5 ∷ bytes.now ≡ record_bytes r)) (IsWhyUnread PrepareTexts bytes.now) }
{
    let (tid, rest) = u64_between(bytes, 0, u64::MAX)?;
    let (actor, rest) = u16_between(rest, 0, u16::MAX)?;
    let (state, rest) = state_of(rest)?;
    end_of(rest)?;
    Ok(Record::ActPrepare {
        tid: Tid(tid),
        actor: ActorId(actor),
        state,
    })
}

fn act_of(alloc: Global, bytes: &[u8]) -> Result<Record, Stop>
    ensures { MatchResult result (λ r. IsRecord r × (6 ∷ bytes.now ≡ record_bytes r)) (IsWhyUnread ActTexts bytes.now) }
{
    let (tid, rest) = u64_between(bytes, 0, u64::MAX)?;
    let (m, rest) = u64_between(rest, 0, u64::MAX)?;
    let (c, rest) = u64_between(rest, 0, u64::MAX)?;
    let (count, rest) = u16_between(rest, 1, MOST_ACT_ACTORS as u16)?;
    let (actors, rest) = actors_of(alloc, rest, count as usize)?;
    end_of(rest)?;
    Ok(Record::ActCommit {
        tid: Tid(tid),
        m: Bid(m),
        c,
        actors,
    })
}

fn done_of(alloc: Global, bytes: &[u8]) -> Result<Record, Stop>
    ensures { MatchResult result (λ r. IsRecord r × (7 ∷ bytes.now ≡ record_bytes r)) (IsWhyUnread DoneTexts bytes.now) }
{
    let (bid, rest) = u64_between(bytes, 0, u64::MAX)?;
    let (count, rest) = count_of(rest)?;
    let (values, rest) = values_of(alloc, rest, count)?;
    end_of(rest)?;
    Ok(Record::BatchDone {
        bid: Bid(bid),
        values,
    })
}

fn act_done_of(alloc: Global, bytes: &[u8]) -> Result<Record, Stop>
    ensures { MatchResult result (λ r. IsRecord r × (8 ∷ bytes.now ≡ record_bytes r)) (IsWhyUnread ActDoneTexts bytes.now) }
{
    let (tid, rest) = u64_between(bytes, 0, u64::MAX)?;
    let (m, rest) = u64_between(rest, 0, u64::MAX)?;
    let (c, rest) = u64_between(rest, 0, u64::MAX)?;
    let (value, rest) = value_of(rest)?;
    let (count, rest) = u16_between(rest, 1, MOST_ACT_ACTORS as u16)?;
    let (actors, rest) = actors_of(alloc, rest, count as usize)?;
    end_of(rest)?;
    Ok(Record::ActDone {
        tid: Tid(tid),
        m: Bid(m),
        c,
        value,
        actors,
    })
}

fn checkpoint_of(alloc: Global, bytes: &[u8]) -> Result<Record, Stop>
    ensures { MatchResult result (λ r. IsRecord r × (16 ∷ bytes.now ≡ record_bytes r)) (IsWhyUnread CheckpointTexts bytes.now) }
{
    let (generation, rest) = u64_between(bytes, 1, u64::MAX)?;
    let (next_tid, rest) = u64_between(rest, 1, u64::MAX)?;
    let (next_bid, rest) = u64_between(rest, 1, u64::MAX)?;
    let (next_c, rest) = u64_between(rest, 1, u64::MAX)?;
    let (batches, rest) = u64_between(rest, 0, u64::MAX)?;
    let (acts, rest) = u64_between(rest, 0, u64::MAX)?;
    let states = last_states_of(alloc, rest)?;
    Ok(Record::Checkpoint {
        generation,
        next_tid: Tid(next_tid),
        next_bid: Bid(next_bid),
        next_c,
        batches,
        acts,
        states,
    })
}

/// The record that the bytes are.
pub(crate) fn read(alloc: Global, bytes: &[u8]) -> Result<Record, Stop>
    ensures { MatchResult result (λ r. IsRecord r × (bytes.now ≡ record_bytes r)) (IsWhyUnread RecordTexts bytes.now) }
{
    let Some((tag, rest)) = bytes.split_first() else {
        return Err(Stop::Left(0));
    };
    match *tag {
        1 => genesis_of(alloc, rest),
        2 => info_of(alloc, rest),
        3 => complete_of(rest),
        4 => commit_of(rest),
        5 => prepare_of(rest),
        6 => act_of(alloc, rest),
        7 => done_of(alloc, rest),
        8 => act_done_of(alloc, rest),
        16 => checkpoint_of(alloc, rest),
        _ => Err(Stop::Left(bytes.len())),
    }
}
