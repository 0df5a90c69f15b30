//! A record to its bytes, kind by kind.
ghost use Rattle.std.specs.Prelude.{◌≡◌, ◌<◌, ◌≤◌, ◌^◌, ◌++◌, length, map, IfOk, OnOk};
ghost use Rattle.std.specs.Int.{to_be_bytes, w16, w64};
ghost use Rattle.std.specs.List.{flat_map};
ghost use Rattle.txn_records.specs.declared.limits.TheConstants.{MOST_LISTED};
ghost use Rattle.txn_records.specs.Records.{record_bytes, field_bytes, state_bytes, states_bytes, actors_bytes, tids_bytes, genesis_bytes, info_bytes, complete_bytes, commit_bytes, prepare_bytes, act_bytes, done_bytes, act_done_bytes, next_bytes, so_far_bytes, counted_states_bytes, IsRecord};

use crate::Record;
use snap_base::{ActorId, Bid, Memory, Sequence, State, Tid};
use std::alloc::Global;

const GENESIS: u8 = 1;

const BATCH_INFO: u8 = 2;

const BATCH_COMPLETE: u8 = 3;

const BATCH_COMMIT: u8 = 4;

const ACT_PREPARE: u8 = 5;

const ACT_COMMIT: u8 = 6;

const BATCH_DONE: u8 = 7;

const ACT_DONE: u8 = 8;

const CHECKPOINT: u8 = 16;

/// Room, in bytes, for the record of an actor's state, as most records are, and for those of small batches.
const FIRST_ROOM: usize = 160;

/// The one spelling of a record.
pub fn encode(alloc: Global, r: &Record) -> Result<Vec<u8>, Memory>
    requires { IsRecord r.now }
    ensures { IfOk result (λ v. v.items ≡ record_bytes r.now) }
{
    let mut out = Vec::with_capacity(alloc, FIRST_ROOM)?;
    match r {
        Record::Genesis { logs, states } => put_genesis(&mut out, *logs, states.as_slice())?,
        Record::BatchInfo { bid, actors, tids } => {
            put_info(&mut out, *bid, actors.as_slice(), tids.as_slice())?
        }
        Record::BatchComplete { bid, actor, state } => {
            put_complete(&mut out, *bid, *actor, state)?
        }
        Record::BatchCommit { bid } => put_commit(&mut out, *bid)?,
        Record::ActPrepare { tid, actor, state } => put_prepare(&mut out, *tid, *actor, state)?,
        Record::ActCommit { tid, m, c, actors } => {
            put_act(&mut out, *tid, *m, *c, actors.as_slice())?
        }
        Record::BatchDone { bid, values } => put_done(&mut out, *bid, values.as_slice())?,
        Record::ActDone {
            tid,
            m,
            c,
            value,
            actors,
        } => { put_act_done(&mut out, *tid, *m, *c, *value, actors.as_slice())? }
        Record::Checkpoint {
            generation,
            next_tid,
            next_bid,
            next_c,
            batches,
            acts,
            states,
        } => {
            put_next(&mut out, *generation, *next_tid, *next_bid, *next_c)?;
            put_so_far(&mut out, *batches, *acts, states.as_slice())?
        }
    }
    Ok(out)
}

fn put_genesis(out: &mut Vec<u8>, logs: u8, states: &[State]) -> Result<(), Memory>
    requires { length states.now ≤ MOST_LISTED }
    ensures { OnOk result (out.new.items ≡ out.old.items ++ genesis_bytes logs states.now) }
{
    out.extend_from_slice(&[GENESIS, logs])?;
    put_counted_states(out, states)
}

fn put_info(out: &mut Vec<u8>, bid: Bid, actors: &[ActorId], tids: &[Tid]) -> Result<(), Memory>
    requires actors { length actors.now ≤ MOST_LISTED }
    requires tids { length tids.now ≤ MOST_LISTED }
    ensures { OnOk result (out.new.items ≡ out.old.items ++ info_bytes bid actors.now tids.now) }
{
    out.push(BATCH_INFO)?;
    put_u64(out, bid.0)?;
    put_count(out, actors.len())?;
    put_actors(out, actors)?;
    put_count(out, tids.len())?;
    put_tids(out, tids)
}

fn put_complete(out: &mut Vec<u8>, bid: Bid, actor: ActorId, state: &State) -> Result<(), Memory>
    ensures { OnOk result (out.new.items ≡ out.old.items ++ complete_bytes bid actor state.now) }
{
    out.push(BATCH_COMPLETE)?;
    put_u64(out, bid.0)?;
    put_actor_state(out, actor, state)
}

fn put_actor_state(out: &mut Vec<u8>, actor: ActorId, state: &State) -> Result<(), Memory>
    ensures { OnOk result (out.new.items ≡ out.old.items ++ (to_be_bytes w16 actor.0 ++ state_bytes state.now)) }
{
    put_u16(out, actor.0)?;
    put_state(out, state)
}

fn put_commit(out: &mut Vec<u8>, bid: Bid) -> Result<(), Memory>
    ensures { OnOk result (out.new.items ≡ out.old.items ++ commit_bytes bid) }
{
    out.push(BATCH_COMMIT)?;
    put_u64(out, bid.0)
}

fn put_prepare(out: &mut Vec<u8>, tid: Tid, actor: ActorId, state: &State) -> Result<(), Memory>
    ensures { OnOk result (out.new.items ≡ out.old.items ++ prepare_bytes tid actor state.now) }
{
    out.push(ACT_PREPARE)?;
    put_u64(out, tid.0)?;
    put_actor_state(out, actor, state)
}

fn put_act(out: &mut Vec<u8>, tid: Tid, m: Bid, c: u64, actors: &[ActorId]) -> Result<(), Memory>
    requires { length actors.now ≤ MOST_LISTED }
    ensures { OnOk result (out.new.items ≡ out.old.items ++ act_bytes tid m c actors.now) }
{
    out.push(ACT_COMMIT)?;
    put_u64(out, tid.0)?;
    put_decision(out, m, c, actors)
}

fn put_decision(out: &mut Vec<u8>, m: Bid, c: u64, actors: &[ActorId]) -> Result<(), Memory>
    requires { length actors.now ≤ MOST_LISTED }
    ensures { OnOk result (out.new.items ≡ out.old.items ++ (to_be_bytes w64 m.0 ++ (to_be_bytes w64 c ++ (to_be_bytes w16 (length actors.now) ++ actors_bytes actors.now)))) }
{
    put_u64(out, m.0)?;
    put_u64(out, c)?;
    put_count(out, actors.len())?;
    put_actors(out, actors)
}

fn put_done(out: &mut Vec<u8>, bid: Bid, values: &[i64]) -> Result<(), Memory>
    requires { length values.now ≤ MOST_LISTED }
    ensures { OnOk result (out.new.items ≡ out.old.items ++ done_bytes bid values.now) }
{
    out.push(BATCH_DONE)?;
    put_u64(out, bid.0)?;
    put_count(out, values.len())?;
    put_fields(out, values)
}

fn put_act_done(
    out: &mut Vec<u8>,
    tid: Tid,
    m: Bid,
    c: u64,
    value: i64,
    actors: &[ActorId],
) -> Result<(), Memory>
    requires { length actors.now ≤ MOST_LISTED }
    ensures { OnOk result (out.new.items ≡ out.old.items ++ act_done_bytes tid m c value actors.now) }
{
    out.push(ACT_DONE)?;
    put_u64(out, tid.0)?;
    put_outcome(out, m, c, value, actors)
}

fn put_outcome(
    out: &mut Vec<u8>,
    m: Bid,
    c: u64,
    value: i64,
    actors: &[ActorId],
) -> Result<(), Memory>
    requires { length actors.now ≤ MOST_LISTED }
    ensures { OnOk result (out.new.items ≡ out.old.items ++ (to_be_bytes w64 m.0 ++ (to_be_bytes w64 c ++ (field_bytes value ++ (to_be_bytes w16 (length actors.now) ++ actors_bytes actors.now))))) }
{
    put_u64(out, m.0)?;
    put_u64(out, c)?;
    put_field(out, value)?;
    put_counted(out, actors)
}

/// A Checkpoint's tag, its generation and its next numbers.
fn put_next(
    out: &mut Vec<u8>,
    generation: u64,
    next_tid: Tid,
    next_bid: Bid,
    next_c: u64,
) -> Result<(), Memory>
    ensures { OnOk result (out.new.items ≡ out.old.items ++ next_bytes generation next_tid next_bid next_c) }
{
    out.push(CHECKPOINT)?;
    put_u64(out, generation)?;
    put_u64(out, next_tid.0)?;
    put_u64(out, next_bid.0)?;
    put_u64(out, next_c)
}

/// A Checkpoint's counts and its states.
fn put_so_far(out: &mut Vec<u8>, batches: u64, acts: u64, states: &[State]) -> Result<(), Memory>
    requires { length states.now ≤ MOST_LISTED }
    ensures { OnOk result (out.new.items ≡ out.old.items ++ so_far_bytes batches acts states.now) }
{
    put_u64(out, batches)?;
    put_u64(out, acts)?;
    put_counted_states(out, states)
}

fn put_counted_states(out: &mut Vec<u8>, states: &[State]) -> Result<(), Memory>
    requires { length states.now ≤ MOST_LISTED }
    ensures { OnOk result (out.new.items ≡ out.old.items ++ counted_states_bytes states.now) }
{
    put_count(out, states.len())?;
    put_states(out, states)
}

fn put_counted(out: &mut Vec<u8>, actors: &[ActorId]) -> Result<(), Memory>
    requires { length actors.now ≤ MOST_LISTED }
    ensures { OnOk result (out.new.items ≡ out.old.items ++ (to_be_bytes w16 (length actors.now) ++ actors_bytes actors.now)) }
{
    put_count(out, actors.len())?;
    put_actors(out, actors)
}

fn put_u16(out: &mut Vec<u8>, n: u16) -> Result<(), Memory>
    ensures { OnOk result (out.new.items ≡ out.old.items ++ to_be_bytes w16 n) }
{
    out.extend_from_slice(&n.to_be_bytes())?;
    Ok(())
}

fn put_u64(out: &mut Vec<u8>, n: u64) -> Result<(), Memory>
    ensures { OnOk result (out.new.items ≡ out.old.items ++ to_be_bytes w64 n) }
{
    out.extend_from_slice(&n.to_be_bytes())?;
    Ok(())
}

fn put_count(out: &mut Vec<u8>, count: usize) -> Result<(), Memory>
    requires { count ≤ MOST_LISTED }
    ensures { OnOk result (out.new.items ≡ out.old.items ++ to_be_bytes w16 count) }
{
    put_u16(out, count as u16)
}

#[tactic(auto, unfolding(crate::specs::Records::state_bytes))]
fn put_state(out: &mut Vec<u8>, state: &State) -> Result<(), Memory>
    ensures { OnOk result (out.new.items ≡ out.old.items ++ state_bytes state.now) }
{
    put_fields(out, &state.0)
}

fn put_fields(out: &mut Vec<u8>, fields: &[i64]) -> Result<(), Memory>
    ensures { OnOk result (out.new.items ≡ out.old.items ++ flat_map field_bytes fields.now) }
{
    for field in fields {
        put_field(out, *field)?;
    }
    Ok(())
}

#[tactic(auto, unfolding(crate::specs::Records::field_bytes))]
fn put_field(out: &mut Vec<u8>, field: i64) -> Result<(), Memory>
    ensures { OnOk result (out.new.items ≡ out.old.items ++ field_bytes field) }
{
    put_u64(out, field.cast_unsigned())
}

fn put_states(out: &mut Vec<u8>, states: &[State]) -> Result<(), Memory>
    ensures { OnOk result (out.new.items ≡ out.old.items ++ states_bytes states.now) }
{
    for state in states {
        put_state(out, state)?;
    }
    Ok(())
}

fn put_actors(out: &mut Vec<u8>, actors: &[ActorId]) -> Result<(), Memory>
    ensures { OnOk result (out.new.items ≡ out.old.items ++ actors_bytes actors.now) }
{
    for actor in actors {
        put_u16(out, actor.0)?;
    }
    Ok(())
}

fn put_tids(out: &mut Vec<u8>, tids: &[Tid]) -> Result<(), Memory>
    ensures { OnOk result (out.new.items ≡ out.old.items ++ tids_bytes tids.now) }
{
    for tid in tids {
        put_u64(out, tid.0)?;
    }
    Ok(())
}
