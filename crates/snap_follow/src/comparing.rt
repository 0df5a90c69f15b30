//! Whether lists begin with what was read of them before.
ghost use Rattle.std.specs.Prelude.{◌≡◌, ℤ, ℕ, Option, ◌<◌, length, IsTrue, ◌↔◌, MatchOption};
ghost use Rattle.snap_base.specs.declared.ids.ActorId.{ActorId};
ghost use Rattle.txn_records.specs.declared.records.Record.TheVariants.{Genesis, BatchInfo, BatchComplete, BatchCommit, ActPrepare, ActCommit, BatchDone, ActDone, Checkpoint};
ghost use Rattle.snap_follow.specs.Refusals.{IsFirstBack};
ghost use Rattle.snap_follow.specs.Rounds.{StartsWith, GrowFrom};

use snap_base::{ActorId, Bid, Sequence, State, Tid};
use txn_records::Record;

/// The first list that does not begin with that of the round before; `None` where each one does.
pub(crate) fn first_back(before: &[Sequence<Record>], lists: &[Sequence<Record>]) -> Option<usize>
    requires { length lists.now ≡ length before.now }
    ensures { MatchOption result (GrowFrom before.now lists.now) (λ log. IsFirstBack before.now lists.now log) }
{
    for log in 0..lists.len() {
        if !begins_with(lists[log].as_slice(), before[log].as_slice()) {
            return Some(log);
        }
    }
    None
}

/// Whether the records begin with these.
fn begins_with(rs: &[Record], front: &[Record]) -> bool
    ensures { IsTrue result ↔ StartsWith rs.now front.now }
{
    if rs.len() < front.len() {
        return false;
    }
    for at in 0..front.len() {
        if !is_same(&rs[at], &front[at]) {
            return false;
        }
    }
    true
}

/// Whether two records are the same.
fn is_same(a: &Record, b: &Record) -> bool
    ensures { IsTrue result ↔ (a.now ≡ b.now) }
{
    match a {
        Record::Genesis { logs, states } => is_genesis(*logs, states.as_slice(), b),
        Record::BatchInfo { bid, actors, tids } => {
            is_info(*bid, actors.as_slice(), tids.as_slice(), b)
        }
        Record::BatchComplete { bid, actor, state } => is_complete(*bid, *actor, *state, b),
        Record::BatchCommit { bid } => is_commit(*bid, b),
        Record::ActPrepare { tid, actor, state } => is_prepare(*tid, *actor, *state, b),
        Record::ActCommit { tid, m, c, actors } => is_act(*tid, *m, *c, actors.as_slice(), b),
        Record::BatchDone { bid, values } => is_done(*bid, values.as_slice(), b),
        Record::ActDone {
            tid,
            m,
            c,
            value,
            actors,
        } => is_act_done((*tid, *m, *c, *value), actors.as_slice(), b),
        Record::Checkpoint {
            generation,
            next_tid,
            next_bid,
            next_c,
            batches,
            acts,
            states,
        } => is_checkpoint(
            (*generation, *next_tid, *next_bid, *next_c, *batches, *acts),
            states.as_slice(),
            b,
        ),
    }
}

fn is_genesis(logs: u8, states: &[State], b: &Record) -> bool
    ensures { IsTrue result ↔ (Genesis logs states.now ≡ b.now) }
{
    match b {
        Record::Genesis {
            logs: count,
            states: others,
        } => logs == *count && are_same_states(states, others.as_slice()),
        _ => false,
    }
}

fn is_info(bid: Bid, actors: &[ActorId], tids: &[Tid], b: &Record) -> bool
    ensures { IsTrue result ↔ (BatchInfo bid actors.now tids.now ≡ b.now) }
{
    match b {
        Record::BatchInfo {
            bid: number,
            actors: others,
            tids: more,
        } => {
            bid.0 == number.0
                && are_same_actors(actors, others.as_slice())
                && are_same_tids(tids, more.as_slice())
        }
        _ => false,
    }
}

fn is_complete(bid: Bid, actor: ActorId, state: State, b: &Record) -> bool
    ensures { IsTrue result ↔ (BatchComplete bid actor state ≡ b.now) }
{
    match b {
        Record::BatchComplete {
            bid: number,
            actor: other,
            state: found,
        } => bid.0 == number.0 && actor.0 == other.0 && is_same_state(&state, found),
        _ => false,
    }
}

fn is_commit(bid: Bid, b: &Record) -> bool
    ensures { IsTrue result ↔ (BatchCommit bid ≡ b.now) }
{
    match b {
        Record::BatchCommit { bid: number } => bid.0 == number.0,
        _ => false,
    }
}

fn is_prepare(tid: Tid, actor: ActorId, state: State, b: &Record) -> bool
    ensures { IsTrue result ↔ (ActPrepare tid actor state ≡ b.now) }
{
    match b {
        Record::ActPrepare {
            tid: number,
            actor: other,
            state: found,
        } => tid.0 == number.0 && actor.0 == other.0 && is_same_state(&state, found),
        _ => false,
    }
}

fn is_act(tid: Tid, m: Bid, c: u64, actors: &[ActorId], b: &Record) -> bool
    ensures { IsTrue result ↔ (ActCommit tid m c actors.now ≡ b.now) }
{
    match b {
        Record::ActCommit {
            tid: number,
            m: behind,
            c: commit,
            actors: others,
        } => {
            tid.0 == number.0
                && m.0 == behind.0
                && c == *commit
                && are_same_actors(actors, others.as_slice())
        }
        _ => false,
    }
}

fn is_done(bid: Bid, values: &[i64], b: &Record) -> bool
    ensures { IsTrue result ↔ (BatchDone bid values.now ≡ b.now) }
{
    match b {
        Record::BatchDone {
            bid: number,
            values: others,
        } => bid.0 == number.0 && are_same_values(values, others.as_slice()),
        _ => false,
    }
}

fn is_act_done(told: (Tid, Bid, u64, i64), actors: &[ActorId], b: &Record) -> bool
    ensures { IsTrue result ↔ (ActDone told.0 told.1 told.2 told.3 actors.now ≡ b.now) }
{
    match b {
        Record::ActDone {
            tid,
            m,
            c,
            value,
            actors: others,
        } => {
            told.0.0 == tid.0
                && told.1.0 == m.0
                && told.2 == *c
                && told.3 == *value
                && are_same_actors(actors, others.as_slice())
        }
        _ => false,
    }
}

fn is_checkpoint(told: (u64, Tid, Bid, u64, u64, u64), states: &[State], b: &Record) -> bool
    ensures { IsTrue result ↔ (Checkpoint told.0 told.1 told.2 told.3 told.4 told.5 states.now ≡ b.now) }
{
    match b {
        Record::Checkpoint {
            generation,
            next_tid,
            next_bid,
            next_c,
            batches,
            acts,
            states: others,
        } => {
            told.0 == *generation
                && told.1.0 == next_tid.0
                && told.2.0 == next_bid.0
                && told.3 == *next_c
                && told.4 == *batches
                && told.5 == *acts
                && are_same_states(states, others.as_slice())
        }
        _ => false,
    }
}

fn are_same_actors(a: &[ActorId], b: &[ActorId]) -> bool
    ensures { IsTrue result ↔ (a.now ≡ b.now) }
{
    if a.len() != b.len() {
        return false;
    }
    for at in 0..a.len() {
        if a[at].0 != b[at].0 {
            return false;
        }
    }
    true
}

fn are_same_tids(a: &[Tid], b: &[Tid]) -> bool
    ensures { IsTrue result ↔ (a.now ≡ b.now) }
{
    if a.len() != b.len() {
        return false;
    }
    for at in 0..a.len() {
        if a[at].0 != b[at].0 {
            return false;
        }
    }
    true
}

fn are_same_values(a: &[i64], b: &[i64]) -> bool
    ensures { IsTrue result ↔ (a.now ≡ b.now) }
{
    a == b
}

fn are_same_states(a: &[State], b: &[State]) -> bool
    ensures { IsTrue result ↔ (a.now ≡ b.now) }
{
    if a.len() != b.len() {
        return false;
    }
    for at in 0..a.len() {
        if !is_same_state(&a[at], &b[at]) {
            return false;
        }
    }
    true
}

/// Whether two states are the same.
pub(crate) fn is_same_state(a: &State, b: &State) -> bool
    ensures { IsTrue result ↔ (a.now ≡ b.now) }
{
    a.0 == b.0
}
