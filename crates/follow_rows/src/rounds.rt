//! Rounds, as a table has them.
ghost use Rattle.std.specs.Prelude.{◌≡◌, length};
ghost use Rattle.log_compact.specs.Sets.{HasNoStray};

use log_compact::checkpoint_no;
use snap_base::{ActorId, Bid, Memory, Sequence, State, Tid};
use snap_follow::{FollowNo, Follower};
use snap_recover::Kept;
use std::alloc::Global;
use txn_records::Record;

/// A record of a log, of actor 0 where it names none.
#[derive(Clone, Copy)]
pub enum Written {
    /// So many logs, and the first field of the actor's first state.
    Genesis(u8, i64),
    /// The first field of the state that all before it left.
    Checkpoint(i64),
    Info(u64),
    Complete(u64, i64),
    Commit(u64),
    Done(u64, i64),
    Prepare(u64, i64),
    /// Of a transaction, behind this batch.
    Act(u64, u64),
    /// So many logs, and the first field of the first state of each actor.
    Begin(u8, &'static [i64]),
    /// Of a transaction, on this actor.
    PrepareOn(u64, u16, i64),
    /// Of a transaction, with these actors.
    ActOn(u64, &'static [u16]),
}

/// What a round reads of each log, and what it answers: the members, a batch by its number and an undeclared transaction by its tid, and
/// the first field of the state of actor 0.
pub struct Round {
    pub lists: &'static [&'static [Written]],
    pub answer: Result<(&'static [u64], Option<i64>), FollowNo>,
}

fn state(field: i64) -> State {
    let mut fields = [0; 16];
    fields[0] = field;
    State(fields)
}

fn record(alloc: Global, written: Written) -> Result<Record, Memory> {
    Ok(match written {
        Written::Genesis(logs, field) => Record::Genesis {
            logs,
            states: Sequence::from_vec(vec![in alloc; state(field)]?),
        },
        Written::Checkpoint(field) => Record::Checkpoint {
            generation: 1,
            next_tid: Tid(1),
            next_bid: Bid(1),
            next_c: 1,
            batches: 0,
            acts: 0,
            states: Sequence::from_vec(vec![in alloc; state(field)]?),
        },
        Written::Info(bid) => Record::BatchInfo {
            bid: Bid(bid),
            actors: Sequence::from_vec(vec![in alloc; ActorId(0)]?),
            tids: Sequence::from_vec(vec![in alloc; Tid(bid)]?),
        },
        Written::Complete(bid, field) => Record::BatchComplete {
            bid: Bid(bid),
            actor: ActorId(0),
            state: state(field),
        },
        Written::Commit(bid) => Record::BatchCommit { bid: Bid(bid) },
        Written::Done(bid, value) => Record::BatchDone {
            bid: Bid(bid),
            values: Sequence::from_vec(vec![in alloc; value]?),
        },
        Written::Prepare(tid, field) => Record::ActPrepare {
            tid: Tid(tid),
            actor: ActorId(0),
            state: state(field),
        },
        Written::Act(tid, m) => Record::ActDone {
            tid: Tid(tid),
            m: Bid(m),
            c: tid,
            value: 0,
            actors: Sequence::from_vec(vec![in alloc; ActorId(0)]?),
        },
        Written::Begin(logs, fields) => Record::Genesis {
            logs,
            states: states_of(alloc, fields)?,
        },
        Written::PrepareOn(tid, actor, field) => Record::ActPrepare {
            tid: Tid(tid),
            actor: ActorId(actor),
            state: state(field),
        },
        Written::ActOn(tid, actors) => Record::ActDone {
            tid: Tid(tid),
            m: Bid(0),
            c: tid,
            value: 0,
            actors: actors_of(alloc, actors)?,
        },
    })
}

fn states_of(alloc: Global, fields: &[i64]) -> Result<Sequence<State>, Memory> {
    let mut states = Sequence::new(alloc);
    for field in fields.iter() {
        states.push(state(*field))?;
    }
    Ok(states)
}

fn actors_of(alloc: Global, numbers: &[u16]) -> Result<Sequence<ActorId>, Memory> {
    let mut actors = Sequence::new(alloc);
    for number in numbers.iter() {
        actors.push(ActorId(*number))?;
    }
    Ok(actors)
}

fn lists_of(alloc: Global, lists: &[&[Written]]) -> Result<Sequence<Sequence<Record>>, Memory> {
    let mut all = Sequence::new(alloc);
    for list in lists.iter() {
        let mut records = Sequence::new(alloc);
        for written in list.iter() {
            records.push(record(alloc, *written)?)?;
        }
        all.push(records)?;
    }
    Ok(all)
}

fn number_of(member: &Kept) -> u64 {
    match member {
        Kept::Batch { bid, .. } => bid.0,
        Kept::Act { tid, .. } => tid.0,
    }
}

/// Whether the follower has these members, and this state.
fn holds(follower: &Follower, members: &[u64], field: Option<i64>) -> bool {
    if follower.members().len() != members.len() {
        return false;
    }
    for (at, member) in follower.members().iter().enumerate() {
        if number_of(member) != members[at] {
            return false;
        }
    }
    let found = match follower.states() {
        Some(states) => states.first().map(|s| s.0[0]),
        None => None,
    };
    found == field
}

/// The first round, counted from 0, that answers otherwise or can't be asked, if there is one.
pub fn answers_otherwise(
    alloc: Global,
    logs: u8,
    rounds: &[Round],
) -> Result<Option<usize>, Memory> {
    if logs == 0 || 4 < logs {
        return Ok(Some(0));
    }
    let mut follower = Follower::new(alloc, logs)?;
    for at in 0..rounds.len() {
        let round = &rounds[at];
        let lists = lists_of(alloc, round.lists)?;
        if lists.len() != logs as usize || checkpoint_no(lists.as_slice()).is_some() {
            return Ok(Some(at));
        }
        if !answers_so(alloc, &mut follower, lists, round) {
            return Ok(Some(at));
        }
    }
    Ok(None)
}

/// Whether the round answers as it should.
fn answers_so(
    alloc: Global,
    follower: &mut Follower,
    lists: Sequence<Sequence<Record>>,
    round: &Round,
) -> bool
    requires as_many { length lists ≡ length follower.old.before }
    requires no_stray { HasNoStray lists }
    ensures { length follower.new.before ≡ length follower.old.before }
{
    match (follower.round(alloc, lists), round.answer) {
        (Ok(()), Ok((members, field))) => holds(follower, members, field),
        (Err(no), Err(wanted)) => no == wanted,
        _ => false,
    }
}
