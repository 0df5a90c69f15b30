//! Copies of records.
ghost use Rattle.std.specs.Prelude.{◌≡◌, ◌++◌, IfOk, OnOk};

use snap_base::{Memory, Sequence};
use std::alloc::Global;
use txn_records::Record;

/// A copy of a record.
pub(crate) fn copy_of(alloc: Global, r: &Record) -> Result<Record, Memory>
    ensures { IfOk result (λ copy. copy ≡ r.now) }
{
    match r {
        Record::Genesis { logs, states } => Ok(Record::Genesis {
            logs: *logs,
            states: copy_list(alloc, states)?,
        }),
        Record::BatchInfo { bid, actors, tids } => {
            let actors = copy_list(alloc, actors)?;
            let tids = copy_list(alloc, tids)?;
            Ok(Record::BatchInfo {
                bid: *bid,
                actors,
                tids,
            })
        }
        Record::BatchComplete { bid, actor, state } => Ok(Record::BatchComplete {
            bid: *bid,
            actor: *actor,
            state: *state,
        }),
        Record::BatchCommit { bid } => Ok(Record::BatchCommit { bid: *bid }),
        Record::ActPrepare { tid, actor, state } => Ok(Record::ActPrepare {
            tid: *tid,
            actor: *actor,
            state: *state,
        }),
        Record::ActCommit { tid, m, c, actors } => Ok(Record::ActCommit {
            tid: *tid,
            m: *m,
            c: *c,
            actors: copy_list(alloc, actors)?,
        }),
        Record::BatchDone { bid, values } => Ok(Record::BatchDone {
            bid: *bid,
            values: copy_list(alloc, values)?,
        }),
        Record::ActDone {
            tid,
            m,
            c,
            value,
            actors,
        } => Ok(Record::ActDone {
            tid: *tid,
            m: *m,
            c: *c,
            value: *value,
            actors: copy_list(alloc, actors)?,
        }),
        Record::Checkpoint {
            generation,
            next_tid,
            next_bid,
            next_c,
            batches,
            acts,
            states,
        } => Ok(Record::Checkpoint {
            generation: *generation,
            next_tid: *next_tid,
            next_bid: *next_bid,
            next_c: *next_c,
            batches: *batches,
            acts: *acts,
            states: copy_list(alloc, states)?,
        }),
    }
}

/// A copy of a list of plain values.
pub(crate) fn copy_list<T: Copy + Drop>(
    alloc: Global,
    list: &Sequence<T>,
) -> Result<Sequence<T>, Memory>
    ensures { IfOk result (λ copy. copy ≡ list.now) }
{
    Ok(Sequence::from_vec(Vec::from_slice(alloc, list.as_slice())?))
}

/// Adds copies of these records, in order.
pub(crate) fn add_copies(
    alloc: Global,
    list: &mut Sequence<Record>,
    rs: &[Record],
) -> Result<(), Memory>
    ensures { OnOk result (list.new ≡ list.old ++ rs.now) }
{
    for r in rs {
        let copy = copy_of(alloc, r)?;
        list.push(copy)?;
    }
    Ok(())
}
