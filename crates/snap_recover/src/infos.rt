//! What the record at a known place tells of its batch or transaction.
ghost use Rattle.std.specs.Prelude.{◌≡◌, ℕ, ◌%◌, ◌<◌, length, MatchOption, IfOk};
ghost use Rattle.snap_base.specs.declared.ids.ActorId.{ActorId};
ghost use Rattle.txn_records.specs.declared.records.Record.{Record};
ghost use Rattle.txn_records.specs.declared.records.Record.TheVariants.{BatchInfo, BatchCommit, BatchDone};
ghost use Rattle.txn_records.specs.Records.{key};
ghost use Rattle.snap_recover.specs.declared.kinds.Kind.TheVariants as kinds;
ghost use Rattle.snap_recover.specs.Logs.{IsLastOf, values_in};
ghost use Rattle.snap_recover.specs.Opening.{act_record};
ghost use Rattle.snap_recover.specs.Passes.{bid_at, tid_at, info_key, commit_key, IsLastPlace, TellsActors};

use crate::kinds::Kind;
use snap_base::{ActorId, Bid, Memory, Sequence, Tid};
use std::alloc::Global;
use txn_records::Record;

/// The actors of the one with this number, as the last record that tells them does, which stands at the place.
pub(crate) fn actors_at(kind: Kind, rs: &[Record], place: usize, number: u64) -> &Sequence<ActorId>
    requires place { IsLastPlace (info_key kind number) rs.now place }
    ensures { TellsActors kind number rs.now result.now }
{
    match kind {
        Kind::Batch => info_at(rs, place, number).0,
        Kind::Act => act_at(rs, place, number).3,
    }
}

/// The actors and the transactions of the batch's last info, which stands at the place.
pub(crate) fn info_at(rs: &[Record], place: usize, bid: u64) -> (&Sequence<ActorId>, &Sequence<Tid>)
    requires place { IsLastPlace (info_key kinds.Batch bid) rs.now place }
    ensures { IsLastOf (λ r. key r ≡ info_key kinds.Batch bid) rs.now (BatchInfo (bid_at bid) result.0.now result.1.now) }
{
    match &rs[place] {
        Record::BatchInfo { actors, tids, .. } => (actors, tids),
        _ => unreachable!(),
    }
}

/// The batch behind which the transaction comes, the number of its commit, its value and its actors, as its last commit
/// tells them, which stands at the place.
pub(crate) fn act_at(
    rs: &[Record],
    place: usize,
    tid: u64,
) -> (Bid, u64, Option<i64>, &Sequence<ActorId>)
    requires place { IsLastPlace (info_key kinds.Act tid) rs.now place }
    ensures { IsLastOf (λ r. key r ≡ info_key kinds.Act tid) rs.now (act_record (tid_at tid) result.0 result.1 result.2 result.3.now) }
{
    match &rs[place] {
        Record::ActCommit { m, c, actors, .. } => (*m, *c, None, actors),
        Record::ActDone {
            m,
            c,
            value,
            actors,
            ..
        } => (*m, *c, Some(*value), actors),
        _ => unreachable!(),
    }
}

/// The values that the batch's last commit tells, which stands at the place, or none where it tells none.
pub(crate) fn values_at(rs: &[Record], place: usize, bid: u64) -> Option<&Sequence<i64>>
    requires place { IsLastPlace (commit_key kinds.Batch bid) rs.now place }
    ensures { MatchOption result (IsLastOf (λ r. key r ≡ commit_key kinds.Batch bid) rs.now (BatchCommit (bid_at bid))) (λ vs. IsLastOf (λ r. key r ≡ commit_key kinds.Batch bid) rs.now (BatchDone (bid_at bid) vs.now)) }
{
    match &rs[place] {
        Record::BatchDone { values, .. } => Some(values),
        Record::BatchCommit { .. } => None,
        _ => unreachable!(),
    }
}

/// A copy of these values.
pub(crate) fn copy_values(
    alloc: Global,
    rs: &[Record],
    place: usize,
    bid: u64,
) -> Result<Sequence<i64>, Memory>
    requires place { IsLastPlace (commit_key kinds.Batch bid) rs.now place }
    ensures { IfOk result (λ vs. (r : Record) × IsLastOf (λ x. key x ≡ commit_key kinds.Batch bid) rs.now r × (vs ≡ values_in r)) }
{
    let Some(values) = values_at(rs, place, bid) else {
        return Ok(Sequence::new(alloc));
    };
    Ok(Sequence::from_vec(Vec::from_slice(alloc, values.as_slice())?))
}
