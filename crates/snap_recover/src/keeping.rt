//! The list of what is committed, in the order of the places.
ghost use Rattle.std.specs.Prelude.{◌≡◌, ◌≢◌, ℕ, ◌<◌, List, length, IfOk, OnOk};
ghost use Rattle.snap_base.specs.declared.ids.ActorId.{ActorId};
ghost use Rattle.txn_records.specs.declared.records.Record.{Record};
ghost use Rattle.snap_recover.specs.declared.kinds.Kind.TheVariants as kinds;
ghost use Rattle.snap_recover.specs.Logs.{values_in};
ghost use Rattle.snap_recover.specs.Opening.{IsIn, IsBatchWhole, IsActIn, IsActOf, IsInfoOf, IsCommitOf, IsCommitted};
ghost use Rattle.snap_recover.specs.Passes.{info_key, commit_key, HasCommitted, HasInfos, IsAllWhole, IsBatchSpot, IsActSpot, IsSpotIn, AddsSpots, HasSpots, IsKeptAt, HasIn, bid_at, tid_at};

use crate::Kept;
use crate::index::Index;
use crate::infos::{act_at, copy_values, info_at};
use crate::ordered::{place_of, settle};
use snap_base::{Bid, Memory, Sequence, Tid};
use std::alloc::Global;
use txn_records::Record;

/// Where something stands among what is kept: a batch number, 0 for the batch and 1 for an undeclared transaction
/// behind it, the number of its commit, and its tid. Of a batch the last two are 0.
type Spot = (u64, u8, u64, u64);

/// Where the records of what was kept last were found, in the lists of places.
#[derive(Drop)]
struct Near {
    infos: usize,
    commits: usize,
    acts: usize,
}

/// What is kept of all that is in, in the order of the places, where nothing of it is lacking.
pub(crate) fn keep_all(
    alloc: Global,
    logs: &[Sequence<Record>],
    batches: &Index,
    commits: &[(u64, usize)],
    acts: &Index,
) -> Result<Sequence<Kept>, Memory>
    requires some { 0 < length logs.now }
    requires whole { IsAllWhole logs.now }
    requires batches_committed { HasCommitted kinds.Batch logs.now batches.now.committed.items }
    requires batches_infos { HasInfos (info_key kinds.Batch) logs.now batches.now.infos.items }
    requires commits { HasInfos (commit_key kinds.Batch) logs.now commits.now }
    requires acts_committed { HasCommitted kinds.Act logs.now acts.now.committed.items }
    requires acts_infos { HasInfos (info_key kinds.Act) logs.now acts.now.infos.items }
    ensures { IfOk result (λ ks. IsCommitted logs.now ks) }
{
    let spots = spots_of(
        alloc,
        logs,
        &batches.committed,
        &acts.committed,
        &acts.infos,
    )?;
    let mut kept = Sequence::from_vec(Vec::with_capacity(alloc, spots.len())?);
    let mut near = Near {
        infos: 0,
        commits: 0,
        acts: 0,
    };
    for i in 0..spots.len() {
        let next = keep(
            alloc,
            logs,
            spots[i],
            &batches.infos,
            commits,
            &acts.infos,
            &mut near,
        )?;
        kept.push(next)?;
    }
    Ok(kept)
}

/// The spots of all that is in, in their order.
fn spots_of(
    alloc: Global,
    logs: &[Sequence<Record>],
    batches: &[u64],
    acts: &[u64],
    infos: &[(u64, usize)],
) -> Result<Vec<Spot>, Memory>
    requires some { 0 < length logs.now }
    requires batches { HasCommitted kinds.Batch logs.now batches.now }
    requires acts { HasCommitted kinds.Act logs.now acts.now }
    requires infos { HasInfos (info_key kinds.Act) logs.now infos.now }
    ensures { IfOk result (λ spots. HasSpots logs.now spots.items) }
{
    let mut spots = Vec::new(alloc);
    add_batches(&mut spots, batches)?;
    add_acts(&mut spots, logs, acts, infos)?;
    settle(&mut spots);
    Ok(spots)
}

/// Adds the spots of these batches.
fn add_batches(spots: &mut Vec<Spot>, bids: &[u64]) -> Result<(), Memory>
    ensures { OnOk result (AddsSpots IsBatchSpot bids.now spots.old.items spots.new.items) }
{
    for i in 0..bids.len() {
        spots.push((bids[i], 0, 0, 0))?;
    }
    Ok(())
}

/// Adds the spots of these undeclared transactions, which are in.
fn add_acts(
    spots: &mut Vec<Spot>,
    logs: &[Sequence<Record>],
    tids: &[u64],
    infos: &[(u64, usize)],
) -> Result<(), Memory>
    requires some { 0 < length logs.now }
    requires are_in { HasIn kinds.Act logs.now tids.now }
    requires infos { HasInfos (info_key kinds.Act) logs.now infos.now }
    ensures { OnOk result (AddsSpots (IsActSpot logs.now) tids.now spots.old.items spots.new.items) }
{
    let mut near = 0;
    for i in 0..tids.len() {
        let spot = spot_of_act(logs, tids[i], infos, &mut near);
        spots.push(spot)?;
    }
    Ok(())
}

/// The spot of an undeclared transaction that is in.
fn spot_of_act(
    logs: &[Sequence<Record>],
    tid: u64,
    infos: &[(u64, usize)],
    near: &mut usize,
) -> Spot
    requires some { 0 < length logs.now }
    requires is_in { IsActIn logs.now (tid_at tid) }
    requires infos { HasInfos (info_key kinds.Act) logs.now infos.now }
    ensures { IsActSpot logs.now tid result }
{
    let Some(place) = place_of(infos, tid, near) else {
        unreachable!()
    };
    let log = tid % logs.len() as u64;
    let (m, c, _, _) = act_at(logs[log as usize].as_slice(), place, tid);
    (m.0, 1, c, tid)
}

/// What is kept at the spot.
fn keep(
    alloc: Global,
    logs: &[Sequence<Record>],
    spot: Spot,
    infos: &[(u64, usize)],
    commits: &[(u64, usize)],
    acts: &[(u64, usize)],
    near: &mut Near,
) -> Result<Kept, Memory>
    requires some { 0 < length logs.now }
    requires whole { IsAllWhole logs.now }
    requires is_in { IsSpotIn logs.now spot }
    requires infos { HasInfos (info_key kinds.Batch) logs.now infos.now }
    requires commits { HasInfos (commit_key kinds.Batch) logs.now commits.now }
    requires acts { HasInfos (info_key kinds.Act) logs.now acts.now }
    ensures { IfOk result (λ k. IsKeptAt logs.now spot k) }
{
    if spot.1 == 0 {
        return keep_batch(alloc, logs, spot.0, infos, commits, near);
    }
    Ok(keep_act(logs, spot, acts, &mut near.acts))
}

/// What is kept of an undeclared transaction that is in.
fn keep_act(logs: &[Sequence<Record>], spot: Spot, infos: &[(u64, usize)], near: &mut usize) -> Kept
    requires some { 0 < length logs.now }
    requires is_in { IsSpotIn logs.now spot }
    requires is_act { spot.1 ≢ 0 }
    requires infos { HasInfos (info_key kinds.Act) logs.now infos.now }
    ensures { IsKeptAt logs.now spot result }
{
    let (tid, m, c, value) = outcome_of(logs, spot.3, infos, near);
    Kept::Act { tid, m, c, value }
}

/// What its commit tells of an undeclared transaction that is in.
fn outcome_of(
    logs: &[Sequence<Record>],
    tid: u64,
    infos: &[(u64, usize)],
    near: &mut usize,
) -> (Tid, Bid, u64, Option<i64>)
    requires some { 0 < length logs.now }
    requires is_in { IsActIn logs.now (tid_at tid) }
    requires infos { HasInfos (info_key kinds.Act) logs.now infos.now }
    ensures { (result.0 ≡ tid_at tid) × ((actors : List ActorId) × IsActOf logs.now (tid_at tid) result.1 result.2 result.3 actors) }
{
    let Some(place) = place_of(infos, tid, near) else {
        unreachable!()
    };
    let log = tid % logs.len() as u64;
    let (m, c, value, _) = act_at(logs[log as usize].as_slice(), place, tid);
    (Tid(tid), m, c, value)
}

/// What is kept of a batch that is in.
fn keep_batch(
    alloc: Global,
    logs: &[Sequence<Record>],
    bid: u64,
    infos: &[(u64, usize)],
    commits: &[(u64, usize)],
    near: &mut Near,
) -> Result<Kept, Memory>
    requires some { 0 < length logs.now }
    requires whole { IsBatchWhole logs.now (bid_at bid) }
    requires is_in { IsIn logs.now (bid_at bid) }
    requires infos { HasInfos (info_key kinds.Batch) logs.now infos.now }
    requires commits { HasInfos (commit_key kinds.Batch) logs.now commits.now }
    ensures { IfOk result (λ k. IsKeptAt logs.now (bid, 0, 0, 0) k) }
{
    let values = values_of(alloc, logs, bid, commits, &mut near.commits)?;
    let tids = tids_of(alloc, logs, bid, infos, &mut near.infos)?;
    Ok(Kept::Batch {
        bid: Bid(bid),
        tids,
        values,
    })
}

/// The transactions of a batch that is in.
fn tids_of(
    alloc: Global,
    logs: &[Sequence<Record>],
    bid: u64,
    infos: &[(u64, usize)],
    near: &mut usize,
) -> Result<Sequence<Tid>, Memory>
    requires some { 0 < length logs.now }
    requires whole { IsBatchWhole logs.now (bid_at bid) }
    requires infos { HasInfos (info_key kinds.Batch) logs.now infos.now }
    ensures { IfOk result (λ tids. (actors : List ActorId) × IsInfoOf logs.now (bid_at bid) actors tids) }
{
    let Some(place) = place_of(infos, bid, near) else {
        unreachable!()
    };
    let log = bid % logs.len() as u64;
    let (_, tids) = info_at(logs[log as usize].as_slice(), place, bid);
    Ok(Sequence::from_vec(Vec::from_slice(alloc, tids.as_slice())?))
}

/// The values that the commit of a batch that is in tells, or none.
fn values_of(
    alloc: Global,
    logs: &[Sequence<Record>],
    bid: u64,
    commits: &[(u64, usize)],
    near: &mut usize,
) -> Result<Sequence<i64>, Memory>
    requires some { 0 < length logs.now }
    requires is_in { IsIn logs.now (bid_at bid) }
    requires commits { HasInfos (commit_key kinds.Batch) logs.now commits.now }
    ensures { IfOk result (λ vs. (r : Record) × IsCommitOf logs.now (bid_at bid) r × (vs ≡ values_in r)) }
{
    let Some(place) = place_of(commits, bid, near) else {
        unreachable!()
    };
    let log = bid % logs.len() as u64;
    copy_values(alloc, logs[log as usize].as_slice(), place, bid)
}
