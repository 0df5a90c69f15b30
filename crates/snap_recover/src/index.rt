//! What is committed of one kind, its parts, and where its actors are told, by one pass over each log.
ghost use Rattle.std.specs.Prelude.{◌≡◌, ◌≢◌, ℕ, ◌+◌, ◌%◌, ◌<◌, [], ◌∷◌, length, MatchOption, OnOk, IfOk};
ghost use Rattle.txn_records.specs.Records.{key};
ghost use Rattle.snap_recover.specs.declared.kinds.Kind.TheVariants as kinds;
ghost use Rattle.snap_recover.specs.Passes.{commit_key, part_key, info_key, AddsCommits, AddsParts, AddsInfo, AddsInfos, TellsCommitted, TellsParts, TellsInfos, HasCommitted, HasAllParts, HasInfos};

use crate::kinds::Kind;
use crate::ordered::{settle, settle_places};
use snap_base::{Memory, Sequence};
use std::alloc::Global;
use txn_records::Record;

/// What is asked of the records of one kind, by their batches or their undeclared transactions. A record counts
/// in the log to which its batch or transaction, or of a part its actor, writes, and nowhere else.
#[derive(Drop)]
pub(crate) struct Index {
    /// The numbers of those that are in.
    pub committed: Vec<u64>,
    /// Which actors have done their parts of which of them: pairs of one of them and an actor.
    pub parts: Vec<(u64, u16)>,
    /// The number of each with a place in its log of a record that tells its actors. Of one number the last counts.
    pub infos: Vec<(u64, usize)>,
}

/// The index of all logs, in order.
pub(crate) fn index_of(
    alloc: Global,
    kind: Kind,
    logs: &[Sequence<Record>],
) -> Result<Index, Memory>
    requires some { 0 < length logs.now }
    ensures committed { IfOk result (λ index. HasCommitted kind logs.now index.committed.items) }
    ensures parts { IfOk result (λ index. HasAllParts kind logs.now index.parts.items) }
    ensures infos { IfOk result (λ index. HasInfos (info_key kind) logs.now index.infos.items) }
{
    let mut index = gathered(alloc, kind, logs)?;
    settle(&mut index.committed);
    settle(&mut index.parts);
    settle_places(&mut index.infos)?;
    Ok(index)
}

/// What the index of all logs has, by one pass over each.
fn gathered(alloc: Global, kind: Kind, logs: &[Sequence<Record>]) -> Result<Index, Memory>
    requires some { 0 < length logs.now }
    ensures committed { IfOk result (λ index. TellsCommitted kind logs.now index.committed.items) }
    ensures parts { IfOk result (λ index. TellsParts kind logs.now index.parts.items) }
    ensures infos { IfOk result (λ index. TellsInfos (info_key kind) logs.now index.infos.items) }
{
    let mut index = Index {
        committed: Vec::new(alloc),
        parts: Vec::new(alloc),
        infos: Vec::new(alloc),
    };
    let count = logs.len() as u64;
    for i in 0..logs.len() {
        add_log(&mut index, kind, logs[i].as_slice(), i as u64, count)?;
    }
    Ok(index)
}

/// Adds the records of this log, number `log` of `logs`.
fn add_log(index: &mut Index, kind: Kind, rs: &[Record], log: u64, logs: u64) -> Result<(), Memory>
    requires some { 0 < logs }
    ensures committed { OnOk result (AddsCommits kind log logs rs.now index.old.committed.items index.new.committed.items) }
    ensures parts { OnOk result (AddsParts kind log logs rs.now index.old.parts.items index.new.parts.items) }
    ensures infos { OnOk result (AddsInfos (info_key kind) log logs rs.now index.old.infos.items index.new.infos.items) }
{
    for at in 0..rs.len() {
        let r = &rs[at];
        add_commit(&mut index.committed, kind, r, log, logs)?;
        add_part(&mut index.parts, kind, r, log, logs)?;
        add_info(&mut index.infos, kind, r, at, log, logs)?;
    }
    Ok(())
}

/// Adds the one whose commit the record is.
fn add_commit(
    numbers: &mut Vec<u64>,
    kind: Kind,
    r: &Record,
    log: u64,
    logs: u64,
) -> Result<(), Memory>
    requires some { 0 < logs }
    ensures { OnOk result (AddsCommits kind log logs (r.now ∷ []) numbers.old.items numbers.new.items) }
{
    if let Some(number) = commit_here(kind, r, log, logs) {
        numbers.push(number)?;
    }
    Ok(())
}

/// The one whose commit the record is, where the log is its own.
fn commit_here(kind: Kind, r: &Record, log: u64, logs: u64) -> Option<u64>
    requires some { 0 < logs }
    ensures { MatchOption result ((n : ℕ) → n % logs ≡ log → key r.now ≢ commit_key kind n) (λ n. (n % logs ≡ log) × (key r.now ≡ commit_key kind n)) }
{
    match kind {
        Kind::Batch => batch_commit_here(r, log, logs),
        Kind::Act => act_commit_here(r, log, logs),
    }
}

pub(crate) fn batch_commit_here(r: &Record, log: u64, logs: u64) -> Option<u64>
    requires some { 0 < logs }
    ensures { MatchOption result ((n : ℕ) → n % logs ≡ log → key r.now ≢ commit_key kinds.Batch n) (λ n. (n % logs ≡ log) × (key r.now ≡ commit_key kinds.Batch n)) }
{
    match r {
        Record::BatchCommit { bid } if bid.0 % logs == log => Some(bid.0),
        Record::BatchDone { bid, .. } if bid.0 % logs == log => Some(bid.0),
        _ => None,
    }
}

fn act_commit_here(r: &Record, log: u64, logs: u64) -> Option<u64>
    requires some { 0 < logs }
    ensures { MatchOption result ((n : ℕ) → n % logs ≡ log → key r.now ≢ commit_key kinds.Act n) (λ n. (n % logs ≡ log) × (key r.now ≡ commit_key kinds.Act n)) }
{
    match r {
        Record::ActCommit { tid, .. } if tid.0 % logs == log => Some(tid.0),
        Record::ActDone { tid, .. } if tid.0 % logs == log => Some(tid.0),
        _ => None,
    }
}

/// Adds the one and the actor whose part the record is.
fn add_part(
    parts: &mut Vec<(u64, u16)>,
    kind: Kind,
    r: &Record,
    log: u64,
    logs: u64,
) -> Result<(), Memory>
    requires some { 0 < logs }
    ensures { OnOk result (AddsParts kind log logs (r.now ∷ []) parts.old.items parts.new.items) }
{
    if let Some(pair) = part_here(kind, r, log, logs) {
        parts.push(pair)?;
    }
    Ok(())
}

/// The one and the actor whose part the record is, where the log is that actor's.
fn part_here(kind: Kind, r: &Record, log: u64, logs: u64) -> Option<(u64, u16)>
    requires some { 0 < logs }
    ensures { MatchOption result ((x : ℕ × ℕ) → x.1 % logs ≡ log → key r.now ≢ part_key kind x) (λ x. (x.1 % logs ≡ log) × (key r.now ≡ part_key kind x)) }
{
    match kind {
        Kind::Batch => complete_here(r, log, logs),
        Kind::Act => prepare_here(r, log, logs),
    }
}

fn complete_here(r: &Record, log: u64, logs: u64) -> Option<(u64, u16)>
    requires some { 0 < logs }
    ensures { MatchOption result ((x : ℕ × ℕ) → x.1 % logs ≡ log → key r.now ≢ part_key kinds.Batch x) (λ x. (x.1 % logs ≡ log) × (key r.now ≡ part_key kinds.Batch x)) }
{
    match r {
        Record::BatchComplete { bid, actor, .. } if actor.0 as u64 % logs == log => Some((
            bid.0, actor.0,
        )),
        _ => None,
    }
}

fn prepare_here(r: &Record, log: u64, logs: u64) -> Option<(u64, u16)>
    requires some { 0 < logs }
    ensures { MatchOption result ((x : ℕ × ℕ) → x.1 % logs ≡ log → key r.now ≢ part_key kinds.Act x) (λ x. (x.1 % logs ≡ log) × (key r.now ≡ part_key kinds.Act x)) }
{
    match r {
        Record::ActPrepare { tid, actor, .. } if actor.0 as u64 % logs == log => Some((
            tid.0, actor.0,
        )),
        _ => None,
    }
}

/// The record at this place is the last so far that tells the actors of its batch or transaction, if it tells any.
fn add_info(
    places: &mut Vec<(u64, usize)>,
    kind: Kind,
    r: &Record,
    at: usize,
    log: u64,
    logs: u64,
) -> Result<(), Memory>
    requires some { 0 < logs }
    ensures { OnOk result (AddsInfo (info_key kind) log logs at r.now places.old.items places.new.items) }
{
    if let Some(number) = info_here(kind, r, log, logs) {
        places.push((number, at))?;
    }
    Ok(())
}

/// The one whose actors the record tells, where the log is its own.
fn info_here(kind: Kind, r: &Record, log: u64, logs: u64) -> Option<u64>
    requires some { 0 < logs }
    ensures { MatchOption result ((n : ℕ) → n % logs ≡ log → key r.now ≢ info_key kind n) (λ n. (n % logs ≡ log) × (key r.now ≡ info_key kind n)) }
{
    match kind {
        Kind::Batch => batch_info_here(r, log, logs),
        Kind::Act => act_commit_here(r, log, logs),
    }
}

fn batch_info_here(r: &Record, log: u64, logs: u64) -> Option<u64>
    requires some { 0 < logs }
    ensures { MatchOption result ((n : ℕ) → n % logs ≡ log → key r.now ≢ info_key kinds.Batch n) (λ n. (n % logs ≡ log) × (key r.now ≡ info_key kinds.Batch n)) }
{
    match r {
        Record::BatchInfo { bid, .. } if bid.0 % logs == log => Some(bid.0),
        _ => None,
    }
}
