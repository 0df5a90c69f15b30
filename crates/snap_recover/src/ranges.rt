//! Whether the actors and the numbers of records are in range.
ghost use Rattle.std.specs.Prelude.{◌≡◌, ℕ, ◌+◌, ◌<◌, ◌≤◌, List, ◌∷◌, ◌++◌, length, IsTrue, ◌↔◌, MatchOption, MatchResult};
ghost use Rattle.std.specs.List.{AllByRecursion};
ghost use Rattle.txn_records.specs.declared.keys.Key.{Key};
ghost use Rattle.txn_records.specs.declared.records.Record.{Record};
ghost use Rattle.txn_records.specs.Records.{key, actor_numbers, tid_numbers};
ghost use Rattle.snap_recover.specs.declared.refusals.RecoverNo.TheVariants.{Range};
ghost use Rattle.snap_recover.specs.Logs.{all_of};
ghost use Rattle.snap_recover.specs.Opening.{IsInRange};
ghost use Rattle.snap_recover.specs.Refusals.{IsFirstOutOfRange};

use crate::RecoverNo;
use snap_base::{ActorId, Sequence, Tid};
use txn_records::{Record, key_of};

/// The greatest number that a batch, a transaction or a commit may have.
pub const GREATEST_NUMBER: u64 = 1 << 62;

/// That the records name no actors but so many, and no number above the greatest.
pub(crate) fn check_range(logs: &[Sequence<Record>], actors: usize) -> Result<(), RecoverNo>
    requires few { length logs.now < 256 }
    ensures { MatchResult result (λ t. AllByRecursion (IsInRange actors) (all_of logs.now)) (λ no. (r : Record) × (k : Key) × (log : ℕ) × (no ≡ Range k log) × IsFirstOutOfRange actors logs.now r log × (k ≡ key r)) }
{
    for i in 0..logs.len() {
        if let Some(r) = first_out_of_range(logs[i].as_slice(), actors) {
            return Err(RecoverNo::Range {
                key: key_of(r),
                log: i as u8,
            });
        }
    }
    Ok(())
}

/// The first record that is not in range.
fn first_out_of_range(rs: &[Record], actors: usize) -> Option<&Record>
    ensures { MatchOption result (AllByRecursion (IsInRange actors) rs.now) (λ r. (front behind : List Record) × (rs.now ≡ front ++ r.now ∷ behind) × AllByRecursion (IsInRange actors) front × ¬ IsInRange actors r.now) }
{
    for r in rs {
        if !in_range(r, actors) {
            return Some(r);
        }
    }
    None
}

fn in_range(r: &Record, actors: usize) -> bool
    ensures { IsTrue result ↔ IsInRange actors r.now }
{
    match r {
        Record::Genesis { .. } => true,
        Record::BatchInfo {
            bid,
            actors: named,
            tids,
        } => {
            bid.0 <= GREATEST_NUMBER
                && all_actors_below(named.as_slice(), actors)
                && all_tids_within(tids.as_slice())
        }
        Record::BatchComplete { bid, actor, .. } => {
            bid.0 <= GREATEST_NUMBER && (actor.0 as usize) < actors
        }
        Record::BatchCommit { bid } => bid.0 <= GREATEST_NUMBER,
        Record::ActPrepare { tid, actor, .. } => {
            tid.0 <= GREATEST_NUMBER && (actor.0 as usize) < actors
        }
        Record::ActCommit {
            tid,
            m,
            c,
            actors: named,
        } => {
            m.0 <= GREATEST_NUMBER
                && *c <= GREATEST_NUMBER
                && tid.0 <= GREATEST_NUMBER
                && all_actors_below(named.as_slice(), actors)
        }
        Record::BatchDone { bid, .. } => bid.0 <= GREATEST_NUMBER,
        Record::ActDone {
            tid,
            m,
            c,
            actors: named,
            ..
        } => {
            m.0 <= GREATEST_NUMBER
                && *c <= GREATEST_NUMBER
                && tid.0 <= GREATEST_NUMBER
                && all_actors_below(named.as_slice(), actors)
        }
        Record::Checkpoint { .. } => true,
    }
}

fn all_actors_below(named: &[ActorId], actors: usize) -> bool
    ensures { IsTrue result ↔ AllByRecursion (λ a. a < actors) (actor_numbers named.now) }
{
    for a in named {
        if a.0 as usize >= actors {
            return false;
        }
    }
    true
}

fn all_tids_within(tids: &[Tid]) -> bool
    ensures { IsTrue result ↔ AllByRecursion (λ n. n ≤ GREATEST_NUMBER) (tid_numbers tids.now) }
{
    for t in tids {
        if t.0 > GREATEST_NUMBER {
            return false;
        }
    }
    true
}
