//! Whether each committed batch has one value for each of its transactions, where it tells values.
ghost use Rattle.std.specs.Prelude.{◌≡◌, ℕ, ◌%◌, ◌<◌, length, MatchResult};
ghost use Rattle.txn_records.specs.declared.records.Record.{Record};
ghost use Rattle.snap_recover.specs.declared.kinds.Kind.TheVariants as kinds;
ghost use Rattle.snap_recover.specs.Opening.{IsIn, IsBatchWhole, HasItsValues};
ghost use Rattle.snap_recover.specs.Passes.{bid_at, info_key, commit_key, HasCommitted, HasInfos, AllWhole, AllValued, IsValuesLackOf, IsFirstValuesLackOf};

use crate::RecoverNo;
use crate::infos::{info_at, values_at};
use crate::ordered::place_of;
use snap_base::{Bid, Sequence, Tid};
use txn_records::{Key, Record};

/// That each batch that is in has one value for each of its transactions, or none is told, by the numbers.
pub(crate) fn check_values(
    logs: &[Sequence<Record>],
    committed: &[u64],
    infos: &[(u64, usize)],
    commits: &[(u64, usize)],
) -> Result<(), RecoverNo>
    requires some { 0 < length logs.now }
    requires few { length logs.now < 256 }
    requires whole { AllWhole kinds.Batch logs.now }
    requires committed { HasCommitted kinds.Batch logs.now committed.now }
    requires infos { HasInfos (info_key kinds.Batch) logs.now infos.now }
    requires commits { HasInfos (commit_key kinds.Batch) logs.now commits.now }
    ensures { MatchResult result (λ t. AllValued logs.now) (λ no. IsFirstValuesLackOf logs.now no) }
{
    let mut near = Near {
        infos: 0,
        commits: 0,
    };
    for i in 0..committed.len() {
        check_batch(logs, committed[i], infos, commits, &mut near)?;
    }
    Ok(())
}

/// Where the records of the batch before were found, in the lists of places.
#[derive(Drop)]
struct Near {
    infos: usize,
    commits: usize,
}

/// That a batch that is in has one value for each of its transactions, or none is told.
fn check_batch(
    logs: &[Sequence<Record>],
    number: u64,
    infos: &[(u64, usize)],
    commits: &[(u64, usize)],
    near: &mut Near,
) -> Result<(), RecoverNo>
    requires some { 0 < length logs.now }
    requires few { length logs.now < 256 }
    requires is_in { IsIn logs.now (bid_at number) }
    requires whole { IsBatchWhole logs.now (bid_at number) }
    requires infos { HasInfos (info_key kinds.Batch) logs.now infos.now }
    requires commits { HasInfos (commit_key kinds.Batch) logs.now commits.now }
    ensures { MatchResult result (λ t. HasItsValues logs.now (bid_at number)) (λ no. IsValuesLackOf logs.now number no) }
{
    let Some(place) = place_of(infos, number, &mut near.infos) else {
        unreachable!()
    };
    let Some(commit) = place_of(commits, number, &mut near.commits) else {
        unreachable!()
    };
    let log = number % logs.len() as u64;
    let rs = logs[log as usize].as_slice();
    let (_, tids) = info_at(rs, place, number);
    let Some(values) = values_at(rs, commit, number) else {
        return Ok(());
    };
    if values.len() != tids.len() {
        return Err(RecoverNo::Values {
            key: Key::Commit(Bid(number)),
            log: log as u8,
            kept: tids.len() as u64,
            found: values.len() as u64,
        });
    }
    Ok(())
}
