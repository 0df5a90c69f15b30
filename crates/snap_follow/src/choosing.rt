//! The lists with only some of their commits, and who of the members these are.
ghost use Rattle.std.specs.Prelude.{◌≡◌, filter, IfOk};
ghost use Rattle.snap_follow.specs.Passes.{chosen_lists, is_chosen, is_member};

use crate::commits::Commits;
use crate::copies::copy_of;
use snap_base::{Memory, Sequence};
use snap_recover::Kept;
use std::alloc::Global;
use txn_records::Record;

/// Copies of the lists with no commits but those of the set.
pub(crate) fn chosen(
    alloc: Global,
    lists: &[Sequence<Record>],
    set: &Commits,
) -> Result<Sequence<Sequence<Record>>, Memory>
    ensures { IfOk result (λ some. some ≡ chosen_lists set.now lists.now) }
{
    let mut some = Sequence::new(alloc);
    for rs in lists {
        let next = chosen_of(alloc, rs.as_slice(), set)?;
        some.push(next)?;
    }
    Ok(some)
}

/// Copies of the records of one list, with no commits but those of the set.
fn chosen_of(alloc: Global, rs: &[Record], set: &Commits) -> Result<Sequence<Record>, Memory>
    ensures { IfOk result (λ some. some ≡ filter (is_chosen set.now) rs.now) }
{
    let mut some = Sequence::new(alloc);
    for r in rs {
        if stays(r, set) {
            let copy = copy_of(alloc, r)?;
            some.push(copy)?;
        }
    }
    Ok(some)
}

/// Whether the record is no checkpoint, and no commit but one of the set.
fn stays(r: &Record, set: &Commits) -> bool
    ensures { result ≡ is_chosen set.now r.now }
{
    match r {
        Record::Genesis { .. } => true,
        Record::BatchInfo { .. } => true,
        Record::BatchComplete { .. } => true,
        Record::BatchCommit { bid } => set.batches.contains(&bid.0),
        Record::ActPrepare { .. } => true,
        Record::ActCommit { tid, .. } => set.acts.contains(&tid.0),
        Record::BatchDone { bid, .. } => set.batches.contains(&bid.0),
        Record::ActDone { tid, .. } => set.acts.contains(&tid.0),
        Record::Checkpoint { .. } => false,
    }
}

/// Those whose commits the set has, in their order.
pub(crate) fn members_of(whole: Sequence<Kept>, set: &Commits) -> Sequence<Kept>
    ensures { result ≡ filter (is_member set.now) whole }
{
    let mut members = whole.into_vec();
    members.retain(|member| is_member(member, set));
    Sequence::from_vec(members)
}

/// Whether the set has its commit.
fn is_member(member: &Kept, set: &Commits) -> bool
    ensures { result ≡ is_member set.now member.now }
{
    match member {
        Kept::Batch { bid, .. } => set.batches.contains(&bid.0),
        Kept::Act { tid, .. } => set.acts.contains(&tid.0),
    }
}
