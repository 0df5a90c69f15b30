//! What logs fold to.
ghost use Rattle.std.specs.Prelude.{◌≡◌, ◌≤◌, length, IfOk, MatchResult};
ghost use Rattle.snap_recover.specs.declared.ranges.TheConstants.{GREATEST_NUMBER};
ghost use Rattle.log_compact.specs.Refusals.{IsNotFolded};
ghost use Rattle.log_compact.specs.Sets.{HasNoStray, IsFolded, IsPointInRange, OfPoint, point_of};
ghost use Rattle.log_compact.specs.Stripping.{IsJoined, first_with};

use crate::checkpoints::checkpoint_no;
use crate::folds::Folded;
use crate::numbers::{acts_in, batches_in};
use crate::refusals::FoldNo;
use crate::stripping::{Stripped, Told, strip_lists};
use snap_base::{Bid, Memory, Sequence, State, Tid};
use snap_recover::{Opening, first_genesis, recover};
use std::alloc::Global;
use std::mem;
use txn_records::Record;

/// What the logs in use fold to. Genesis gets the checkpoint's states, and the checkpoint is left out; what these lists recover to
/// gets the greater next numbers, and the checkpoint's counts are added to what is committed. A refusal names a log by a byte, so
/// there are 256 lists at most.
pub fn fold(alloc: Global, lists: Sequence<Sequence<Record>>) -> Result<Folded, FoldNo>
    requires few { length lists ≤ 256 }
    ensures { MatchResult result (λ f. IsFolded lists f) (λ no. IsNotFolded lists no) }
{
    if let Some(no) = checkpoint_no(lists.as_slice()) {
        return Err(FoldNo::from(no));
    }
    fold_fit(alloc, lists)
}

/// What logs fold to of which no checkpoint strays, and no number of it is too large.
fn fold_fit(alloc: Global, lists: Sequence<Sequence<Record>>) -> Result<Folded, FoldNo>
    requires no_stray { HasNoStray lists }
    requires in_range { OfPoint IsPointInRange (point_of lists) }
    ensures { MatchResult result (λ f. IsFolded lists f) (λ no. IsNotFolded lists no) }
{
    let Stripped {
        lists: plain,
        first: kept,
        told,
    } = strip_lists(alloc, lists);
    let found = recover(alloc, plain.as_slice())?;
    let first = first_states(alloc, kept, plain.as_slice())?;
    Ok(joined(alloc, found, first, told))
}

/// The states with which the first run began: those that Genesis had before it got others, or those that it has.
fn first_states(
    alloc: Global,
    kept: Option<Sequence<State>>,
    plain: &[Sequence<Record>],
) -> Result<Sequence<State>, Memory>
    ensures { IfOk result (λ states. states ≡ first_with kept plain.now) }
{
    if let Some(states) = kept {
        return Ok(states);
    }
    match first_genesis(plain) {
        Some((_, states)) => Ok(Sequence::from_vec(Vec::from_slice(alloc, states.as_slice())?)),
        None => Ok(Sequence::new(alloc)),
    }
}

/// What is found with the checkpoint's numbers.
fn joined(alloc: Global, found: Opening, first: Sequence<State>, told: Told) -> Folded
    requires batches { told.batches ≤ GREATEST_NUMBER }
    requires acts { told.acts ≤ GREATEST_NUMBER }
    ensures { IsJoined found first told result }
{
    let mut opening = found;
    // As a vector the list is known to be short enough for the sums.
    let since = mem::replace(&mut opening.committed, Sequence::new(alloc)).into_vec();
    let batches = batches_in(since.as_slice()) + told.batches;
    let acts = acts_in(since.as_slice()) + told.acts;
    opening.committed = Sequence::from_vec(since);
    opening.next_tid = Tid(opening.next_tid.0.max(told.next_tid));
    opening.next_bid = Bid(opening.next_bid.0.max(told.next_bid));
    opening.next_c = opening.next_c.max(told.next_c);
    Folded {
        opening,
        first,
        generation: told.generation,
        batches,
        acts,
    }
}
