//! What stands on a schedule, listed. Each walks what stands there once.
ghost use Rattle.std.specs.Prelude.{◌≡◌, map, IfOk};
ghost use Rattle.std.specs.List.{list_any};
ghost use Rattle.std.specs.Option.{option_map};
ghost use Rattle.protocol.specs.OnBook.{tids_on};
ghost use Rattle.protocol.specs.Meant.{tid_number};
ghost use Rattle.hybrid_schedule.specs.Listed.{completable_on, incomplete_on, rivals_among, undone_by, undone_on};
ghost use Rattle.hybrid_schedule.specs.Schedules.{is_any_act, rival_tids};

use crate::askings;
use crate::entries::Entry;
use crate::schedule::Schedule;
use snap_base::{Bid, Memory, Tid};
use std::alloc::Global;

impl Schedule {
    /// The batches that are not complete here, in order.
    pub fn incomplete(&self, alloc: Global) -> Result<Vec<Bid>, Memory>
        ensures { IfOk result (λ bids. map (λ k. k.0) bids.items ≡ incomplete_on self.now.schedule.entries) }
    {
        incomplete_among(alloc, &self.entries)
    }

    /// The PACTs that sub-batches name and that are not done here, in order.
    pub fn undone(&self, alloc: Global) -> Result<Vec<Tid>, Memory>
        ensures { IfOk result (λ tids. map tid_number tids.items ≡ undone_on self.now.schedule.entries) }
    {
        undone_among(alloc, &self.entries)
    }

    /// The PACTs that the sub-batch of batch `k` names and that are not done here, in order.
    pub fn undone_by(&self, alloc: Global, k: Bid) -> Result<Vec<Tid>, Memory>
        ensures { IfOk result (λ tids. map tid_number tids.items ≡ undone_by k.0 self.now.schedule.entries) }
    {
        undone_of_batch(alloc, &self.entries, k)
    }

    /// The batch that can be completed here: all that stands ahead of it is complete, and all its PACTs are done. There is one
    /// at most.
    pub fn completable(&self) -> Option<Bid>
        ensures { option_map (λ k. k.0) result ≡ completable_on self.now.schedule.entries }
    {
        askings::completable(&self.entries)
    }

    /// Whether an ACT stands here.
    pub fn has_acts(&self) -> bool
        ensures { result ≡ list_any is_any_act self.now.schedule.entries }
    {
        askings::has_acts(&self.entries)
    }

    /// All ACTs, in order.
    #[tactic(auto, using(crate::proofs::OfActs::all_are_rivals))]
    pub fn acts(&self, alloc: Global) -> Result<Vec<Tid>, Memory>
        ensures { IfOk result (λ acts. map tid_number acts.items ≡ tids_on self.now.schedule.entries) }
    {
        rivals_among(alloc, &self.entries, false)
    }

    /// Of the ACTs behind the last sub-batch those that an ACT which comes can't stand beside, in order. Of a `reader`
    /// the ones that do not only read are listed, and else all.
    #[tactic(auto, using(crate::proofs::OfActs::rivals_of_locks))]
    pub fn rivals(&self, alloc: Global, reader: bool) -> Result<Vec<Tid>, Memory>
        ensures { IfOk result (λ tids. map tid_number tids.items ≡ rival_tids reader self.now.schedule.entries) }
    {
        rivals_among(alloc, askings::tail(&self.entries), reader)
    }
}

fn incomplete_among(alloc: Global, entries: &[Entry]) -> Result<Vec<Bid>, Memory>
    ensures { IfOk result (λ bids. map (λ k. k.0) bids.items ≡ incomplete_on entries.now) }
{
    let mut bids = Vec::new(alloc);
    for entry in entries {
        entry.list_incomplete(&mut bids)?;
    }
    Ok(bids)
}

fn undone_among(alloc: Global, entries: &[Entry]) -> Result<Vec<Tid>, Memory>
    ensures { IfOk result (λ tids. map tid_number tids.items ≡ undone_on entries.now) }
{
    let mut tids = Vec::new(alloc);
    for entry in entries {
        entry.list_undone(&mut tids)?;
    }
    Ok(tids)
}

fn undone_of_batch(alloc: Global, entries: &[Entry], k: Bid) -> Result<Vec<Tid>, Memory>
    ensures { IfOk result (λ tids. map tid_number tids.items ≡ undone_by k.0 entries.now) }
{
    let mut tids = Vec::new(alloc);
    for entry in entries {
        entry.list_undone_by(k, &mut tids)?;
    }
    Ok(tids)
}

/// The ACTs that one which comes, which only reads or not, can't stand beside.
fn rivals_among(alloc: Global, entries: &[Entry], reader: bool) -> Result<Vec<Tid>, Memory>
    ensures { IfOk result (λ tids. map tid_number tids.items ≡ rivals_among reader entries.now) }
{
    let mut tids = Vec::new(alloc);
    for entry in entries {
        entry.list_rival(reader, &mut tids)?;
    }
    Ok(tids)
}
