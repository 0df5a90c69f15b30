//! What is asked of an actor when all events that it may have are looked for.
ghost use Rattle.std.specs.Prelude.{◌≡◌, ◌∷◌, ◌++◌, [], filter, map, IfOk, OnOk};
ghost use Rattle.std.specs.List.{list_any};
ghost use Rattle.std.specs.Option.{option_map};
ghost use Rattle.protocol.specs.Meant.{tid_number};
ghost use Rattle.hybrid_schedule.specs.Listed.{completable_on, incomplete_on, undone_by, undone_on};
ghost use Rattle.hybrid_schedule.specs.Schedules.{can_run, is_any_act};

use crate::boxes::Boxes;
use crate::cell_part::CellPart;
use crate::kept::Kept;
use hybrid_schedule::Schedule;
use snap_base::{Bid, Memory, Tid};
use std::alloc::Global;

impl<C: Drop> CellPart<C> {
    /// The transactions whose controls have arrived, in the order in which they came.
    pub fn waiting(&self, alloc: Global) -> Result<Vec<Tid>, Memory>
        ensures { IfOk result (λ tids. map tid_number tids.items ≡ map (λ x. x.tid) self.now.cell.inbox) }
    {
        self.boxes.waiting(alloc)
    }

    /// Those of them that may run now: all that stands ahead of a transaction is out of its way, and it is its turn.
    pub fn runnable(&self, alloc: Global) -> Result<Vec<Tid>, Memory>
        ensures { IfOk result (λ tids. map tid_number tids.items ≡ filter (λ t. can_run t self.now.cell.entries) (map (λ x. x.tid) self.now.cell.inbox)) }
    {
        self.boxes.runnable(alloc, &self.schedule)
    }

    /// The transactions whose slices left something here that is not taken on, in the order in which they ended.
    pub fn outcomes(&self, alloc: Global) -> Result<Vec<Tid>, Memory>
        ensures { IfOk result (λ tids. map tid_number tids.items ≡ map (λ x. x.tid) self.now.cell.outbox) }
    {
        self.boxes.outcomes(alloc)
    }

    /// The batches on the schedule that are not complete here, in order.
    pub fn incomplete(&self, alloc: Global) -> Result<Vec<Bid>, Memory>
        ensures { IfOk result (λ bids. map (λ k. k.0) bids.items ≡ incomplete_on self.now.cell.entries) }
    {
        self.schedule.incomplete(alloc)
    }

    /// The PACTs that sub-batches name and that are not done here, in order.
    pub fn undone(&self, alloc: Global) -> Result<Vec<Tid>, Memory>
        ensures { IfOk result (λ tids. map tid_number tids.items ≡ undone_on self.now.cell.entries) }
    {
        self.schedule.undone(alloc)
    }

    /// The PACTs that the sub-batch of batch `k` names and that are not done here, in order.
    pub fn undone_by(&self, alloc: Global, k: Bid) -> Result<Vec<Tid>, Memory>
        ensures { IfOk result (λ tids. map tid_number tids.items ≡ undone_by k.0 self.now.cell.entries) }
    {
        self.schedule.undone_by(alloc, k)
    }

    /// The batch that can be completed here: all that stands ahead of it is complete, and all its PACTs are done. There is one
    /// at most.
    pub fn completable(&self) -> Option<Bid>
        ensures { option_map (λ k. k.0) result ≡ completable_on self.now.cell.entries }
    {
        self.schedule.completable()
    }

    /// Whether an ACT stands on the schedule.
    pub fn has_acts(&self) -> bool
        ensures { result ≡ list_any is_any_act self.now.cell.entries }
    {
        self.schedule.has_acts()
    }
}

impl<C: Drop> Boxes<C> {
    fn waiting(&self, alloc: Global) -> Result<Vec<Tid>, Memory>
        ensures { IfOk result (λ tids. map tid_number tids.items ≡ map (λ x. x.tid) self.now.boxes.inbox) }
    {
        tids_of(alloc, &self.inbox)
    }

    fn runnable(&self, alloc: Global, schedule: &Schedule) -> Result<Vec<Tid>, Memory>
        ensures { IfOk result (λ tids. map tid_number tids.items ≡ filter (λ t. can_run t schedule.now.schedule.entries) (map (λ x. x.tid) self.now.boxes.inbox)) }
    {
        let waiting = self.waiting(alloc)?;
        runnable_of(alloc, schedule, &waiting)
    }

    fn outcomes(&self, alloc: Global) -> Result<Vec<Tid>, Memory>
        ensures { IfOk result (λ tids. map tid_number tids.items ≡ map (λ x. x.tid) self.now.boxes.outbox) }
    {
        tids_of(alloc, &self.outbox)
    }
}

/// The transactions of the items, in order.
fn tids_of<T: Kept>(alloc: Global, items: &[T]) -> Result<Vec<Tid>, Memory>
    ensures { IfOk result (λ tids. map tid_number tids.items ≡ map T.number items.now) }
{
    let mut tids = Vec::with_capacity(alloc, items.len())?;
    for item in items {
        tids.push(item.tid())?;
    }
    Ok(tids)
}

fn add_runnable(schedule: &Schedule, t: Tid, tids: &mut Vec<Tid>) -> Result<(), Memory>
    ensures { OnOk result (map tid_number tids.new.items ≡ map tid_number tids.old.items ++ filter (λ u. can_run u schedule.now.schedule.entries) (t.0 ∷ [])) }
{
    if schedule.may_run(t) {
        tids.push(t)?;
    }
    Ok(())
}

fn runnable_of(alloc: Global, schedule: &Schedule, waiting: &[Tid]) -> Result<Vec<Tid>, Memory>
    ensures { IfOk result (λ tids. map tid_number tids.items ≡ filter (λ t. can_run t schedule.now.schedule.entries) (map tid_number waiting.now)) }
{
    let mut tids = Vec::new(alloc);
    for t in waiting {
        add_runnable(schedule, *t, &mut tids)?;
    }
    Ok(tids)
}
