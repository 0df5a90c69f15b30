//! What is asked of the orders when all events that ACTs may have are looked for.
ghost use Rattle.std.specs.Prelude.{◌≡◌, ◌≤◌, [], map, take, filter, length, IfOk};
ghost use Rattle.protocol.specs.Meant.{tid_number};
ghost use Rattle.protocol.specs.Words.{act_of, count, holds, is_doomed, is_live_act};
ghost use Rattle.order_book.specs.Kept.{is_leaving, is_leaving_kept, is_live_kept, tid_kept};
ghost use Rattle.order_book.specs.Registered.{tids_of_acts};

use crate::act::Act;
use crate::acts::Acts;
use crate::book::Book;
use snap_base::{Memory, Tid};
use std::alloc::Global;

impl Book {
    /// The live ACTs, in the order of their tids: they have an actor still to leave, or have joined none and are not given
    /// up. It walks the ACTs from the oldest of them on, and no older one.
    pub fn going(&self, alloc: Global) -> Result<Vec<Tid>, Memory>
        ensures { IfOk result (λ tids. map tid_number tids.items ≡ tids_of_acts (filter is_live_act self.now.acts)) }
    {
        let live = self.register.live();
        self.register.acts().going(alloc, live)
    }

    /// The live ACTs that are given up, in the order of their tids. It walks the ACTs from the oldest live one on, and no
    /// older one.
    pub fn given_up(&self, alloc: Global) -> Result<Vec<Tid>, Memory>
        ensures { IfOk result (λ tids. map tid_number tids.items ≡ filter (λ t. holds (λ x. is_doomed x.status) (act_of t self.now.acts)) (tids_of_acts (filter is_live_act self.now.acts))) }
    {
        self.register.given_up(alloc)
    }
}

impl Acts {
    /// The live ones, where there are so many.
    fn going(&self, alloc: Global, live: usize) -> Result<Vec<Tid>, Memory>
        requires { live ≡ count is_live_act self.now }
        ensures { IfOk result (λ tids. map tid_number tids.items ≡ tids_of_acts (filter is_live_act self.now)) }
    {
        let rows = self.rows.as_slice();
        let first = first_live(rows, live);
        let tids = going_from(alloc, rows, first, live)?;
        Ok(tids)
    }

    /// Those of the live ones that are given up, where so many are live.
    pub(crate) fn leaving(&self, alloc: Global, live: usize) -> Result<Vec<Tid>, Memory>
        requires { live ≡ count is_live_act self.now }
        ensures { IfOk result (λ tids. map tid_number tids.items ≡ tids_of_acts (filter is_leaving self.now)) }
    {
        let rows = self.rows.as_slice();
        let first = first_live(rows, live);
        let tids = leaving_from(alloc, rows, first)?;
        Ok(tids)
    }
}

/// The place of the oldest live one, where so many are live.
fn first_live(rows: &[Act], live: usize) -> usize
    requires { live ≡ count is_live_kept rows.now }
    ensures within { result ≤ length rows.now }
    ensures none { filter is_live_kept (take result rows.now) ≡ [] }
{
    let mut first = rows.len();
    let mut found: usize = 0;
    while found < live {
        first -= 1;
        if rows[first].is_live() {
            found += 1;
        }
    }
    first
}

/// The live ones, about so many, where none before this place is live.
fn going_from(alloc: Global, rows: &[Act], first: usize, live: usize) -> Result<Vec<Tid>, Memory>
    requires within { first ≤ length rows.now }
    requires none { filter is_live_kept (take first rows.now) ≡ [] }
    ensures { IfOk result (λ tids. map tid_number tids.items ≡ map tid_kept (filter is_live_kept rows.now)) }
{
    let mut tids = Vec::with_capacity(alloc, live)?;
    for at in first..rows.len() {
        if rows[at].is_live() {
            tids.push(rows[at].tid())?;
        }
    }
    Ok(tids)
}

/// Those of the live ones that are given up, where none before this place is live.
fn leaving_from(alloc: Global, rows: &[Act], first: usize) -> Result<Vec<Tid>, Memory>
    requires within { first ≤ length rows.now }
    requires none { filter is_live_kept (take first rows.now) ≡ [] }
    ensures { IfOk result (λ tids. map tid_number tids.items ≡ map tid_kept (filter is_leaving_kept rows.now)) }
{
    let mut tids = Vec::new(alloc);
    for at in first..rows.len() {
        if rows[at].is_leaving() {
            tids.push(rows[at].tid())?;
        }
    }
    Ok(tids)
}
