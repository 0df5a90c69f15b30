//! What changes within a schedule's lists.
ghost use Rattle.std.specs.Prelude.{◌≡◌, ℕ, ◌+◌, ◌<◌, ◌≤◌, [], ◌∷◌, ◌++◌, not, map, filter, OnOk, OnErr, IfOk, IsOk, vec_len, vec_capacity};
ghost use Rattle.protocol.specs.Words.{is_batch_entry, is_act_entry};
ghost use Rattle.protocol.specs.OnCell.{done_in, complete_in};

use crate::entries::Entry;
use crate::slots::Slot;
use snap_base::{Bid, Memory, Tid};
use std::alloc::Global;
use std::mem;

/// Adds an element for which there is room.
pub fn push_in_room<T: Drop>(items: &mut Vec<T>, x: T)
    requires { vec_len items.old < vec_capacity items.old }
    ensures items { items.new.items ≡ items.old.items ++ x ∷ [] }
    ensures len { vec_len items.new ≡ vec_len items.old + 1 }
    ensures capacity { vec_capacity items.old ≤ vec_capacity items.new }
{
    let _full = items.push(x);
}

/// The PACT is done wherever an entry names it.
pub fn mark_done(entries: &mut Vec<Entry>, t: Tid)
    ensures items { entries.new.items ≡ map (done_in t.0) entries.old.items }
    ensures len { vec_len entries.new ≡ vec_len entries.old }
    ensures capacity { vec_capacity entries.new ≡ vec_capacity entries.old }
{
    mark_each_done(entries.as_mut_slice(), t);
}

fn mark_each_done(entries: &mut [Entry], t: Tid)
    ensures { entries.new ≡ map (done_in t.0) entries.old }
{
    for e in entries.iter_mut() {
        e.mark_done(t);
    }
}

/// The batch is complete, where it has an entry.
pub fn mark_complete(entries: &mut Vec<Entry>, k: Bid)
    ensures items { entries.new.items ≡ map (complete_in k.0) entries.old.items }
    ensures len { vec_len entries.new ≡ vec_len entries.old }
    ensures capacity { vec_capacity entries.new ≡ vec_capacity entries.old }
{
    mark_each_complete(entries.as_mut_slice(), k);
}

fn mark_each_complete(entries: &mut [Entry], k: Bid)
    ensures { entries.new ≡ map (complete_in k.0) entries.old }
{
    for e in entries.iter_mut() {
        e.mark_complete(k);
    }
}

/// The entry of the ACT leaves, where it has one.
pub fn remove_act(entries: &mut Vec<Entry>, t: Tid)
    ensures items { entries.new.items ≡ filter (λ e. not (is_act_entry t.0 e)) entries.old.items }
    ensures capacity { vec_capacity entries.new ≡ vec_capacity entries.old }
    ensures fewer { vec_len entries.new ≤ vec_len entries.old }
{
    entries.retain(|e| !e.is_act_of(t));
}

/// The entry of the batch leaves, where it has one.
pub fn remove_batch(entries: &mut Vec<Entry>, k: Bid)
    ensures items { entries.new.items ≡ filter (λ e. not (is_batch_entry k.0 e)) entries.old.items }
    ensures capacity { vec_capacity entries.new ≡ vec_capacity entries.old }
    ensures fewer { vec_len entries.new ≤ vec_len entries.old }
{
    entries.retain(|e| !e.is_batch(k));
}

/// Memory for the slots of a sub-batch with so many tids, the one that lies ready where it is enough, and room for
/// its entry. Where there is none, all is as before.
pub fn take_room(
    entries: &mut Vec<Entry>,
    ready: &mut Vec<Slot>,
    alloc: Global,
    tids: usize,
) -> Result<Vec<Slot>, Memory>
    requires ready { ready.old.items ≡ [] }
    ensures entries { entries.new.items ≡ entries.old.items }
    ensures still_ready { ready.new.items ≡ [] }
    ensures empty { IfOk result (λ slots. slots.items ≡ []) }
    ensures fits { IfOk result (λ slots. tids ≤ vec_capacity slots) }
    ensures room { OnOk result (vec_len entries.new < vec_capacity entries.new) }
    ensures len { vec_len entries.new ≡ vec_len entries.old }
    ensures no_less { vec_capacity entries.old ≤ vec_capacity entries.new }
    ensures too_few { vec_capacity ready.old < tids → vec_capacity ready.new ≡ vec_capacity ready.old }
    ensures succeeds { vec_len entries.old < vec_capacity entries.old → tids ≤ vec_capacity ready.old
        → IsOk result }
    ensures err_entries { OnErr result (vec_capacity entries.new ≡ vec_capacity entries.old) }
    ensures err_ready { OnErr result (vec_capacity ready.new ≡ vec_capacity ready.old) }
{
    if ready.capacity() < tids {
        let slots = Vec::with_capacity(alloc, tids)?;
        entries.reserve(1)?;
        Ok(slots)
    } else {
        entries.reserve(1)?;
        Ok(mem::replace(ready, Vec::new(alloc)))
    }
}
