//! Whole lives of a table: it is made, passes are split, workers count, and it is taken apart.
ghost use Rattle.std.specs.Prelude.{◌≡◌, ◌+◌, ◌<◌, ◌≤◌, ℕ, All, IfOk, replicate, sum_by, vec_len};
ghost use Rattle.turn_table.specs.Runs.{Run};
ghost use Rattle.turn_table.specs.Words.{opening_of, IsOf, HoldsNothing, splits_of};
ghost use Rattle.turn_table.specs.declared.limits.TheConstants.{MOST_PARTS, PASSES};
ghost use Rattle.turn_rows.specs.Changes.{touched, makes, zero_counter};

use crate::counters::{Change, Counter};
use crate::workers::{add_once, count_all, is_free_while_held, move_once};
use snap_base::Memory;
use std::alloc::Global;
use std::sync::Wait;
use std::thread::Threads;
use turn_table::{MOST_PARTS, Pass, Turns};

/// What a table ended with: its counters, and the changes in the order of their numbers.
#[derive(Drop)]
pub struct Ending {
    /// A counter for each part, in the order of the parts.
    pub counters: Vec<Counter>,
    /// All changes that were recorded, in the order of their numbers.
    pub changes: Vec<Change>,
}

/// What two passes were told by a table.
#[derive(Clone, Copy, Debug, PartialEq, Eq)]
pub struct Told {
    /// Whether the second pass found the turn free that the first held; none where the first did not get it.
    pub free: Option<bool>,
    /// The number of the second pass's change; none where there was no memory, or its turn was held.
    pub first_number: Option<u64>,
    /// The number of the first pass's change; none where there was no memory, or its turn was held.
    pub second_number: Option<u64>,
    /// The number of the move; none where there is one counter, or there was no memory, or a turn was held.
    pub third_number: Option<u64>,
}

/// So many counters, all 0.
fn zeros(alloc: Global, count: usize) -> Result<Vec<Counter>, Memory>
    ensures { IfOk result (λ counters. counters.items ≡ replicate count zero_counter) }
{
    let mut counters = Vec::new(alloc);
    for _ in 0..count {
        counters.push(Counter { value: 0 })?;
    }
    Ok(counters)
}

/// A table of so many counters, all 0, with its first pass.
pub fn opened(alloc: Global, count: usize) -> Result<(Turns<Counter>, Pass<Counter>), Memory>
    requires { (0 < count) × (count ≤ MOST_PARTS) }
    ensures parts { IfOk result (λ made. made.0.parts ≡ count) }
    ensures opening { IfOk result (λ made. opening_of made.0 ≡ replicate count zero_counter) }
    ensures own { IfOk result (λ made. IsOf made.0 made.1.seat) }
    ensures idle { IfOk result (λ made. HoldsNothing made.1.seat) }
    ensures splits { IfOk result (λ made. splits_of made.1.seat + 1 ≡ PASSES) }
{
    let counters = zeros(alloc, count)?;
    match Turns::new(alloc, 7, counters) {
        Ok(made) => Ok(made),
        Err(_) => Err(Memory),
    }
}

/// A pass for another worker.
pub fn split_off(turns: &Turns<Counter>, pass: &mut Pass<Counter>) -> Pass<Counter>
    requires own { IsOf turns.now pass.old.seat }
    requires idle { HoldsNothing pass.old.seat }
    requires left { 0 < splits_of pass.old.seat }
    ensures own { IsOf turns.now pass.new.seat }
    ensures new_own { IsOf turns.now result.seat }
    ensures idle { HoldsNothing pass.new.seat }
    ensures new_idle { HoldsNothing result.seat }
    ensures splits { splits_of pass.new.seat + 1 ≡ splits_of pass.old.seat }
    ensures new_splits { splits_of result.seat ≡ 0 }
{
    turns.split(pass)
}

/// The table taken apart.
pub fn closed(
    alloc: Global,
    turns: Turns<Counter>,
    passes: Vec<Pass<Counter>>,
) -> Result<Ending, Memory>
    requires own { All (λ pass. IsOf turns pass.seat) passes.items }
    requires idle { All (λ pass. HoldsNothing pass.seat) passes.items }
    requires all { vec_len passes + sum_by (λ pass. splits_of pass.seat) passes.items ≡ PASSES }
    ensures { IfOk result (λ end. Run touched makes (opening_of turns) end.changes.items end.counters.items) }
{
    match turns.close(alloc, passes) {
        Ok((_, counters, changes)) => Ok(Ending { counters, changes }),
        Err(_) => Err(Memory),
    }
}

/// Moves 2 from the first of so many counters to the last, where these are two.
fn move_to_last(turns: &Turns<Counter>, pass: &mut Pass<Counter>, count: usize) -> Option<u64>
    requires own { IsOf turns.now pass.old.seat }
    requires count { (0 < count) × (turns.now.parts ≡ count) }
    requires idle { HoldsNothing pass.old.seat }
    ensures own { IsOf turns.now pass.new.seat }
    ensures idle { HoldsNothing pass.new.seat }
    ensures splits { splits_of pass.new.seat ≡ splits_of pass.old.seat }
{
    if count == 1 {
        return None;
    }
    move_once(turns, pass, 0, count - 1, 2)
}

/// Two passes over so many counters: the second tries the turn of counter 0 while the first holds it, and then adds 5 to
/// counter 0; the first adds 6 to the last, and moves 2 there from counter 0 where that is another.
pub fn two_passes(alloc: Global, count: usize) -> Result<(Told, Ending), Memory>
    requires { (0 < count) × (count ≤ MOST_PARTS) }
    ensures { IfOk result (λ end. Run touched makes (replicate count zero_counter) end.1.changes.items end.1.counters.items) }
{
    let made = opened(alloc, count)?;
    let (turns, mut first) = made;
    let mut second = split_off(&turns, &mut first);
    let free = is_free_while_held(&turns, &mut first, &mut second, 0);
    let first_number = add_once(&turns, &mut second, 0, 5);
    let second_number = add_once(&turns, &mut first, count - 1, 6);
    let third_number = move_to_last(&turns, &mut first, count);
    let passes = vec![in alloc; first, second]?;
    let ending = closed(alloc, turns, passes)?;
    let told = Told {
        free,
        first_number,
        second_number,
        third_number,
    };
    Ok((told, ending))
}

/// Two workers in threads over two counters, with so many rounds each, by turns one that adds 1 to a counter and one that moves 1 from a
/// counter to the other.
pub fn two_workers<R: Threads + Wait + Sync>(
    rt: &R,
    alloc: Global,
    times: u64,
) -> Result<Ending, Memory>
    ensures { IfOk result (λ end. Run touched makes (replicate 2 zero_counter) end.changes.items end.counters.items) }
{
    let made = opened(alloc, 2)?;
    let (turns, mut first) = made;
    let one = split_off(&turns, &mut first);
    let two = split_off(&turns, &mut first);
    let mut passes = vec![in alloc; one, two]?;
    count_all(rt, &turns, &mut passes, times);
    passes.push(first)?;
    closed(alloc, turns, passes)
}
