//! Workers: each takes turns, records its changes, and gives the turns back.
ghost use Rattle.std.specs.Prelude.{◌≡◌, ◌≢◌, ℕ, ◌<◌, ◌++◌, ◌∷◌, [], None, Some, All, IfSome, IfNone, vec_capacity, vec_len};
ghost use Rattle.turn_table.specs.Places.{at};
ghost use Rattle.turn_table.specs.Words.{IsOf, HoldsNothing, knows, part_of, splits_of, value_of};
ghost use Rattle.turn_table.specs.declared.limits.TheConstants.{MOST_ENTRIES, MOST_PARTS};
ghost use Rattle.turn_rows.specs.declared.counters.Change.TheVariants.{Add, Move};

use crate::counters::{Change, Counted, Counter};
use std::sync::Wait;
use std::thread;
use std::thread::Threads;
use turn_table::{Held, Pass, Turns, put_and_rest, taken_and_given};

/// Whether a try finds a part's turn free. It is given back at once.
pub fn is_free(turns: &Turns<Counter>, pass: &mut Pass<Counter>, part: usize) -> bool
    requires own { IsOf turns.now pass.old.seat }
    requires part { part < turns.now.parts }
    requires idle { HoldsNothing pass.old.seat }
    ensures own { IsOf turns.now pass.new.seat }
    ensures idle { HoldsNothing pass.new.seat }
    ensures splits { splits_of pass.new.seat ≡ splits_of pass.old.seat }
    ensures entries { pass.new.entries.items ≡ pass.old.entries.items }
{
    let Some(held) = turns.take(pass, part) else {
        return false;
    };
    taken_and_given::<Counter>();
    turns.give(pass, held);
    true
}

/// Whether the second pass finds a part's turn free while the first holds it; `None` where the first does not get it.
pub fn is_free_while_held(
    turns: &Turns<Counter>,
    first: &mut Pass<Counter>,
    second: &mut Pass<Counter>,
    part: usize,
) -> Option<bool>
    requires own { IsOf turns.now first.old.seat }
    requires other_own { IsOf turns.now second.old.seat }
    requires part { part < turns.now.parts }
    requires idle { HoldsNothing first.old.seat }
    requires other_idle { HoldsNothing second.old.seat }
    ensures own { IsOf turns.now first.new.seat }
    ensures other_own { IsOf turns.now second.new.seat }
    ensures idle { HoldsNothing first.new.seat }
    ensures other_idle { HoldsNothing second.new.seat }
    ensures splits { splits_of first.new.seat ≡ splits_of first.old.seat }
    ensures other_splits { splits_of second.new.seat ≡ splits_of second.old.seat }
{
    let held = turns.take(first, part)?;
    let free = is_free(turns, second, part);
    taken_and_given::<Counter>();
    turns.give(first, held);
    Some(free)
}

/// One round of a worker: adds to a counter where its turn is free, and gives the change's number.
pub fn add_once(
    turns: &Turns<Counter>,
    pass: &mut Pass<Counter>,
    part: usize,
    amount: u64,
) -> Option<u64>
    requires own { IsOf turns.now pass.old.seat }
    requires part { part < turns.now.parts }
    requires idle { HoldsNothing pass.old.seat }
    ensures own { IsOf turns.now pass.new.seat }
    ensures idle { HoldsNothing pass.new.seat }
    ensures splits { splits_of pass.new.seat ≡ splits_of pass.old.seat }
    ensures some { IfSome result (λ number. pass.new.entries.items ≡ pass.old.entries.items ++ (number, Add part amount) ∷ []) }
    ensures none { IfNone result (pass.new.entries.items ≡ pass.old.entries.items) }
{
    let Ok(()) = turns.room(pass) else {
        return None;
    };
    let held = turns.take(pass, part)?;
    let (lease, mut counter) = held.open();
    counter.add(amount);
    let number = turns.record(
        pass,
        Change::Add {
            part: part as u64,
            amount,
        },
        &Counted::One(counter),
    );
    put_and_rest::<Counter>();
    taken_and_given::<Counter>();
    turns.give(pass, lease.shut(counter));
    Some(number)
}

/// Records that an amount moves from the first held counter to the second, and gives both turns back.
fn record_move(
    turns: &Turns<Counter>,
    pass: &mut Pass<Counter>,
    from: usize,
    to: usize,
    first: Held<Counter>,
    second: Held<Counter>,
    amount: u64,
) -> u64
    requires own { IsOf turns.now pass.old.seat }
    requires room { (vec_len pass.old.entries < vec_capacity pass.old.entries) × (vec_len pass.old.entries < MOST_ENTRIES) }
    requires parts { (from < turns.now.parts) × (to < turns.now.parts) }
    requires apart { from ≢ to }
    requires first { (part_of first ≡ from) × (at (knows pass.old.seat).held from ≡ Some (value_of first)) }
    requires second { (part_of second ≡ to) × (at (knows pass.old.seat).held to ≡ Some (value_of second)) }
    requires rest { (j : ℕ) → j ≢ from → j ≢ to → at (knows pass.old.seat).held j ≡ None }
    ensures own { IsOf turns.now pass.new.seat }
    ensures idle { HoldsNothing pass.new.seat }
    ensures splits { splits_of pass.new.seat ≡ splits_of pass.old.seat }
    ensures entry { pass.new.entries.items ≡ pass.old.entries.items ++ (result, Move from to amount) ∷ [] }
{
    let (first_lease, mut giver) = first.open();
    let (second_lease, mut taker) = second.open();
    giver.take_off(amount);
    taker.add(amount);
    let number = turns.record(
        pass,
        Change::Move {
            from: from as u64,
            to: to as u64,
            amount,
        },
        &Counted::Two(giver, taker),
    );
    put_and_rest::<Counter>();
    taken_and_given::<Counter>();
    turns.give(pass, first_lease.shut(giver));
    turns.give(pass, second_lease.shut(taker));
    number
}

/// Moves an amount from one counter to another where both turns are free, and gives the change's number.
pub fn move_once(
    turns: &Turns<Counter>,
    pass: &mut Pass<Counter>,
    from: usize,
    to: usize,
    amount: u64,
) -> Option<u64>
    requires own { IsOf turns.now pass.old.seat }
    requires parts { (from < turns.now.parts) × (to < turns.now.parts) }
    requires apart { from ≢ to }
    requires idle { HoldsNothing pass.old.seat }
    ensures own { IsOf turns.now pass.new.seat }
    ensures idle { HoldsNothing pass.new.seat }
    ensures splits { splits_of pass.new.seat ≡ splits_of pass.old.seat }
    ensures some { IfSome result (λ number. pass.new.entries.items ≡ pass.old.entries.items ++ (number, Move from to amount) ∷ []) }
    ensures none { IfNone result (pass.new.entries.items ≡ pass.old.entries.items) }
{
    let Ok(()) = turns.room(pass) else {
        return None;
    };
    let first = turns.take(pass, from)?;
    put_and_rest::<Counter>();
    taken_and_given::<Counter>();
    let Some(second) = turns.take(pass, to) else {
        turns.give(pass, first);
        return None;
    };
    Some(record_move(turns, pass, from, to, first, second, amount))
}

/// A round of a worker: it adds 1 to one of the first two counters or moves 1 from one of them to the other, each of both in turn. It
/// gives the change's number, where the turns were free.
fn round(turns: &Turns<Counter>, pass: &mut Pass<Counter>, number: u64) -> Option<u64>
    requires own { IsOf turns.now pass.old.seat }
    requires parts { 1 < turns.now.parts }
    requires idle { HoldsNothing pass.old.seat }
    ensures own { IsOf turns.now pass.new.seat }
    ensures idle { HoldsNothing pass.new.seat }
    ensures splits { splits_of pass.new.seat ≡ splits_of pass.old.seat }
{
    match number % 4 {
        0 => add_once(turns, pass, 0, 1),
        1 => move_once(turns, pass, 0, 1, 1),
        2 => add_once(turns, pass, 1, 1),
        _ => move_once(turns, pass, 1, 0, 1),
    }
}

/// So many rounds of a worker, each of which is tried until its turns are free.
pub fn count<R: Wait>(rt: &R, turns: &Turns<Counter>, pass: &mut Pass<Counter>, times: u64)
    requires own { IsOf turns.now pass.old.seat }
    requires parts { 1 < turns.now.parts }
    requires idle { HoldsNothing pass.old.seat }
    ensures own { IsOf turns.now pass.new.seat }
    ensures idle { HoldsNothing pass.new.seat }
    ensures splits { splits_of pass.new.seat ≡ splits_of pass.old.seat }
{
    let mut done = 0;
    for _ in rt.forever() {
        if done >= times {
            break;
        }
        if round(turns, pass, done).is_some() {
            done += 1;
        } else {
            thread::yield_now();
        }
    }
}

/// So many rounds by each pass, with a thread for each pass, of at most eight.
pub fn count_all<R: Threads + Wait + Sync>(
    rt: &R,
    turns: &Turns<Counter>,
    passes: &mut [Pass<Counter>],
    times: u64,
)
    requires own { All (λ pass. IsOf turns.now pass.seat) passes.old }
    requires parts { 1 < turns.now.parts }
    requires idle { All (λ pass. HoldsNothing pass.seat) passes.old }
    requires whole { All (λ pass. splits_of pass.seat ≡ 0) passes.old }
    ensures own { All (λ pass. IsOf turns.now pass.seat) passes.new }
    ensures idle { All (λ pass. HoldsNothing pass.seat) passes.new }
    ensures whole { All (λ pass. splits_of pass.seat ≡ 0) passes.new }
{
    thread::for_each_mut(rt, passes, 8, &|_, pass| count(rt, turns, pass, times));
}
