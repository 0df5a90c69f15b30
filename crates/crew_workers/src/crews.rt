//! The whole life of a crew: a table of the shares, workers in threads, and what they came to.
ghost use Rattle.std.specs.Prelude.{◌≡◌, ◌+◌, ◌<◌, ◌≤◌, [], All, IfErr, IfOk, sum_by, vec_capacity, vec_len};
ghost use Rattle.crew_grip.specs.Grips.{IsCrew};
ghost use Rattle.crew_workers.specs.Workers.{IsBetweenRounds};
ghost use Rattle.crew_parts.specs.Crews.{AreFirstShares, HasCome, kept};
ghost use Rattle.snap_hand.specs.Tables.{AreTables, fixed_of};
ghost use Rattle.snap_work.specs.declared.limits.TheConstants.{MOST_WORKERS};
ghost use Rattle.turn_table.specs.Words.{HoldsNothing, IsOf, opening_of, splits_of, tables_of};
ghost use Rattle.turn_table.specs.declared.limits.TheConstants.{PASSES};

use crate::ends::{Ending, end_crew};
use crate::workers::{Worker, work_together};
use crew_parts::Share;
use snap_base::Memory;
use snap_hand::Tables;
use snap_outside::{Gate, LogDev, Sink};
use std::alloc::Global;
use std::sync::Wait;
use std::thread;
use std::thread::Threads;
use turn_table::{Pass, Piece, Turns};

/// With what a crew is run: what its workers wait and start threads by, the allocator, the gate that each Run passes, and how many
/// workers there are to be, at most `MOST_WORKERS`.
#[derive(Drop)]
pub struct Hiring<'a, R, G: Gate> {
    pub rt: &'a R,
    pub alloc: Global,
    pub gate: &'a G,
    pub workers: usize,
}

/// Workers, and the pass that theirs were cut off.
#[derive(Drop)]
struct Staff<D: LogDev + Drop, O: Sink + Drop>
where
    Share<D, O>: Piece,
{
    first: Pass<Share<D, O>>,
    workers: Vec<Worker<D, O>>,
}

/// Hires workers up to this count, as many as there is memory for, each with a pass that is cut off the first one.
fn hire<D: LogDev + Drop, O: Sink + Drop>(
    alloc: Global,
    turns: &Turns<Share<D, O>>,
    staff: &mut Staff<D, O>,
    count: usize,
)
    requires crew { IsCrew turns.now }
    requires own { IsOf turns.now staff.old.first.seat }
    requires idle { HoldsNothing staff.old.first.seat }
    requires splits { splits_of staff.old.first.seat + 1 ≡ PASSES }
    requires count { count ≤ MOST_WORKERS }
    requires room { (staff.old.workers.items ≡ []) × (count ≤ vec_capacity staff.old.workers) }
    ensures own { IsOf turns.now staff.new.first.seat }
    ensures idle { HoldsNothing staff.new.first.seat }
    ensures free { All (λ worker. IsBetweenRounds turns.now worker.pass.seat worker.grip) staff.new.workers.items }
    ensures all { vec_len staff.new.workers + (splits_of staff.new.first.seat + 1) ≡ PASSES }
    ensures many { vec_len staff.new.workers ≤ count }
{
    let Staff { first, workers } = staff;
    for _hired in 0..count {
        let Ok(worker) = Worker::new(alloc, turns, first) else {
            return;
        };
        workers.push_reserved(worker);
    }
}

/// The passes of the workers, and the first one.
fn passes_of<D: LogDev + Drop, O: Sink + Drop>(
    turns: &Turns<Share<D, O>>,
    staff: Staff<D, O>,
    mut passes: Vec<Pass<Share<D, O>>>,
) -> Vec<Pass<Share<D, O>>>
    requires own { IsOf turns.now staff.first.seat }
    requires idle { HoldsNothing staff.first.seat }
    requires free { All (λ worker. IsBetweenRounds turns.now worker.pass.seat worker.grip) staff.workers.items }
    requires room { (passes.items ≡ []) × (vec_len staff.workers < vec_capacity passes) }
    ensures own { All (λ pass. IsOf turns.now pass.seat) result.items }
    ensures idle { All (λ pass. HoldsNothing pass.seat) result.items }
    ensures all { vec_len result + sum_by (λ pass. splits_of pass.seat) result.items ≡ vec_len staff.workers + (splits_of staff.first.seat + 1) }
{
    let _ = turns;
    let Staff { first, mut workers } = staff;
    while let Some(worker) = workers.pop() {
        passes.push_reserved(worker.into_pass());
    }
    passes.push_reserved(first);
    passes
}

/// The table taken apart. Where there is no memory for that, it is tried again and again, and others work in between.
fn closed<R: Wait, D: LogDev + Drop, O: Sink + Drop>(
    rt: &R,
    alloc: Global,
    mut turns: Turns<Share<D, O>>,
    mut passes: Vec<Pass<Share<D, O>>>,
) -> Ending<D, O>
    requires crew { IsCrew turns }
    requires own { All (λ pass. IsOf turns pass.seat) passes.items }
    requires idle { All (λ pass. HoldsNothing pass.seat) passes.items }
    requires all { vec_len passes + sum_by (λ pass. splits_of pass.seat) passes.items ≡ PASSES }
    ensures tables { result.tables ≡ tables_of turns }
    ensures come { HasCome (fixed_of (tables_of turns)) (opening_of turns) (kept result.acts.items) result.shares.items }
{
    for _ in rt.forever() {
        match end_crew(alloc, turns, passes) {
            Ok(end) => return end,
            Err((table, all, _)) => {
                turns = table;
                passes = all;
                thread::yield_now();
            }
        }
    }
    unreachable!()
}

/// Workers over this table, until they end.
fn run_table<
    R: Threads + Wait + Sync,
    D: LogDev + Drop + Send,
    O: Sink + Drop + Send,
    G: Gate + Sync,
>(
    hiring: &Hiring<R, G>,
    turns: Turns<Share<D, O>>,
    mut staff: Staff<D, O>,
    passes: Vec<Pass<Share<D, O>>>,
) -> Ending<D, O>
    requires crew { IsCrew turns }
    requires own { IsOf turns staff.first.seat }
    requires idle { HoldsNothing staff.first.seat }
    requires splits { splits_of staff.first.seat + 1 ≡ PASSES }
    requires count { hiring.now.workers ≤ MOST_WORKERS }
    requires workers { (staff.workers.items ≡ []) × (hiring.now.workers ≤ vec_capacity staff.workers) }
    requires passes { (passes.items ≡ []) × (hiring.now.workers < vec_capacity passes) }
    ensures tables { result.tables ≡ tables_of turns }
    ensures come { HasCome (fixed_of (tables_of turns)) (opening_of turns) (kept result.acts.items) result.shares.items }
{
    hire(hiring.alloc, &turns, &mut staff, hiring.workers);
    work_together(hiring, &turns, &mut staff.workers);
    let passes = passes_of(&turns, staff, passes);
    closed(hiring.rt, hiring.alloc, turns, passes)
}

/// Runs a crew of as many workers as it is to have on the parts of a text, which stand as it begins, until no event is allowed, or a journal's
/// device or the output failed, or there was no memory; which of these, the shares tell (`fault_of`), and a core of their parts.
/// Those of the acts that happened to the machine are a run of it. Where there is no memory to begin with, all is given back;
/// where there is memory for fewer workers, these run.
pub fn run_crew<
    R: Threads + Wait + Sync,
    D: LogDev + Drop + Send,
    O: Sink + Drop + Send,
    G: Gate + Sync,
>(
    hiring: &Hiring<R, G>,
    tables: Tables,
    shares: Vec<Share<D, O>>,
) -> Result<Ending<D, O>, (Tables, Vec<Share<D, O>>, Memory)>
    requires tables { AreTables tables }
    requires begins { AreFirstShares (fixed_of tables) shares.items }
    requires count { hiring.now.workers ≤ MOST_WORKERS }
    ensures tables { IfOk result (λ end. end.tables ≡ tables) }
    // The events are a run, the journals got the groups of its Syncs, and the output the lines of its replies.
    ensures come { IfOk result (λ end. HasCome (fixed_of tables) shares.items (kept end.acts.items) end.shares.items) }
    ensures err { IfErr result (λ back. (back.0 ≡ tables) × (back.1.items ≡ shares.items)) }
{
    let (Ok(workers), Ok(passes)) = (
        Vec::with_capacity(hiring.alloc, hiring.workers),
        Vec::with_capacity(hiring.alloc, hiring.workers + 1),
    ) else {
        return Err((tables, shares, Memory));
    };
    match Turns::new(hiring.alloc, tables, shares) {
        Ok((turns, first)) => Ok(run_table(hiring, turns, Staff { first, workers }, passes)),
        Err(back) => Err(back),
    }
}
