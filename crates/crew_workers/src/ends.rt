//! What a crew ends with.
ghost use Rattle.std.specs.Prelude.{◌≡◌, ◌+◌, All, IfErr, IfOk, flat_map, sum_by, vec_len};
ghost use Rattle.crew_grip.specs.Grips.{IsCrew};
ghost use Rattle.crew_workers.specs.Ends.{IsFault, output_has_failed};
ghost use Rattle.crew_parts.specs.Crews.{HasCome, kept};
ghost use Rattle.crew_parts.specs.Devices.{is_shut_at};
ghost use Rattle.snap_hand.specs.Tables.{fixed_of};
ghost use Rattle.turn_table.specs.Places.{Records};
ghost use Rattle.turn_table.specs.Words.{HoldsNothing, IsOf, opening_of, splits_of, tables_of};
ghost use Rattle.turn_table.specs.declared.limits.TheConstants.{PASSES};

use core_events::{DESK, part_of_log};
use crew_parts::{Act, Share, acts_are_runs};
use snap_base::Memory;
use snap_hand::Tables;
use snap_outside::{LogDev, Sink};
use std::alloc::Global;
use turn_table::{Pass, Turns};

/// What a crew ended with: the tables, the shares in the order of their numbers, and what was done, in the order in which it
/// was recorded.
#[derive(Drop)]
pub struct Ending<D: LogDev, O: Sink> {
    pub tables: Tables,
    pub shares: Vec<Share<D, O>>,
    pub acts: Vec<Act>,
}

/// Takes the table apart, once all passes are handed in and hold nothing. Those of the acts that happened to the machine are a
/// run of it, whose state the shares show; the journals got the groups of its Syncs and the output the lines of its replies.
/// Want of memory gives all back.
pub fn end_crew<D: LogDev + Drop, O: Sink + Drop>(
    alloc: Global,
    turns: Turns<Share<D, O>>,
    passes: Vec<Pass<Share<D, O>>>,
) -> Result<Ending<D, O>, (Turns<Share<D, O>>, Vec<Pass<Share<D, O>>>, Memory)>
    requires crew { IsCrew turns }
    requires own { All (λ pass. IsOf turns pass.seat) passes.items }
    requires idle { All (λ pass. HoldsNothing pass.seat) passes.items }
    requires all { vec_len passes + sum_by (λ pass. splits_of pass.seat) passes.items ≡ PASSES }
    ensures tables { IfOk result (λ end. end.tables ≡ tables_of turns) }
    ensures come { IfOk result (λ end. HasCome (fixed_of (tables_of turns)) (opening_of turns) (kept end.acts.items) end.shares.items) }
    ensures entries { IfOk result (λ end. Records end.acts.items (flat_map (λ pass. pass.entries.items) passes.items)) }
    ensures err { IfErr result (λ back. (back.0 ≡ turns) × (back.1.items ≡ passes.items)) }
{
    acts_are_runs(turns.tables());
    match turns.close(alloc, passes) {
        Ok((tables, shares, acts)) => Ok(Ending {
            tables,
            shares,
            acts,
        }),
        Err(back) => Err(back),
    }
}

/// What failed while a crew ran.
#[derive(Clone, Copy, Debug, PartialEq, Eq)]
pub enum Fault {
    /// The device of this log, at an append. The log is shut.
    Log(u8),
    /// The output, at the line of a reply.
    Output,
}

/// Whether the journal of a log is shut.
fn is_shut_at<D: LogDev, O: Sink>(shares: &[Share<D, O>], l: u8) -> bool
    ensures { result ≡ is_shut_at shares.now l }
{
    match shares.get(part_of_log(l)) {
        Some(share) => share.beside().is_shut(),
        None => false,
    }
}

/// Whether the output has failed.
fn has_failed<D: LogDev, O: Sink>(shares: &[Share<D, O>]) -> bool
    ensures { result ≡ output_has_failed shares.now }
{
    match shares.get(DESK) {
        Some(share) => share.beside().has_failed(),
        None => false,
    }
}

/// What failed, as the shares show it that a crew with so many logs ended with: the first log whose journal is shut, or else the
/// output. So it is told by all that happened, and not by what one worker saw.
pub fn fault_of<D: LogDev, O: Sink>(shares: &[Share<D, O>], logs: u8) -> Option<Fault>
    ensures { IsFault logs shares.now result }
{
    for l in 0..logs {
        if is_shut_at(shares, l) {
            return Some(Fault::Log(l));
        }
    }
    if has_failed(shares) {
        Some(Fault::Output)
    } else {
        None
    }
}
