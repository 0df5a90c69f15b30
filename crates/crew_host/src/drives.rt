//! A core with its logs and its output, run by several workers.
ghost use Rattle.std.specs.Prelude.{◌≡◌, ◌+◌, ◌<◌, ◌≤◌, ◌^◌, List, [], None, Some, false, length, map};
ghost use Rattle.std.specs.List.{AllByRecursion};
ghost use Rattle.core_events.specs.Meant.{event_meant};
ghost use Rattle.crew_ends.specs.Ends.{AreBeside, AreDue};
ghost use Rattle.crew_ends.specs.Rooms.{IsRoomFor};
ghost use Rattle.crew_host.specs.Drives.{IsCrewStop};
ghost use Rattle.crew_host.specs.Stops.{IsStopBy};
ghost use Rattle.crew_parts.specs.Crews.{AreFirstShares, HasCome, OutputIs, kept};
ghost use Rattle.crew_parts.specs.Shares.{ShareState, output_seen};
ghost use Rattle.gate_log.specs.State.{is_log_shut};
ghost use Rattle.run_effects.specs.Driven.{AreDriven};
ghost use Rattle.snap_hand.specs.snap_work.declared.limits.TheConstants.{MOST_WORKERS};
ghost use Rattle.protocol.specs.Events as machine;
ghost use Rattle.run_effects.specs.declared.stops.Stop.TheVariants as stop;
ghost use Rattle.snap_core.specs.Cores.{IsAt};
ghost use Rattle.snap_hand.specs.Tables.{AreTables, fixed_of};

use crate::happened::happened;
use core_events::Event;
use crew_ends::{Beginning, Ended, Room, core_of, crews_drive, shares_of};
use crew_parts::{Share, acts_are_runs};
use crew_workers::{Ending, Fault, Hiring, fault_of, run_crew};
use gate_log::{FARTHEST_END, Log};
use run_effects::{Stop, appends_drive};
use snap_base::Memory;
use snap_core::Core;
use snap_hand::Tables;
use snap_outside::{Gate, LogDev, Sink};
use std::alloc::Global;
use std::sync::Wait;
use std::thread::Threads;

/// What a crew made of a core, its logs and its output: why it ended, and the events that it took, in the order of their numbers.
pub struct CrewEnd<D: LogDev, O: Sink> {
    /// The core, to which the events have come.
    pub core: Core,
    /// The logs, in the order of their numbers. A log whose device failed is shut.
    pub logs: Vec<Log<D>>,
    /// The output.
    pub out: O,
    /// Whether the output failed at the line of a reply.
    pub failed: bool,
    /// Why it ended: of several faults the least log's, and a log's before the output's.
    pub stop: Stop,
    /// The events that happened, in the order of their numbers.
    pub kept: Vec<Event>,
}

/// So many workers take the events of the core, each where it finds some, until none is allowed. Before a Sync the records that
/// wait are appended to the log's device as one group, and before a reply its line is printed; an event is kept once that is
/// done. Where the device of a log or the output fails, or there is no memory, the workers end. The core is a new one, and the
/// logs, as many as the text says and of format 2, take appends. Whether it returns is not promised.
pub fn drive_crew<
    R: Threads + Wait + Sync,
    D: LogDev + Drop + Send,
    O: Sink + Drop + Send,
    G: Gate + Sync,
>(
    rt: &R,
    alloc: Global,
    core: Core,
    logs: Vec<Log<D>>,
    out: O,
    gate: &G,
    workers: usize,
) -> CrewEnd<D, O>
    requires new { IsAt core [] }
    requires logs { length logs.items ≡ core.tables.work.logs }
    requires open { AllByRecursion (λ l. l.shut ≡ false) logs.items }
    requires format { AllByRecursion (λ l. l.format ≡ 2) logs.items }
    requires ends { AllByRecursion (λ l. l.end ≤ FARTHEST_END + 2 ^ 32) logs.items }
    requires workers { workers ≤ MOST_WORKERS }
    // The events are a run of the machine, to which the core has come.
    ensures core { IsAt result.core (map event_meant result.kept.items) }
    ensures tables { result.core.tables ≡ core.tables }
    ensures stop { IsCrewStop (fixed_of core.tables) (map event_meant result.kept.items) result.logs.items result.failed result.stop }
    // The logs got the groups of its Syncs, and each that is shut a front of one more.
    ensures logs { AreDriven (fixed_of core.tables) (map event_meant result.kept.items) (is_log_shut result.logs.items) logs.items result.logs.items }
    ensures due { AreDue (fixed_of core.tables) (map event_meant result.kept.items) result.logs.items }
    // The output got the lines of its replies, and where it failed a front of one more.
    ensures printed { OutputIs (fixed_of core.tables) (map event_meant result.kept.items)
        (Some (output_seen O.taken O.faults O.late false out)) (Some (output_seen O.taken O.faults O.late result.failed result.out)) }
{
    crews_drive();
    appends_drive();
    match shares_of(alloc, core, logs, out) {
        Ok(begun) => {
            let Beginning {
                tables,
                shares,
                room,
            } = begun;
            let ending = run_or_stay(rt, alloc, tables, shares, gate, workers);
            ended(rt, alloc, ending, room)
        }
        Err((core, logs, out, Memory)) => not_begun(alloc, core, logs, out),
    }
}

/// What a crew made of the shares; where there was no memory for one, nothing.
fn run_or_stay<
    R: Threads + Wait + Sync,
    D: LogDev + Drop + Send,
    O: Sink + Drop + Send,
    G: Gate + Sync,
>(
    rt: &R,
    alloc: Global,
    tables: Tables,
    shares: Vec<Share<D, O>>,
    gate: &G,
    workers: usize,
) -> Ending<D, O>
    requires tables { AreTables tables }
    requires begins { AreFirstShares (fixed_of tables) shares.items }
    requires workers { workers ≤ MOST_WORKERS }
    ensures tables { result.tables ≡ tables }
    ensures come { HasCome (fixed_of tables) shares.items (kept result.acts.items) result.shares.items }
{
    acts_are_runs(&tables);
    let hiring = Hiring {
        rt,
        alloc,
        gate,
        workers,
    };
    match run_crew(&hiring, tables, shares) {
        Ok(ending) => ending,
        Err((tables, shares, Memory)) => Ending {
            tables,
            shares,
            acts: Vec::new(alloc),
        },
    }
}

/// There was no memory for a beginning: nothing is done.
fn not_begun<D: LogDev, O: Sink>(
    alloc: Global,
    core: Core,
    logs: Vec<Log<D>>,
    out: O,
) -> CrewEnd<D, O>
    requires new { IsAt core [] }
    requires open { AllByRecursion (λ l. l.shut ≡ false) logs.items }
    ensures core { result.core ≡ core }
    ensures kept { result.kept.items ≡ [] }
    ensures logs { result.logs.items ≡ logs.items }
    ensures out { (result.out ≡ out) × (result.failed ≡ false) }
    ensures stop { result.stop ≡ stop.Memory }
{
    CrewEnd {
        core,
        logs,
        out,
        failed: false,
        stop: Stop::Memory,
        kept: Vec::new(alloc),
    }
}

/// What the shares become to which a crew has come, and why it ended.
fn ended<R: Wait, D: LogDev + Drop, O: Sink + Drop>(
    rt: &R,
    alloc: Global,
    ending: Ending<D, O>,
    room: Room<D>,
) -> CrewEnd<D, O>
    requires tables { AreTables ending.tables }
    requires come { (start : List ShareState) × (AreFirstShares (fixed_of ending.tables) start × HasCome (fixed_of ending.tables) start (kept ending.acts.items) ending.shares.items) }
    requires room { IsRoomFor (fixed_of ending.tables) room }
    ensures tables { result.core.tables ≡ ending.tables }
    ensures kept { map event_meant result.kept.items ≡ kept ending.acts.items }
    ensures core { IsAt result.core (kept ending.acts.items) }
    ensures beside { AreBeside result.logs.items (output_seen O.taken O.faults O.late result.failed result.out) ending.shares.items }
    ensures many { length result.logs.items ≡ ending.tables.work.logs }
    ensures stop { IsCrewStop (fixed_of ending.tables) (kept ending.acts.items) result.logs.items result.failed result.stop }
{
    let Ending {
        tables,
        shares,
        acts,
    } = ending;
    let kept = happened(rt, alloc, acts.as_slice());
    let fault = fault_of(shares.as_slice(), tables.work.logs);
    let Ended {
        core,
        logs,
        out,
        broken,
    } = core_of(tables, shares, room);
    let stop = stop_of(alloc, &core, fault);
    CrewEnd {
        core,
        logs,
        out,
        failed: broken,
        stop,
        kept,
    }
}

/// Why a crew ended that left this core, and where this failed.
fn stop_of(alloc: Global, core: &Core, fault: Option<Fault>) -> Stop
    ensures { (es : List machine.Event) → IsAt core.now es → IsStopBy (fixed_of core.now.tables) es fault result }
{
    match fault {
        Some(Fault::Log(l)) => Stop::LogFault(l),
        Some(Fault::Output) => Stop::OutFault,
        None => quiet_or_memory(alloc, core),
    }
}

/// Whether no event is allowed, where nothing failed. Else there was no memory, for a worker or for this.
fn quiet_or_memory(alloc: Global, core: &Core) -> Stop
    ensures { (es : List machine.Event) → IsAt core.now es → IsStopBy (fixed_of core.now.tables) es None result }
{
    match core.enabled(alloc) {
        Ok(list) if list.count() == 0 => Stop::Quiet,
        _ => Stop::Memory,
    }
}
