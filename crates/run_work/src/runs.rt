//! A run of a work by a host, one thread or several workers: it prints its report, or its summary alone.
ghost use Rattle.std.specs.Prelude.{◌≡◌, ◌≤◌, List, [], vec_len};
ghost use Rattle.snap_work.specs.declared.limits.TheConstants.{MOST_WORKERS};
ghost use Rattle.run_opening.specs.Opens.{MayOpen};
ghost use Rattle.run_recovery.specs.Schedules.{seeded, free};
ghost use Rattle.run_work.specs.Calls.{ran_by};
ghost use Rattle.run_work.specs.Printings.{printing_of};
ghost use Rattle.run_work.specs.Runs.{reporting, summing, IsAnswerOf, IsOfLogs, OutStoodOf};
ghost use Rattle.snap_outside.specs.Causes.{EndsAtFault};
ghost use Rattle.run_opening.specs.snap_recover.declared.openings.Opening.{Opening};
ghost use Rattle.snap_work.specs.Kept.{KeepsLimits};
ghost use Rattle.snap_work.specs.Works.{work_of};
ghost use Rattle.run_opening.specs.txn_records.declared.records.Record.{Record};

use crate::calls::Call;
use crate::endings::end_run;
use crate::hosts::{HostRan, crew_unheard, host_crew, host_work};
use crate::printings::Told;
use crate::replies::marks_are_replies;
use crew_host::MOST_WORKERS;
use run_recovery::runs_stand;
use snap_core::{Control, Event};
use snap_outside::{Gate, LogDev, Sink};
use snap_report::Status;
use snap_work::Work;
use std::alloc::Global;
use std::sync::Wait;
use std::thread::Threads;

/// What a run of a work ends with.
pub struct HasRun<D: LogDev, O: Sink, T: Sink> {
    /// The events that were taken, in their order. None where no run began.
    pub kept: Vec<Event>,
    /// How the call ends, with its cause.
    pub status: Status,
    /// The devices, the output and the trace that the call was handed, as it leaves them.
    pub call: Call<D, O, T>,
}

/// Runs a work on the machine, on one thread, by the schedule of the seed. All four devices of the call are
/// opened, and the records in front of them tell which hold its logs. A report prints each reply as it comes, and at the end the actors and the end line; a summary prints
/// its line alone. At last a line of each event that was taken is written to the trace.
///
/// The status is `Done`, or tells what stopped the call: `Logs`, a log is refused and no run began; `LogFault`, a log's device failed
/// before the run or in it; `OutFault`, the output failed; `TraceFault`, all was done but the trace; `Memory`, there was no memory,
/// before the run or in it. With each of them it is stated what was printed and traced, and what is left on the logs recovers. A work
/// has a limited number of events, so it returns.
pub fn run_work<D: LogDev, O: Sink, T: Sink>(
    alloc: Global,
    work: Work,
    told: Told,
    seed: u64,
    call: Call<D, O, T>,
) -> HasRun<D, O, T>
    requires four { vec_len call.logs ≡ 4 }
    requires limits { KeepsLimits (work_of work) }
    ensures answer { IsAnswerOf (printing_of told) (ran_by (work_of work) (seeded seed) call result.call result.kept.items) result.status }
    // Where no event is kept the trace gets no call.
    ensures untouched { result.kept.items ≡ [] → result.call.trace ≡ call.trace }
    // The output and the trace get no call behind one that failed.
    ensures out_once { EndsAtFault (OutStoodOf (printing_of told) result.status) call.output.faults call.output.late result.call.output.faults result.call.output.late }
    ensures trace_once { EndsAtFault (result.status ≡ Status.Done) call.tracing.faults call.tracing.late result.call.tracing.faults result.call.tracing.late }
    // Where the logs hold records on which a run begins, and none fails, it does not end for a log.
    ensures opens { (records : List (List Record)) (o : Opening)
        → MayOpen (work_of work).logs (work_of work).states call.devices result.call.devices records o → ¬ IsOfLogs result.status }
    ensures four { vec_len result.call.logs ≡ 4 }
{
    runs_stand(&work.program);
    marks_are_replies::<Control>();
    let count = work.txs.len() as u32;
    let Call { logs, out, trace } = call;
    let HostRan {
        hosted,
        devices,
        out,
    } = host_work(alloc, work, told, seed, logs, out);
    let mut out = out;
    let mut trace = trace;
    let (kept, status) = end_run(alloc, told, count, hosted, &mut out, &mut trace);
    HasRun {
        kept,
        status,
        call: Call {
            logs: devices,
            out,
            trace,
        },
    }
}

/// Runs a work on the machine by so many workers, each of which takes the events that it comes to and passes the gate before a slice.
/// All four devices of the call are opened, and the records in front of them tell which hold its logs. It prints each reply as it comes, and at the
/// end the actors and the end line. At last a line of each event that was taken is written to the trace.
///
/// The status is `Done`, or tells what stopped the call: `Logs`, a log is refused and no run began; `LogFault`, a log's device failed
/// before the run or in it, and of several that failed in it the one of the log of the least number is named; `OutFault`, the output failed;
/// `TraceFault`, all was done but the trace; `Memory`, there was no memory, before the run or in it. With each of them it is stated
/// what was printed and traced, and what is left on the logs recovers. Whether it returns is not promised.
pub fn crew_work<
    R: Threads + Wait + Sync,
    D: LogDev + Drop + Send,
    O: Sink + Drop + Send,
    T: Sink,
    G: Gate + Sync,
>(
    rt: &R,
    alloc: Global,
    work: Work,
    workers: usize,
    gate: &G,
    call: Call<D, O, T>,
) -> HasRun<D, O, T>
    requires four { vec_len call.logs ≡ 4 }
    requires limits { KeepsLimits (work_of work) }
    requires workers { workers ≤ MOST_WORKERS }
    ensures answer { IsAnswerOf reporting (ran_by (work_of work) free call result.call result.kept.items) result.status }
    // Where no event is kept the trace gets no call.
    ensures untouched { result.kept.items ≡ [] → result.call.trace ≡ call.trace }
    // The output and the trace get no call behind one that failed.
    ensures out_once { EndsAtFault (OutStoodOf reporting result.status) call.output.faults call.output.late result.call.output.faults result.call.output.late }
    ensures trace_once { EndsAtFault (result.status ≡ Status.Done) call.tracing.faults call.tracing.late result.call.tracing.faults result.call.tracing.late }
    // Where the logs hold records on which a run begins, and none fails, it does not end for a log.
    ensures opens { (records : List (List Record)) (o : Opening)
        → MayOpen (work_of work).logs (work_of work).states call.devices result.call.devices records o → ¬ IsOfLogs result.status }
    ensures four { vec_len result.call.logs ≡ 4 }
{
    runs_stand(&work.program);
    marks_are_replies::<Control>();
    let count = work.txs.len() as u32;
    let Call { logs, out, trace } = call;
    let HostRan {
        hosted,
        devices,
        out,
    } = host_crew(rt, alloc, work, workers, gate, logs, out);
    let mut out = out;
    let mut trace = trace;
    let (kept, status) = end_run(alloc, Told::Report, count, hosted, &mut out, &mut trace);
    HasRun {
        kept,
        status,
        call: Call {
            logs: devices,
            out,
            trace,
        },
    }
}

/// Runs a work on the machine by so many workers, each of which takes the events that it comes to and passes the gate before a slice.
/// All four devices of the call are opened, and the records in front of them tell which hold its logs. The replies go nowhere, so the output stays
/// with the caller's thread: where the run has ended the line of its summary is printed, and nothing else. At last a line of each
/// event that was taken is written to the trace.
///
/// The status is `Done`, or tells what stopped the call: `Logs`, a log is refused and no run began; `LogFault`, a log's device failed
/// before the run or in it, and of several that failed in it the one of the log of the least number is named; `OutFault`, the output failed;
/// `TraceFault`, all was done but the trace; `Memory`, there was no memory, before the run or in it. With each of them it is stated
/// what was printed and traced, and what is left on the logs recovers. Whether it returns is not promised.
pub fn crew_summary<
    R: Threads + Wait + Sync,
    D: LogDev + Drop + Send,
    O: Sink,
    T: Sink,
    G: Gate + Sync,
>(
    rt: &R,
    alloc: Global,
    work: Work,
    workers: usize,
    gate: &G,
    call: Call<D, O, T>,
) -> HasRun<D, O, T>
    requires four { vec_len call.logs ≡ 4 }
    requires limits { KeepsLimits (work_of work) }
    requires workers { workers ≤ MOST_WORKERS }
    ensures answer { IsAnswerOf summing (ran_by (work_of work) free call result.call result.kept.items) result.status }
    // Where no event is kept the trace gets no call.
    ensures untouched { result.kept.items ≡ [] → result.call.trace ≡ call.trace }
    // The output and the trace get no call behind one that failed.
    ensures out_once { EndsAtFault (OutStoodOf summing result.status) call.output.faults call.output.late result.call.output.faults result.call.output.late }
    ensures trace_once { EndsAtFault (result.status ≡ Status.Done) call.tracing.faults call.tracing.late result.call.tracing.faults result.call.tracing.late }
    // Where the logs hold records on which a run begins, and none fails, it does not end for a log.
    ensures opens { (records : List (List Record)) (o : Opening)
        → MayOpen (work_of work).logs (work_of work).states call.devices result.call.devices records o → ¬ IsOfLogs result.status }
    ensures four { vec_len result.call.logs ≡ 4 }
{
    runs_stand(&work.program);
    marks_are_replies::<Control>();
    let count = work.txs.len() as u32;
    let Call { logs, out, trace } = call;
    let HostRan {
        hosted,
        devices,
        out,
    } = crew_unheard(rt, alloc, work, workers, gate, logs, out);
    let mut out = out;
    let mut trace = trace;
    let (kept, status) = end_run(alloc, Told::Summary, count, hosted, &mut out, &mut trace);
    HasRun {
        kept,
        status,
        call: Call {
            logs: devices,
            out,
            trace,
        },
    }
}
