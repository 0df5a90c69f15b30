//! The hosts on the logs of a work: one thread, or several workers. The replies go to the output, or nowhere.
ghost use Rattle.std.specs.Prelude.{◌≡◌, ◌≢◌, ◌+◌, ◌≤◌, ◌^◌, List, length, vec_len, true, false};
ghost use Rattle.std.specs.List.{AllByRecursion};
ghost use Rattle.snap_work.specs.declared.limits.TheConstants.{MOST_WORKERS};
ghost use Rattle.run_opening.specs.gate_log.declared.limits.TheConstants.{FARTHEST_END};
ghost use Rattle.run_opening.specs.log_opening.Devices.{Device, devices_of};
ghost use Rattle.snap_core.specs.machine_text.Texts.{MayBegin};
ghost use Rattle.run_recovery.specs.Schedules.{Schedule, seeded, free};
ghost use Rattle.run_work.specs.Hosts.{HasHosted, HasStood, IsHostedOn};
ghost use Rattle.run_work.specs.Printings.{printing_of};
ghost use Rattle.run_work.specs.Runs.{reporting, summing};
ghost use Rattle.run_work.specs.Writings.{Writing, IsSilent, writing_of};
ghost use Rattle.snap_outside.specs.Causes.{Rose, EndsAtFault};
ghost use Rattle.run_opening.specs.snap_recover.declared.openings.Opening as begun;
ghost use Rattle.snap_work.specs.Kept.{KeepsLimits};
ghost use Rattle.snap_work.specs.Works as works;
ghost use Rattle.snap_work.specs.Works.{work_of};

use crate::printings::Told;
use crew_host::{CrewEnd, MOST_WORKERS, drive_crew};
use run_opening::{Begun, FARTHEST_END, Log, LogsNo, Opening, close, open_run};
use snap_core::{Core, Event, Tables, works_are_texts};
use snap_outside::{Gate, LogDev, NullSink, Sink};
use snap_work::Work;
use solo_host::{Driven, Stop, drive};
use std::alloc::Global;
use std::sync::Wait;
use std::thread::Threads;

/// What a host made of a work: how it ended, the events that it took, and the core to which these have come. Where there is no
/// memory for a core it has taken none.
pub(crate) struct Hosted {
    pub core: Option<Core>,
    pub stop: Stop,
    pub kept: Vec<Event>,
    /// Whether the output failed at the line of a reply.
    pub failed: bool,
    /// The device of log 0. Those of the other logs follow it.
    pub head: u8,
}

/// What a host leaves: what it made of a work, or why no run began; and the devices and the output that it was handed.
pub(crate) struct HostRan<D, O> {
    pub hosted: Result<Hosted, LogsNo>,
    pub devices: Vec<D>,
    pub out: O,
}

/// What a host leaves of open logs.
struct OnLogs<D: LogDev, O> {
    hosted: Hosted,
    logs: Vec<Log<D>>,
    out: O,
}

/// Opens the logs of a work, takes its events by the schedule of the seed, and closes the logs. They lie on some of these
/// devices, as the records on them tell. The replies are printed, or where the summary is asked for they go nowhere. An error tells
/// why no run began.
pub(crate) fn host_work<D: LogDev, O: Sink>(
    alloc: Global,
    work: Work,
    told: Told,
    seed: u64,
    devices: Vec<D>,
    out: O,
) -> HostRan<D, O>
    requires four { vec_len devices ≡ 4 }
    requires limits { KeepsLimits (work_of work) }
    ensures left { HasHosted (printing_of told) (work_of work) (seeded seed) (devices_of D.told D.faults devices.items)
        (devices_of D.told D.faults result.devices.items) (writing_of O.Sink out result.out) result.hosted }
    ensures once { EndsAtFault (HasStood result.hosted) (O.faults out) (O.late out) (O.faults result.out) (O.late result.out) }
    ensures four { vec_len result.devices ≡ 4 }
{
    match told {
        Told::Report => host_solo(alloc, work, seed, devices, out),
        Told::Summary => unheard(host_solo(alloc, work, seed, devices, NullSink::new()), out),
    }
}

/// Opens the logs of a work, takes its events by the schedule of the seed, and closes the logs. They lie on some of these
/// devices, as the records on them tell. The replies are printed. An error tells why no run began.
fn host_solo<D: LogDev, O: Sink>(
    alloc: Global,
    work: Work,
    seed: u64,
    devices: Vec<D>,
    out: O,
) -> HostRan<D, O>
    requires four { vec_len devices ≡ 4 }
    requires limits { KeepsLimits (work_of work) }
    ensures left { HasHosted reporting (work_of work) (seeded seed) (devices_of D.told D.faults devices.items)
        (devices_of D.told D.faults result.devices.items) (writing_of O.Sink out result.out) result.hosted }
    ensures once { EndsAtFault (HasStood result.hosted) (O.faults out) (O.late out) (O.faults result.out) (O.late result.out) }
    ensures four { vec_len result.devices ≡ 4 }
{
    let mut devices = devices;
    match open_run(alloc, &mut devices, work.logs, work.states.as_slice()) {
        Ok(opened) => {
            let Begun {
                logs,
                opening,
                head,
            } = opened;
            let OnLogs { hosted, logs, out } = host_on_logs(
                alloc, work, opening, head, seed, logs, out,
            );
            close(logs, &mut devices, head as usize);
            HostRan {
                hosted: Ok(hosted),
                devices,
                out,
            }
        }
        Err(no) => HostRan {
            hosted: Err(no),
            devices,
            out,
        },
    }
}

/// Takes the events of a work on its open logs, from the opening with which it begins, by the schedule of the seed; log 0 lies on the
/// head. The replies are printed.
fn host_on_logs<D: LogDev, O: Sink>(
    alloc: Global,
    work: Work,
    opening: Opening,
    head: u8,
    seed: u64,
    logs: Vec<Log<D>>,
    out: O,
) -> OnLogs<D, O>
    requires limits { KeepsLimits (work_of work) }
    requires begins { MayBegin (work_of work) opening }
    requires logs { length logs.items ≡ work.logs }
    requires open { AllByRecursion (λ l. l.shut ≡ false) logs.items }
    requires format { AllByRecursion (λ l. l.format ≡ 2) logs.items }
    requires ends { AllByRecursion (λ l. l.end ≤ FARTHEST_END + 2 ^ 32) logs.items }
    ensures hosted { IsHostedOn reporting (work_of work) (seeded seed) opening logs.items result.logs.items (writing_of O.Sink out result.out) result.hosted }
    ensures once { EndsAtFault (result.hosted.failed ≡ false) (O.faults out) (O.late out) (O.faults result.out) (O.late result.out) }
    ensures as_many { length result.logs.items ≡ length logs.items }
    ensures head { result.hosted.head ≡ head }
{
    works_are_texts();
    let Ok(mut core) = Core::open(alloc, Tables { work, opening }) else {
        return without_core(alloc, head, logs, out);
    };
    let mut logs = logs;
    let mut out = out;
    let Driven { stop, kept } = drive(alloc, &mut core, &mut logs, &mut out, seed);
    let failed = is_of_output(&stop);
    OnLogs {
        hosted: Hosted {
            core: Some(core),
            stop,
            kept,
            failed,
            head,
        },
        logs,
        out,
    }
}

/// What a host leaves of open logs where there is no memory for a core: it has taken no event, and neither the logs nor the output
/// got a call.
fn without_core<D: LogDev, O: Sink>(
    alloc: Global,
    head: u8,
    logs: Vec<Log<D>>,
    out: O,
) -> OnLogs<D, O>
    ensures hosted { (w : works.Work) (schedule : Schedule) (o : begun.Opening) → AllByRecursion (λ l. l.shut ≡ false) logs.items
        → IsHostedOn reporting w schedule o logs.items result.logs.items (writing_of O.Sink out result.out) result.hosted }
    ensures once { EndsAtFault (result.hosted.failed ≡ false) (O.faults out) (O.late out) (O.faults result.out) (O.late result.out) }
    ensures as_many { length result.logs.items ≡ length logs.items }
    ensures head { result.hosted.head ≡ head }
{
    OnLogs {
        hosted: Hosted {
            core: None,
            stop: Stop::Memory,
            kept: Vec::new(alloc),
            failed: false,
            head,
        },
        logs,
        out,
    }
}

/// Whether one thread stopped for the output.
fn is_of_output(by: &Stop) -> bool
    ensures failed { by.now ≡ Stop.OutFault → result ≡ true }
    ensures stood { by.now ≢ Stop.OutFault → result ≡ false }
{
    match by {
        Stop::OutFault => true,
        _ => false,
    }
}

/// Opens the logs of a work, lets so many workers take its events, and closes the logs. They lie on some of these
/// devices, as the records on them tell. The replies are printed. An error tells why no run began. Whether it returns is not promised.
pub(crate) fn host_crew<
    R: Threads + Wait + Sync,
    D: LogDev + Drop + Send,
    O: Sink + Drop + Send,
    G: Gate + Sync,
>(
    rt: &R,
    alloc: Global,
    work: Work,
    workers: usize,
    gate: &G,
    devices: Vec<D>,
    out: O,
) -> HostRan<D, O>
    requires four { vec_len devices ≡ 4 }
    requires limits { KeepsLimits (work_of work) }
    requires workers { workers ≤ MOST_WORKERS }
    ensures left { HasHosted reporting (work_of work) free (devices_of D.told D.faults devices.items)
        (devices_of D.told D.faults result.devices.items) (writing_of O.Sink out result.out) result.hosted }
    ensures once { EndsAtFault (HasStood result.hosted) (O.faults out) (O.late out) (O.faults result.out) (O.late result.out) }
    ensures four { vec_len result.devices ≡ 4 }
{
    let mut devices = devices;
    match open_run(alloc, &mut devices, work.logs, work.states.as_slice()) {
        Ok(opened) => {
            let Begun {
                logs,
                opening,
                head,
            } = opened;
            let OnLogs { hosted, logs, out } = crew_on_logs(
                rt, alloc, work, opening, head, workers, gate, logs, out,
            );
            close(logs, &mut devices, head as usize);
            HostRan {
                hosted: Ok(hosted),
                devices,
                out,
            }
        }
        Err(no) => HostRan {
            hosted: Err(no),
            devices,
            out,
        },
    }
}

/// Lets so many workers take the events of a work on its open logs, from the opening with which it begins; log 0 lies on the
/// head. The replies are printed.
fn crew_on_logs<
    R: Threads + Wait + Sync,
    D: LogDev + Drop + Send,
    O: Sink + Drop + Send,
    G: Gate + Sync,
>(
    rt: &R,
    alloc: Global,
    work: Work,
    opening: Opening,
    head: u8,
    workers: usize,
    gate: &G,
    logs: Vec<Log<D>>,
    out: O,
) -> OnLogs<D, O>
    requires limits { KeepsLimits (work_of work) }
    requires begins { MayBegin (work_of work) opening }
    requires workers { workers ≤ MOST_WORKERS }
    requires logs { length logs.items ≡ work.logs }
    requires open { AllByRecursion (λ l. l.shut ≡ false) logs.items }
    requires format { AllByRecursion (λ l. l.format ≡ 2) logs.items }
    requires ends { AllByRecursion (λ l. l.end ≤ FARTHEST_END + 2 ^ 32) logs.items }
    ensures hosted { IsHostedOn reporting (work_of work) free opening logs.items result.logs.items (writing_of O.Sink out result.out) result.hosted }
    ensures once { EndsAtFault (result.hosted.failed ≡ false) (O.faults out) (O.late out) (O.faults result.out) (O.late result.out) }
    ensures as_many { length result.logs.items ≡ length logs.items }
    ensures head { result.hosted.head ≡ head }
{
    works_are_texts();
    let Ok(core) = Core::open(alloc, Tables { work, opening }) else {
        return without_core(alloc, head, logs, out);
    };
    let CrewEnd {
        core,
        logs,
        out,
        failed,
        stop,
        kept,
    } = drive_crew(rt, alloc, core, logs, out, gate, workers);
    OnLogs {
        hosted: Hosted {
            core: Some(core),
            stop,
            kept,
            failed,
            head,
        },
        logs,
        out,
    }
}

/// Opens the logs of a work, lets so many workers take its events, and closes the logs. They lie on some of these
/// devices, as the records on them tell. The replies go nowhere, and the output gets no call. An error tells why no run began. Whether it returns
/// is not promised.
pub(crate) fn crew_unheard<
    R: Threads + Wait + Sync,
    D: LogDev + Drop + Send,
    O: Sink,
    G: Gate + Sync,
>(
    rt: &R,
    alloc: Global,
    work: Work,
    workers: usize,
    gate: &G,
    devices: Vec<D>,
    out: O,
) -> HostRan<D, O>
    requires four { vec_len devices ≡ 4 }
    requires limits { KeepsLimits (work_of work) }
    requires workers { workers ≤ MOST_WORKERS }
    ensures left { HasHosted summing (work_of work) free (devices_of D.told D.faults devices.items)
        (devices_of D.told D.faults result.devices.items) (writing_of O.Sink out result.out) result.hosted }
    ensures once { EndsAtFault (HasStood result.hosted) (O.faults out) (O.late out) (O.faults result.out) (O.late result.out) }
    ensures four { vec_len result.devices ≡ 4 }
{
    let nowhere = NullSink::new();
    unheard(
        host_crew(rt, alloc, work, workers, gate, devices, nowhere),
        out,
    )
}

/// What a host left whose replies went nowhere, with the output in their place: it got no call.
fn unheard<D: LogDev, O: Sink>(ran: HostRan<D, NullSink>, out: O) -> HostRan<D, O>
    ensures left { (w : works.Work) (schedule : Schedule) (before : List Device) (replies : Writing) → ¬ Rose replies.faults_before replies.faults_after
        → HasHosted reporting w schedule before (devices_of D.told D.faults ran.devices.items) replies ran.hosted
        → HasHosted summing w schedule before (devices_of D.told D.faults result.devices.items) (writing_of O.Sink out result.out) result.hosted }
    ensures once { EndsAtFault (HasStood result.hosted) (O.faults out) (O.late out) (O.faults result.out) (O.late result.out) }
    ensures as_many { vec_len result.devices ≡ vec_len ran.devices }
{
    let HostRan {
        hosted,
        devices,
        out: _nowhere,
    } = ran;
    HostRan {
        hosted: summed(hosted),
        devices,
        out,
    }
}

/// What a host made of a work whose replies went where nothing fails, as a run that prints its summary alone: the output has not
/// failed.
fn summed(hosted: Result<Hosted, LogsNo>) -> Result<Hosted, LogsNo>
    ensures left { (w : works.Work) (schedule : Schedule) (before after : List Device) (replies out : Writing) → ¬ Rose replies.faults_before replies.faults_after → IsSilent out
        → HasHosted reporting w schedule before after replies hosted → HasHosted summing w schedule before after out result }
    ensures stood { HasStood result }
{
    match hosted {
        Ok(hosted) => {
            let Hosted {
                core,
                stop,
                kept,
                failed: _failed,
                head,
            } = hosted;
            Ok(Hosted {
                core,
                stop,
                kept,
                failed: false,
                head,
            })
        }
        Err(no) => Err(no),
    }
}
