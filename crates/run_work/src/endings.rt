//! How a call ends: what is printed behind the replies, the trace, and the status.
ghost use Rattle.std.specs.Prelude.{◌≡◌, ◌≢◌, ◌+◌, ◌<◌, ◌≤◌, ℕ, [], map, true, IfSome, IfOk, IsErrOf, OnOk, OnErr};
ghost use Rattle.snap_core.specs.aml_slice.Controls.{Rest};
ghost use Rattle.snap_core.specs.core_events.Meant.{event_meant};
ghost use Rattle.protocol.specs.Fixed.{Fixed};
ghost use Rattle.run_work.specs.Hosts.{IsCoreOf, StopsSo};
ghost use Rattle.run_work.specs.Printings.{printing_of};
ghost use Rattle.run_work.specs.Runs.{summing, ending_by, TellsUnsure, OutStoodOf};
ghost use Rattle.run_work.specs.Statuses.{logs_status};
ghost use Rattle.run_work.specs.Untraced.{IsEnding, EndsUntraced, IsCallEnd, IsToldUnbegun, IsTraced, by_device};
ghost use Rattle.run_work.specs.Writings.{Writes, WritesFront, writing_of};
ghost use Rattle.snap_core.specs.Cores.{IsAt};
ghost use Rattle.snap_core.specs.snap_hand.Tables.{fixed_of};
ghost use Rattle.snap_outside.specs.Causes.{Rose, EndsAtFault};

use crate::hosts::Hosted;
use crate::printings::Told;
use run_opening::LogsNo;
use run_printing::{WriteNo, write_ending, write_summary, write_trace, write_unsures};
use snap_core::{Core, Event};
use snap_outside::Sink;
use snap_report::Status;
use solo_host::Stop;
use std::alloc::Global;

/// Ends the run that a host left so, of so many transactions: prints what comes behind the replies, or what is printed where no
/// run began, and then writes the trace. The events that were taken come back, and how the call ends.
pub(crate) fn end_run<O: Sink, T: Sink>(
    alloc: Global,
    told: Told,
    count: u32,
    ran: Result<Hosted, LogsNo>,
    out: &mut O,
    trace: &mut T,
) -> (Vec<Event>, Status)
    requires core { IfOk ran (λ h. IfSome h.core (λ c. IsAt c (map event_meant h.kept.items))) }
    requires named { IfOk ran (λ h. (log : ℕ) → h.stop ≡ Stop.LogFault log → h.head + log < 4) }
    ensures ended { IsCallEnd (printing_of told) ran count result.0.items (writing_of O.Sink out.old out.new) (writing_of T.Sink trace.old trace.new) result.1 }
    ensures none { result.0.items ≡ [] → trace.new ≡ trace.old }
    // Where the output failed at the line of a reply it gets no call.
    ensures silent { IfOk ran (λ h. StopsSo (printing_of told) h.failed h.stop → h.failed ≡ true → out.new ≡ out.old) }
    ensures out_once { EndsAtFault (OutStoodOf (printing_of told) result.1) (O.faults out.old) (O.late out.old) (O.faults out.new) (O.late out.new) }
    ensures trace_once { EndsAtFault (result.1 ≡ Status.Done) (T.faults trace.old) (T.late trace.old) (T.faults trace.new) (T.late trace.new) }
{
    let (kept, before) = end_untraced(alloc, told, count, ran, out);
    let status = traced(alloc, kept.as_slice(), before, trace);
    (kept, status)
}

/// Prints what comes behind the replies of the run that a host left so, or what is printed where no run began. The events that
/// were taken come back, and how the call ends if its trace is written.
fn end_untraced<O: Sink>(
    alloc: Global,
    told: Told,
    count: u32,
    ran: Result<Hosted, LogsNo>,
    out: &mut O,
) -> (Vec<Event>, Status)
    requires core { IfOk ran (λ h. IfSome h.core (λ c. IsAt c (map event_meant h.kept.items))) }
    requires named { IfOk ran (λ h. (log : ℕ) → h.stop ≡ Stop.LogFault log → h.head + log < 4) }
    ensures ended { EndsUntraced (printing_of told) ran count result.0.items (writing_of O.Sink out.old out.new) result.1 }
    ensures silent { IfOk ran (λ h. StopsSo (printing_of told) h.failed h.stop → h.failed ≡ true → out.new ≡ out.old) }
    ensures once { EndsAtFault (OutStoodOf (printing_of told) result.1) (O.faults out.old) (O.late out.old) (O.faults out.new) (O.late out.new) }
{
    match ran {
        Ok(hosted) => {
            let Hosted {
                core,
                stop,
                kept,
                failed,
                head,
            } = hosted;
            let stop = on_device(stop, head);
            let status = end_hosted(alloc, told, core, stop, failed, kept.as_slice(), count, out);
            (kept, status)
        }
        Err(no) => (Vec::new(alloc), not_begun(alloc, told, no, count, out)),
    }
}

/// Why a host stopped, with a log that failed named by its device: log 0 lies on the head.
fn on_device(stop: Stop, head: u8) -> Stop
    requires { (log : ℕ) → stop ≡ Stop.LogFault log → head + log < 4 }
    ensures { result ≡ by_device head stop }
{
    match stop {
        Stop::Quiet => Stop::Quiet,
        Stop::LogFault(log) => Stop::LogFault(head + log),
        Stop::OutFault => Stop::OutFault,
        Stop::Memory => Stop::Memory,
    }
}

/// Prints what comes behind the replies of a run that a host ended so, a log that failed named by its device. Where the output failed
/// too, nothing comes behind.
fn end_hosted<O: Sink>(
    alloc: Global,
    told: Told,
    core: Option<Core>,
    stop: Stop,
    failed: bool,
    kept: &[Event],
    count: u32,
    out: &mut O,
) -> Status
    requires { IfSome core (λ c. IsAt c (map event_meant kept.now)) }
    ensures ending { (m : Fixed Rest) → IsCoreOf m (map event_meant kept.now) stop core
        → IsEnding (printing_of told) m (map event_meant kept.now) count stop (writing_of O.Sink out.old out.new) result }
    ensures silent { failed ≡ true → (log : ℕ) → stop ≡ Stop.LogFault log → out.new ≡ out.old }
    ensures later { O.faults out.old ≤ O.faults out.new }
    ensures once { EndsAtFault (OutStoodOf (printing_of told) result) (O.faults out.old) (O.late out.old) (O.faults out.new) (O.late out.new) }
    ensures stopped { stop ≡ Stop.OutFault → out.new ≡ out.old }
{
    match (stop, failed) {
        (Stop::LogFault(log), true) => Status::LogFault { log },
        (stop, _) => end_whole(alloc, told, core, stop, kept, count, out),
    }
}

/// Prints what comes behind the replies of a run, all of which are printed. With no memory for a core nothing comes behind.
fn end_whole<O: Sink>(
    alloc: Global,
    told: Told,
    core: Option<Core>,
    stop: Stop,
    kept: &[Event],
    count: u32,
    out: &mut O,
) -> Status
    requires { IfSome core (λ c. IsAt c (map event_meant kept.now)) }
    ensures ending { (m : Fixed Rest) → IsCoreOf m (map event_meant kept.now) stop core
        → IsEnding (printing_of told) m (map event_meant kept.now) count stop (writing_of O.Sink out.old out.new) result }
    ensures later { O.faults out.old ≤ O.faults out.new }
    ensures once { EndsAtFault (OutStoodOf (printing_of told) result) (O.faults out.old) (O.late out.old) (O.faults out.new) (O.late out.new) }
    ensures stopped { stop ≡ Stop.OutFault → out.new ≡ out.old }
{
    match core {
        Some(core) => tell(alloc, told, &core, stop, kept, count, out),
        None => Status::Memory,
    }
}

/// Prints what comes behind the replies of a run that has come to this core.
fn tell<O: Sink>(
    alloc: Global,
    told: Told,
    core: &Core,
    stop: Stop,
    kept: &[Event],
    count: u32,
    out: &mut O,
) -> Status
    requires { IsAt core.now (map event_meant kept.now) }
    ensures ending { IsEnding (printing_of told) (fixed_of core.now.tables) (map event_meant kept.now) count stop (writing_of O.Sink out.old out.new) result }
    ensures later { O.faults out.old ≤ O.faults out.new }
    ensures once { EndsAtFault (OutStoodOf (printing_of told) result) (O.faults out.old) (O.late out.old) (O.faults out.new) (O.late out.new) }
    ensures stopped { stop ≡ Stop.OutFault → out.new ≡ out.old }
{
    match stop {
        Stop::Quiet => match tell_end(alloc, told, core, kept, out) {
            Ok(()) => Status::Done,
            Err(WriteNo::Fault) => Status::OutFault,
            Err(WriteNo::Memory) => Status::Memory,
        },
        Stop::LogFault(log) => {
            tell_unsures(alloc, told, log, count, kept, out);
            Status::LogFault { log }
        }
        Stop::OutFault => Status::OutFault,
        Stop::Memory => Status::Memory,
    }
}

/// Prints what comes behind the replies of a run that has ended.
fn tell_end<O: Sink>(
    alloc: Global,
    told: Told,
    core: &Core,
    kept: &[Event],
    out: &mut O,
) -> Result<(), WriteNo>
    requires { IsAt core.now (map event_meant kept.now) }
    ensures whole { OnOk result (Writes (writing_of O.Sink out.old out.new) (ending_by (printing_of told) (fixed_of core.now.tables) (map event_meant kept.now))) }
    ensures front { OnErr result (WritesFront (writing_of O.Sink out.old out.new) (ending_by (printing_of told) (fixed_of core.now.tables) (map event_meant kept.now))) }
    ensures fault { IsErrOf result WriteNo.Fault → Rose (O.faults out.old) (O.faults out.new) }
    // The text is made whole before it is written.
    ensures memory { IsErrOf result WriteNo.Memory → out.new ≡ out.old }
    ensures later { O.faults out.old ≤ O.faults out.new }
    ensures once { EndsAtFault (¬ IsErrOf result WriteNo.Fault) (O.faults out.old) (O.late out.old) (O.faults out.new) (O.late out.new) }
{
    match told {
        Told::Report => write_ending(alloc, core, kept, out),
        Told::Summary => write_summary(alloc, core, kept, out),
    }
}

/// Tells those that have no reply that they are unsure, since the log's device failed. Beside a summary nobody is told.
fn tell_unsures<O: Sink>(
    alloc: Global,
    told: Told,
    log: u8,
    count: u32,
    kept: &[Event],
    out: &mut O,
)
    ensures lines { TellsUnsure (printing_of told) log (map event_meant kept.now) count [] (writing_of O.Sink out.old out.new) }
    ensures later { O.faults out.old ≤ O.faults out.new }
    ensures once { EndsAtFault (printing_of told ≡ summing) (O.faults out.old) (O.late out.old) (O.faults out.new) (O.late out.new) }
{
    match told {
        Told::Report => write_unsures(alloc, out, log, count, kept),
        Told::Summary => {}
    }
}

/// How the call ends where no run of so many transactions begins. Where a log's device failed they are told to be unsure.
fn not_begun<O: Sink>(alloc: Global, told: Told, no: LogsNo, count: u32, out: &mut O) -> Status
    ensures status { result ≡ logs_status no }
    ensures told { IsToldUnbegun (printing_of told) count no (writing_of O.Sink out.old out.new) }
    ensures once { EndsAtFault (OutStoodOf (printing_of told) result) (O.faults out.old) (O.late out.old) (O.faults out.new) (O.late out.new) }
{
    if let LogsNo::Device { log } = no {
        tell_unsures(alloc, told, log, count, &[], out);
    }
    status_of(no)
}

/// How a call ends in which no run began: `Logs` with the place and the cause where a log is refused, `LogFault` where a device
/// failed, `Memory` where there was none.
pub fn status_of(no: LogsNo) -> Status
    ensures { result ≡ logs_status no }
{
    match no {
        LogsNo::Refused { log, offset, cause } => Status::Logs { log, offset, cause },
        LogsNo::Device { log } => Status::LogFault { log },
        LogsNo::Memory => Status::Memory,
    }
}

/// Writes the trace of a run that ended so, and tells how the call ends.
pub(crate) fn traced<T: Sink>(
    alloc: Global,
    kept: &[Event],
    status: Status,
    trace: &mut T,
) -> Status
    ensures traced { IsTraced (writing_of T.Sink trace.old trace.new) kept.now status result }
    ensures none { kept.now ≡ [] → trace.new ≡ trace.old }
    ensures once { EndsAtFault (result ≡ Status.Done) (T.faults trace.old) (T.late trace.old) (T.faults trace.new) (T.late trace.new) }
{
    match write_trace(alloc, kept, trace) {
        Ok(()) => status,
        Err(no) => untraced(status, no),
    }
}

/// A trace that is not written changes only that all was done.
fn untraced(status: Status, no: WriteNo) -> Status
    ensures done { status ≡ Status.Done → no ≡ WriteNo.Fault → result ≡ Status.TraceFault }
    ensures memory { status ≡ Status.Done → no ≡ WriteNo.Memory → result ≡ Status.Memory }
    ensures other { status ≢ Status.Done → result ≡ status }
{
    match (status, no) {
        (Status::Done, WriteNo::Fault) => Status::TraceFault,
        (Status::Done, WriteNo::Memory) => Status::Memory,
        (status, _) => status,
    }
}
