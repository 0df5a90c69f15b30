//! The trace of a run: a line for each of its events.
ghost use Rattle.std.specs.Prelude.{◌≡◌, ◌≤◌, [], IfOk, IsErrOf, OnOk, OnErr, string_bytes};
ghost use Rattle.std.specs.Io.KnownBytes.{Appends};
ghost use Rattle.run_printing.specs.Printed.{AppendsLines, IsBrokenOff, traced_line};
ghost use Rattle.snap_outside.specs.Causes.{Rose, EndsAtFault};
ghost use Rattle.trace_text.specs.Traces.{trace_of};

use crate::WriteNo;
use crate::writes::write_text;
use core_events::Event;
use snap_base::Memory;
use snap_outside::Sink;
use std::alloc::Global;
use trace_text::print_event;

/// How many lines go to the sink at once.
const LINES: usize = 512;

/// The bytes that there is room for at once for these lines.
const ROOM: usize = 24 * LINES;

/// Writes a line for each event, in their order, 512 lines at a time. `Fault`: the sink failed, and the lines of some events that
/// come first are written, the last of them maybe cut. `Memory`: there was no memory, and whole lines of some events that come first
/// are written. Where there is no event the sink gets no call.
pub fn write_trace<T: Sink>(alloc: Global, kept: &[Event], trace: &mut T) -> Result<(), WriteNo>
    ensures whole { OnOk result (Appends (T.taken trace.old) (T.taken trace.new) (trace_of kept.now)) }
    ensures lines { OnErr result (AppendsLines traced_line (T.taken trace.old) (T.taken trace.new) (T.faults trace.old) (T.faults trace.new) kept.now) }
    ensures fault { IsErrOf result WriteNo.Fault → Rose (T.faults trace.old) (T.faults trace.new) }
    ensures later { T.faults trace.old ≤ T.faults trace.new }
    ensures once { EndsAtFault (¬ IsErrOf result WriteNo.Fault) (T.faults trace.old) (T.late trace.old) (T.faults trace.new) (T.late trace.new) }
    ensures none { kept.now ≡ [] → trace.new ≡ trace.old }
{
    let mut at = 0;
    while at < kept.len() {
        let count = LINES.min(kept.len() - at);
        write_lines(alloc, &kept[at..at + count], trace)?;
        at += count;
    }
    Ok(())
}

/// Writes the lines of these events at once.
fn write_lines<T: Sink>(alloc: Global, events: &[Event], trace: &mut T) -> Result<(), WriteNo>
    ensures whole { OnOk result (Appends (T.taken trace.old) (T.taken trace.new) (trace_of events.now)) }
    ensures cut { OnErr result (IsBrokenOff (T.taken trace.old) (T.taken trace.new) (T.faults trace.old) (T.faults trace.new) (trace_of events.now)) }
    ensures fault { IsErrOf result WriteNo.Fault → Rose (T.faults trace.old) (T.faults trace.new) }
    ensures later { T.faults trace.old ≤ T.faults trace.new }
    ensures once { EndsAtFault (¬ IsErrOf result WriteNo.Fault) (T.faults trace.old) (T.late trace.old) (T.faults trace.new) (T.late trace.new) }
{
    let text = lines_of(alloc, events)?;
    write_text(trace, text.as_str())
}

/// The lines of these events.
fn lines_of(alloc: Global, events: &[Event]) -> Result<String, Memory>
    ensures { IfOk result (λ s. string_bytes s ≡ trace_of events.now) }
{
    let mut text = String::with_capacity(alloc, ROOM)?;
    for event in events {
        print_event(&mut text, *event)?;
    }
    Ok(text)
}
