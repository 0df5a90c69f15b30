//! The summary of a run.
ghost use Rattle.std.specs.Prelude.{◌≡◌, ◌≤◌, map, IfOk, IsErrOf, OnOk, OnErr, string_bytes};
ghost use Rattle.std.specs.Io.KnownBytes.{Appends};
ghost use Rattle.core_events.specs.Meant.{event_meant};
ghost use Rattle.run_printing.specs.Printed.{AppendsFront};
ghost use Rattle.run_printing.specs.Summed.{summary_by, summing_text};
ghost use Rattle.snap_core.specs.Cores.{IsAt};
ghost use Rattle.snap_core.specs.snap_hand.Tables.{fixed_of};
ghost use Rattle.snap_outside.specs.Causes.{Rose, EndsAtFault};

use crate::WriteNo;
use crate::counts::counts_of;
use crate::totals::total_of;
use crate::writes::write_text;
use core_events::Event;
use snap_base::Memory;
use snap_core::Core;
use snap_outside::Sink;
use snap_report::{Summary, summary_line};
use std::alloc::Global;

/// Writes the summary line of a run that took these events. The core is in the state to which they lead. `Fault`: the sink failed,
/// and a front of the line is written. `Memory`: there was no memory for the line, and the sink got no call. It takes one pass over
/// the events and one over the actors' fields.
pub fn write_summary<O: Sink>(
    alloc: Global,
    core: &Core,
    kept: &[Event],
    out: &mut O,
) -> Result<(), WriteNo>
    requires { IsAt core.now (map event_meant kept.now) }
    ensures whole { OnOk result (Appends (O.taken out.old) (O.taken out.new) (summing_text (fixed_of core.now.tables) (map event_meant kept.now))) }
    ensures front { OnErr result (AppendsFront (O.taken out.old) (O.taken out.new) (summing_text (fixed_of core.now.tables) (map event_meant kept.now))) }
    ensures fault { IsErrOf result WriteNo.Fault → Rose (O.faults out.old) (O.faults out.new) }
    // The text is made whole before it is written.
    ensures memory { IsErrOf result WriteNo.Memory → out.new ≡ out.old }
    ensures later { O.faults out.old ≤ O.faults out.new }
    ensures once { EndsAtFault (¬ IsErrOf result WriteNo.Fault) (O.faults out.old) (O.late out.old) (O.faults out.new) (O.late out.new) }
{
    let line = line_of(alloc, core, kept)?;
    write_text(out, line.as_str())
}

/// The line of the summary.
fn line_of(alloc: Global, core: &Core, kept: &[Event]) -> Result<String, Memory>
    requires { IsAt core.now (map event_meant kept.now) }
    ensures { IfOk result (λ s. string_bytes s ≡ summing_text (fixed_of core.now.tables) (map event_meant kept.now)) }
{
    let summary = summary_of(core, kept);
    summary_line(alloc, &summary)
}

/// What the run comes to.
fn summary_of(core: &Core, kept: &[Event]) -> Summary
    requires { IsAt core.now (map event_meant kept.now) }
    ensures { result ≡ summary_by (fixed_of core.now.tables) (map event_meant kept.now) }
{
    let counts = counts_of(core, kept);
    Summary {
        transactions: core.tables().work.txs.len() as u32,
        committed: counts.committed,
        aborted: counts.aborted,
        batches: counts.batches,
        events: kept.len() as u64,
        total: total_of(core),
    }
}
