//! Whether an input is the papers of a run: what is wrong with it first, in the order of its parts.
ghost use Rattle.std.specs.Prelude.{◌≡◌, ℕ, ◌<◌, ◌^◌, List, length, MatchResult};
ghost use Rattle.snap_work.specs.Kept.{KeepsLimits};
ghost use Rattle.snap_work.specs.Works.{work_of};
ghost use Rattle.trace_text.specs.Traces.{IsTrace};
ghost use Rattle.work_text.specs.Reads.{IsWork};
ghost use Rattle.audit_words.specs.Inputs.{IsInOrder};
ghost use Rattle.audit_words.specs.Papers.{AreParts, IsReport};
ghost use Rattle.audit_papers.specs.ReportLines.{lines_of};
ghost use Rattle.trace_audit.specs.AuditNos.{IsAuditNo};

use crate::AuditNo;
use crate::clauses::first_off;
use audit_papers::{Parts, ReportLine, parse_report, parts_of};
use core_events::Event;
use snap_report::AuditFault;
use snap_work::Work;
use std::alloc::Global;
use trace_text::parse_events;
use work_text::{parse_work, transactions_may_run};

/// Whether an input with these papers is in order: the first clause that is false, and where, or `Memory`.
fn audit_papers(
    alloc: Global,
    work: &Work,
    events: &[Event],
    lines: &[ReportLine],
) -> Result<(), AuditNo>
    requires limits { KeepsLimits (work_of work.now) }
    requires events { length events.now < 2 ^ 40 }
    requires lines { length lines.now < 2 ^ 62 }
    ensures { (input text trace report : List ℕ) → AreParts input text trace report → IsWork text (work_of work.now) → IsTrace trace events.now → IsReport report (lines_of lines.now) → MatchResult result (λ u. IsInOrder input) (λ why. IsAuditNo input why) }
{
    match first_off(alloc, work, events, lines)? {
        Some((clause, at)) => Err(AuditNo::Fault(AuditFault::Clause { clause, at })),
        None => Ok(()),
    }
}

/// Whether an input with this work, these events and this report is in order: the first line of the report that is of no form, or
/// what the clauses say, or `Memory`.
fn audit_report(alloc: Global, work: &Work, events: &[Event], report: &[u8]) -> Result<(), AuditNo>
    requires limits { KeepsLimits (work_of work.now) }
    requires events { length events.now < 2 ^ 40 }
    requires report { length report.now < 2 ^ 32 }
    ensures { (input text trace : List ℕ) → AreParts input text trace report.now → IsWork text (work_of work.now) → IsTrace trace events.now → MatchResult result (λ u. IsInOrder input) (λ why. IsAuditNo input why) }
{
    let lines = parse_report(alloc, report)?;
    audit_papers(alloc, work, events, lines.as_slice())
}

/// Whether an input with this work, this trace and this report is in order: the first line of the trace that is of no event, or
/// what is wrong behind it, or `Memory`.
fn audit_trace(alloc: Global, work: &Work, trace: &[u8], report: &[u8]) -> Result<(), AuditNo>
    requires limits { KeepsLimits (work_of work.now) }
    requires trace { length trace.now < 2 ^ 32 }
    requires report { length report.now < 2 ^ 32 }
    ensures { (input text : List ℕ) → AreParts input text trace.now report.now → IsWork text (work_of work.now) → MatchResult result (λ u. IsInOrder input) (λ why. IsAuditNo input why) }
{
    let events = parse_events(alloc, trace)?;
    audit_report(alloc, work, events.as_slice(), report)
}

/// Whether an input with these parts is in order: the first fault of the text, or what is wrong behind it, or `Memory`.
fn audit_text(alloc: Global, text: &[u8], trace: &[u8], report: &[u8]) -> Result<(), AuditNo>
    requires trace { length trace.now < 2 ^ 32 }
    requires report { length report.now < 2 ^ 32 }
    ensures { (input : List ℕ) → AreParts input text.now trace.now report.now → MatchResult result (λ u. IsInOrder input) (λ why. IsAuditNo input why) }
{
    transactions_may_run();
    let work = parse_work(alloc, text)?;
    audit_trace(alloc, &work, trace, report)
}

/// Whether an input is the papers of a run: a text, its trace and its report, each of the latter behind its divider. `Ok` exactly
/// where it is in order; else what is wrong with it first: a divider that is lacking, the first fault of the text, the first line
/// of the trace that is of no event, the first line of the report that is of no form, or the first clause that is false, and
/// where; or `Memory`.
pub fn audit(alloc: Global, input: &[u8]) -> Result<(), AuditNo>
    requires { length input.now < 2 ^ 32 }
    ensures { MatchResult result (λ u. IsInOrder input.now) (λ why. IsAuditNo input.now why) }
{
    let Some(
        Parts {
            text,
            trace,
            report,
        },
    ) = parts_of(input)
    else {
        return Err(AuditNo::Fault(AuditFault::Parts));
    };
    audit_text(alloc, text, trace, report)
}
