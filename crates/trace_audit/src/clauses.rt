//! The six clauses, one after the other: which of them is false first, and where.
ghost use Rattle.std.specs.Prelude.{◌≡◌, ◌<◌, ◌^◌, length, map, IfOk, MatchOption, MatchResult};
ghost use Rattle.std.specs.List.{AllByRecursion};
ghost use Rattle.snap_work.specs.Kept.{KeepsLimits};
ghost use Rattle.snap_work.specs.Works.{work_of};
ghost use Rattle.audit_words.specs.Audited.{Audited, IsOff};
ghost use Rattle.audit_words.specs.Inputs.{first_text, language};
ghost use Rattle.audit_words.specs.Seen.{Seen};
ghost use Rattle.audit_papers.specs.ReportLines.{lines_of};
ghost use Rattle.audit_tale.specs.Settings.{meant};
ghost use Rattle.audit_tale.specs.Stands.{IsSound, KnowsAll};
ghost use Rattle.audit_tale.specs.Tellings.{IsTaleNo, IsTold};
ghost use Rattle.trace_audit.specs.Behind.{HasEvidence, HasForm, HasMeaning, HasOrder, HasPlaces, IsEvidenceOff, IsFormOff, IsMeaningOff, IsOrderOff, IsPlaceOff};
ghost use Rattle.trace_audit.specs.ByTransaction.{AreAnswers};
ghost use Rattle.trace_audit.specs.Evidence.{HasTxsBelow};
ghost use Rattle.trace_audit.specs.Meanings.{NameTransactions};

use crate::evidence::first_off_evidence;
use crate::meaning::first_off_meaning;
use crate::order::first_off_order;
use crate::places::first_off_place;
use crate::shape::{Sizes, first_off_shape};
use audit_papers::ReportLine;
use audit_tale::{TaleNo, Told, told_by};
use core_events::Event;
use snap_base::Memory;
use snap_work::Work;
use std::alloc::Global;

/// For each transaction of a work whether its method only reads. `Memory` where a mark for each cannot be allocated.
fn marks(alloc: Global, work: &Work) -> Result<Vec<bool>, Memory>
    requires { KeepsLimits (work_of work.now) }
    ensures { IfOk result (λ v. v.items ≡ map (language (work_of work.now)).reads work.now.txs) }
{
    let mut reads = Vec::new(alloc);
    for tx in work.txs.as_slice() {
        reads.push(work.program.is_read(tx.method))?;
    }
    Ok(reads)
}

/// The sixth clause, where it is false, and the line where it is first. `None` exactly where it holds. `Memory` where there is no
/// room.
fn off_evidence(
    alloc: Global,
    work: &Work,
    told: &Told,
    lines: &[ReportLine],
) -> Result<Option<(u8, u64)>, Memory>
    requires limits { KeepsLimits (work_of work.now) }
    requires pacts { AllByRecursion (HasTxsBelow (length work.now.txs)) told.now.tale.batches.items }
    requires answers { AreAnswers (length work.now.txs) (lines_of lines.now) }
    requires lines { length lines.now < 2 ^ 62 }
    ensures { IfOk result (λ off. (s : Seen) → IsSound s → KnowsAll (first_text (work_of work.now)) told.now s
        → MatchOption off (HasEvidence (language (work_of work.now)) (first_text (work_of work.now)) s (lines_of lines.now)) (λ x. IsEvidenceOff (language (work_of work.now)) (first_text (work_of work.now)) s (lines_of lines.now) x.0 x.1)) }
{
    match first_off_evidence(alloc, work, told, lines)? {
        Some(at) => Ok(Some((6, at))),
        None => Ok(None),
    }
}

/// The first of the fifth and the sixth clause that is false, and the line where it is first. `None` exactly where both hold.
/// `Memory` where there is no room.
fn off_order(
    alloc: Global,
    work: &Work,
    told: &Told,
    lines: &[ReportLine],
) -> Result<Option<(u8, u64)>, Memory>
    requires limits { KeepsLimits (work_of work.now) }
    requires pacts { AllByRecursion (HasTxsBelow (length work.now.txs)) told.now.tale.batches.items }
    requires answers { AreAnswers (length work.now.txs) (lines_of lines.now) }
    requires lines { length lines.now < 2 ^ 62 }
    ensures { IfOk result (λ off. (s : Seen) → IsSound s → KnowsAll (first_text (work_of work.now)) told.now s
        → MatchOption off (HasOrder (language (work_of work.now)) (first_text (work_of work.now)) s (lines_of lines.now)) (λ x. IsOrderOff (language (work_of work.now)) (first_text (work_of work.now)) s (lines_of lines.now) x.0 x.1)) }
{
    match first_off_order(alloc, &told.tale.members, &told.actors, lines)? {
        Some(at) => Ok(Some((5, at))),
        None => off_evidence(alloc, work, told, lines),
    }
}

/// The first of the fourth, the fifth and the sixth clause that is false, and the line where it is first. `None` exactly where
/// all hold. `Memory` where there is no room.
fn off_meaning(
    alloc: Global,
    work: &Work,
    told: &Told,
    lines: &[ReportLine],
) -> Result<Option<(u8, u64)>, Memory>
    requires limits { KeepsLimits (work_of work.now) }
    requires pacts { AllByRecursion (HasTxsBelow (length work.now.txs)) told.now.tale.batches.items }
    requires answers { AreAnswers (length work.now.txs) (lines_of lines.now) }
    requires named { NameTransactions (length work.now.txs) (lines_of lines.now) }
    requires lines { length lines.now < 2 ^ 62 }
    ensures { IfOk result (λ off. (s : Seen) → IsSound s → KnowsAll (first_text (work_of work.now)) told.now s
        → MatchOption off (HasMeaning (language (work_of work.now)) (first_text (work_of work.now)) s (lines_of lines.now)) (λ x. IsMeaningOff (language (work_of work.now)) (first_text (work_of work.now)) s (lines_of lines.now) x.0 x.1)) }
{
    match first_off_meaning(alloc, work, lines)? {
        Some(at) => Ok(Some((4, at))),
        None => off_order(alloc, work, told, lines),
    }
}

/// The first of the third clause and those behind it that is false, and the line where it is first. `None` exactly where all
/// hold. `Memory` where there is no room.
fn off_place(
    alloc: Global,
    work: &Work,
    told: &Told,
    lines: &[ReportLine],
) -> Result<Option<(u8, u64)>, Memory>
    requires limits { KeepsLimits (work_of work.now) }
    requires pacts { AllByRecursion (HasTxsBelow (length work.now.txs)) told.now.tale.batches.items }
    requires answers { AreAnswers (length work.now.txs) (lines_of lines.now) }
    requires named { NameTransactions (length work.now.txs) (lines_of lines.now) }
    requires lines { length lines.now < 2 ^ 62 }
    ensures { IfOk result (λ off. (s : Seen) → IsSound s → KnowsAll (first_text (work_of work.now)) told.now s
        → MatchOption off (HasPlaces (language (work_of work.now)) (first_text (work_of work.now)) s (lines_of lines.now)) (λ x. IsPlaceOff (language (work_of work.now)) (first_text (work_of work.now)) s (lines_of lines.now) x.0 x.1)) }
{
    match first_off_place(alloc, &told.tale.members, lines)? {
        Some(at) => Ok(Some((3, at))),
        None => off_meaning(alloc, work, told, lines),
    }
}

/// The first of the second clause and those behind it that is false, and the line where it is first; of a report that is cut off,
/// the line that is lacking. `None` exactly where all hold. `Memory` where there is no room.
fn off_form(
    alloc: Global,
    work: &Work,
    told: &Told,
    lines: &[ReportLine],
) -> Result<Option<(u8, u64)>, Memory>
    requires limits { KeepsLimits (work_of work.now) }
    requires pacts { AllByRecursion (HasTxsBelow (length work.now.txs)) told.now.tale.batches.items }
    requires lines { length lines.now < 2 ^ 62 }
    ensures { IfOk result (λ off. (s : Seen) → IsSound s → KnowsAll (first_text (work_of work.now)) told.now s
        → MatchOption off (HasForm (language (work_of work.now)) (first_text (work_of work.now)) s (lines_of lines.now)) (λ x. IsFormOff (language (work_of work.now)) (first_text (work_of work.now)) s (lines_of lines.now) x.0 x.1)) }
{
    let sizes = Sizes {
        txs: work.txs.len(),
        actors: work.states.len(),
        settled: told.tale.settled,
    };
    match first_off_shape(alloc, sizes, lines)? {
        Some(at) => Ok(Some((2, at))),
        None => off_place(alloc, work, told, lines),
    }
}

/// What the events of a trace tell of a run of a work from empty logs; or the number, from 0 on, of the first that does not meet
/// the first clause; or `Memory`.
fn tell(alloc: Global, work: &Work, events: &[Event]) -> Result<Told, TaleNo>
    requires limits { KeepsLimits (work_of work.now) }
    requires events { length events.now < 2 ^ 40 }
    ensures { MatchResult result (IsTold (language (work_of work.now)).reads (first_text (work_of work.now)) (meant events.now)) (IsTaleNo (first_text (work_of work.now)) (meant events.now)) }
{
    let reads = marks(alloc, work)?;
    told_by(
        alloc,
        work.coordinators,
        work.batch,
        work.states.len() as u16,
        work.txs.as_slice(),
        &reads,
        events,
    )
}

/// The first clause that is false of a work, the events of its trace and the lines of its report, and where: the first clause at
/// an event, from 0 on, the others at a line, from 1 on. `None` exactly where all six hold. `Memory` where there is no room.
pub fn first_off(
    alloc: Global,
    work: &Work,
    events: &[Event],
    lines: &[ReportLine],
) -> Result<Option<(u8, u64)>, Memory>
    requires limits { KeepsLimits (work_of work.now) }
    requires events { length events.now < 2 ^ 40 }
    requires lines { length lines.now < 2 ^ 62 }
    ensures { IfOk result (λ off. MatchOption off (Audited (language (work_of work.now)) (first_text (work_of work.now)) (meant events.now) (lines_of lines.now)) (λ x. IsOff (language (work_of work.now)) (first_text (work_of work.now)) (meant events.now) (lines_of lines.now) x.0 x.1)) }
{
    match tell(alloc, work, events) {
        Ok(told) => off_form(alloc, work, &told, lines),
        Err(TaleNo::Event(at)) => Ok(Some((1, at))),
        Err(TaleNo::Memory) => Err(Memory),
    }
}
