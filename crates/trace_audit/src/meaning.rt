//! The fourth clause: run one by one in the order of their places, transactions give what their replies tell, and leave the
//! states that the report tells.
ghost use Rattle.std.specs.Prelude.{◌≡◌, ◌<◌, ◌^◌, [], length, slice_index_or, IfOk, MatchBool, MatchOption};
ghost use Rattle.audit_papers.specs.ReportLines.{line_of, lines_of};
ghost use Rattle.audit_words.specs.Audited.{EachLine, IsFirstOff};
ghost use Rattle.audit_words.specs.Clauses.{TellsMeaning};
ghost use Rattle.audit_words.specs.Inputs.{first_text, language};
ghost use Rattle.protocol.specs.Facts.{state_in};
ghost use Rattle.snap_report.specs.Lines.{shown_fields};
ghost use Rattle.snap_work.specs.Kept.{KeepsLimits};
ghost use Rattle.snap_work.specs.Works.{work_of};
ghost use Rattle.trace_audit.specs.Meanings.{NameTransactions, NamesTransaction, ShowsResult, ShowsWalk, TellsWalk};

use crate::located::located_by_place;
use crate::walks::{Walk, run_by_place};
use audit_papers::ReportLine;
use snap_base::{ActorId, FIELDS, Memory, State, TxNo, TxResult, Verdict};
use snap_report::shown;
use snap_work::Work;
use std::alloc::Global;

/// The number, from 1 on, of the first line that does not tell what the language means: a reply with a place tells what its
/// transaction gives there, behind the committed ones of smaller places, and an actor the fields that all committed ones leave.
/// `None` exactly where each line does. `Memory` where the run has no room. The work of the run, and n log n steps for n lines.
pub fn first_off_meaning(
    alloc: Global,
    work: &Work,
    lines: &[ReportLine],
) -> Result<Option<u64>, Memory>
    requires limits { KeepsLimits (work_of work.now) }
    requires lines { length lines.now < 2 ^ 62 }
    requires named { NameTransactions (length work.now.txs) (lines_of lines.now) }
    ensures { IfOk result (λ at. MatchOption at (EachLine (TellsMeaning (language (work_of work.now)).meaning (first_text (work_of work.now)) (lines_of lines.now)) [] (lines_of lines.now)) (λ i. IsFirstOff (TellsMeaning (language (work_of work.now)).meaning (first_text (work_of work.now)) (lines_of lines.now)) (lines_of lines.now) i)) }
{
    let replies = located_by_place(alloc, lines)?;
    let walk = run_by_place(alloc, work, &replies)?;
    Ok(first_off_walk(&walk, lines))
}

/// The number, from 1 on, of the first line that does not tell what a walk gave.
fn first_off_walk(walk: &Walk, lines: &[ReportLine]) -> Option<u64>
    requires lines { length lines.now < 2 ^ 62 }
    requires named { NameTransactions (length walk.now.results.items) (lines_of lines.now) }
    ensures { MatchOption result (EachLine (TellsWalk walk.now.results.items walk.now.world.items) [] (lines_of lines.now)) (λ i. IsFirstOff (TellsWalk walk.now.results.items walk.now.world.items) (lines_of lines.now) i) }
{
    for (at, line) in lines.iter().enumerate() {
        if !tells_walk(walk, line) {
            return Some(at as u64 + 1);
        }
    }
    None
}

/// Whether a line tells what a walk gave.
fn tells_walk(walk: &Walk, line: &ReportLine) -> bool
    requires { NamesTransaction (length walk.now.results.items) (line_of line.now) }
    ensures { MatchBool result (ShowsWalk walk.now.results.items walk.now.world.items (line_of line.now)) (¬ ShowsWalk walk.now.results.items walk.now.world.items (line_of line.now)) }
{
    match line {
        ReportLine::Reply { tx, verdict } => tells_result(walk.results.as_slice(), *tx, verdict),
        ReportLine::Actor { actor, fields } => {
            tells_state(walk.world.as_slice(), *actor, fields.as_slice())
        }
        ReportLine::End { .. } => true,
        ReportLine::Kept { .. } => true,
        ReportLine::Recovered { .. } => true,
    }
}

/// Whether the reply to a transaction tells what is given to it; one that tells no place does.
fn tells_result(results: &[Option<TxResult>], tx: TxNo, verdict: &Verdict) -> bool
    requires { tx.0 < length results.now }
    ensures { MatchBool result (ShowsResult (slice_index_or results.now tx.0 None) verdict.now) (¬ ShowsResult (slice_index_or results.now tx.0 None) verdict.now) }
{
    let given = results[tx.0 as usize];
    match *verdict {
        Verdict::Committed { value, .. } => is_value(given, value),
        Verdict::Code { code, .. } => is_failure(given, code),
        Verdict::BatchCode { .. } => true,
        Verdict::Cascade { .. } => true,
        Verdict::Died { .. } => true,
        Verdict::Order { .. } => true,
        Verdict::Unsure { .. } => true,
    }
}

/// Whether this value is given.
fn is_value(given: Option<TxResult>, value: i64) -> bool
    ensures { MatchBool result (given ≡ Some (TxResult.Value value)) (¬ (given ≡ Some (TxResult.Value value))) }
{
    match given {
        Some(TxResult::Value(other)) => other == value,
        Some(TxResult::Fail(_)) => false,
        None => false,
    }
}

/// Whether this failure is given.
fn is_failure(given: Option<TxResult>, code: u16) -> bool
    ensures { MatchBool result (given ≡ Some (TxResult.Fail code)) (¬ (given ≡ Some (TxResult.Fail code))) }
{
    match given {
        Some(TxResult::Value(_)) => false,
        Some(TxResult::Fail(other)) => other == code,
        None => false,
    }
}

/// Whether these are the fields that are shown of an actor; of one that there is not, those of a state without anything in it.
fn tells_state(world: &[State], actor: ActorId, fields: &[i64]) -> bool
    ensures { MatchBool result (fields.now ≡ shown_fields (state_in world.now actor.0).0) (¬ (fields.now ≡ shown_fields (state_in world.now actor.0).0)) }
{
    let state = state_at(world, actor);
    are_shown(state.0.as_slice(), fields)
}

/// The state of an actor; of one that there is not, a state without anything in it.
fn state_at(world: &[State], actor: ActorId) -> State
    ensures { result ≡ state_in world.now actor.0 }
{
    match world.get(actor.0 as usize) {
        Some(state) => *state,
        None => State([0; FIELDS]),
    }
}

/// Whether these fields are shown of all fields of an actor.
fn are_shown(all: &[i64], fields: &[i64]) -> bool
    requires { 0 < length all.now }
    ensures { MatchBool result (fields.now ≡ shown_fields all.now) (¬ (fields.now ≡ shown_fields all.now)) }
{
    let count = shown(all);
    fields == &all[..count]
}
