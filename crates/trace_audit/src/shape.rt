//! The second clause: a report has a line for each transaction, for each actor, and its end.
ghost use Rattle.std.specs.Prelude.{◌≡◌, ◌+◌, ◌<◌, ◌≤◌, ◌^◌, [], ◌∷◌, ◌++◌, List, length, IfOk, MatchBool, MatchOption};
ghost use Rattle.audit_words.specs.Audited.{HasShape, IsShapeOff};
ghost use Rattle.audit_words.specs.Clauses.{MayFollow, is_unsure};
ghost use Rattle.audit_words.specs.Papers as papers;
ghost use Rattle.protocol.specs.Report.{is_committed};
ghost use Rattle.trace_audit.specs.Counted.{Counted};
ghost use Rattle.audit_papers.specs.ReportLines.{lines_of, line_of};

use audit_papers::ReportLine;
use snap_base::{ActorId, Memory, TxNo, Verdict};
use std::alloc::Global;

/// How many transactions and actors a text has, and how many batches settled by the events of its trace.
#[derive(Clone, Copy)]
pub struct Sizes {
    pub txs: usize,
    pub actors: usize,
    pub settled: u64,
}

/// What the lines so far tell: for each transaction whether it was answered, how many replies tell a commit, and how many tell
/// anything else.
#[derive(Drop)]
struct Counts {
    answered: Vec<bool>,
    committed: u64,
    aborted: u64,
}

/// What no lines tell of so many transactions.
fn nothing_counted(alloc: Global, txs: usize) -> Result<Counts, Memory>
    ensures { IfOk result (λ c. Counted txs [] c.answered.items c.committed c.aborted) }
{
    let answered = vec![in alloc; false; txs]?;
    Ok(Counts {
        answered,
        committed: 0,
        aborted: 0,
    })
}

/// Whether a verdict is a commit.
fn is_committed(verdict: &Verdict) -> bool
    ensures { result ≡ is_committed verdict.now }
{
    match *verdict {
        Verdict::Committed { .. } => true,
        _ => false,
    }
}

/// Whether a verdict is that nobody knows.
fn is_unsure(verdict: &Verdict) -> bool
    ensures { result ≡ is_unsure verdict.now }
{
    match *verdict {
        Verdict::Unsure { .. } => true,
        _ => false,
    }
}

/// Whether a reply may stand as line `at`, from 0 on, behind what was counted: it is among the first lines, its transaction
/// exists and was not answered before, and its verdict is known. Then it is counted.
fn may_reply(sizes: Sizes, counts: &mut Counts, at: usize, tx: TxNo, verdict: &Verdict) -> bool
    requires committed { counts.old.committed + 1 < 2 ^ 64 }
    requires aborted { counts.old.aborted + 1 < 2 ^ 64 }
    requires marks { length counts.old.answered.items ≡ sizes.txs }
    ensures { (front : List papers.Line) → length front ≡ at → Counted sizes.txs front counts.old.answered.items counts.old.committed counts.old.aborted
        → MatchBool result (MayFollow sizes.txs sizes.actors sizes.settled front (papers.Reply tx.0 verdict.now) × Counted sizes.txs (front ++ papers.Reply tx.0 verdict.now ∷ []) counts.new.answered.items counts.new.committed counts.new.aborted) (¬ MayFollow sizes.txs sizes.actors sizes.settled front (papers.Reply tx.0 verdict.now)) }
{
    let n = tx.0 as usize;
    if at >= sizes.txs || n >= sizes.txs {
        return false;
    }
    if counts.answered[n] || is_unsure(verdict) {
        return false;
    }
    counts.answered[n] = true;
    if is_committed(verdict) {
        counts.committed += 1;
    } else {
        counts.aborted += 1;
    }
    true
}

/// Whether the line of an actor may stand as line `at`: behind the replies, at the actor's number.
fn may_tell_actor(sizes: Sizes, at: usize, actor: ActorId) -> bool
    requires { sizes.txs + 65536 < 2 ^ 64 }
    ensures { MatchBool result ((at ≡ sizes.txs + actor.0) × (actor.0 < sizes.actors)) (¬ ((at ≡ sizes.txs + actor.0) × (actor.0 < sizes.actors))) }
{
    let a = actor.0 as usize;
    a < sizes.actors && at == sizes.txs + a
}

/// Whether the end may stand as line `at`, with these counts: behind all actors, with what was counted.
fn may_end(
    sizes: Sizes,
    counts: &Counts,
    at: usize,
    committed: u64,
    aborted: u64,
    batches: u64,
) -> bool
    requires { sizes.txs + sizes.actors < 2 ^ 64 }
    ensures { MatchBool result ((at ≡ sizes.txs + sizes.actors) × (committed ≡ counts.now.committed) × (aborted ≡ counts.now.aborted) × (batches ≡ sizes.settled)) (¬ ((at ≡ sizes.txs + sizes.actors) × (committed ≡ counts.now.committed) × (aborted ≡ counts.now.aborted) × (batches ≡ sizes.settled))) }
{
    if at != sizes.txs + sizes.actors || committed != counts.committed {
        return false;
    }
    if aborted != counts.aborted || batches != sizes.settled {
        return false;
    }
    true
}

/// Whether a line may stand as line `at`, behind what was counted. Then it is counted.
fn may_stand(sizes: Sizes, counts: &mut Counts, at: usize, line: &ReportLine) -> bool
    requires committed { counts.old.committed + 1 < 2 ^ 64 }
    requires aborted { counts.old.aborted + 1 < 2 ^ 64 }
    requires marks { length counts.old.answered.items ≡ sizes.txs }
    requires sizes { sizes.txs + sizes.actors + 65536 < 2 ^ 64 }
    ensures { (front : List papers.Line) → length front ≡ at → Counted sizes.txs front counts.old.answered.items counts.old.committed counts.old.aborted
        → MatchBool result (MayFollow sizes.txs sizes.actors sizes.settled front (line_of line.now) × Counted sizes.txs (front ++ line_of line.now ∷ []) counts.new.answered.items counts.new.committed counts.new.aborted) (¬ MayFollow sizes.txs sizes.actors sizes.settled front (line_of line.now)) }
{
    match line {
        ReportLine::Reply { tx, verdict } => may_reply(sizes, counts, at, *tx, verdict),
        ReportLine::Actor { actor, .. } => may_tell_actor(sizes, at, *actor),
        ReportLine::End {
            committed,
            aborted,
            batches,
        } => may_end(sizes, counts, at, *committed, *aborted, *batches),
        ReportLine::Kept { .. } => false,
        ReportLine::Recovered { .. } => false,
    }
}

/// The number, from 1 on, of the first line that may not stand where it stands; of a report that is too short, the number of
/// the line that is lacking. `None` exactly where the lines have the shape of a report. `Memory` where a mark for each
/// transaction cannot be allocated. Linear in the lines and the transactions.
pub fn first_off_shape(
    alloc: Global,
    sizes: Sizes,
    lines: &[ReportLine],
) -> Result<Option<u64>, Memory>
    requires sizes { sizes.txs + sizes.actors + 65536 < 2 ^ 63 }
    requires lines { length lines.now < 2 ^ 62 }
    ensures { IfOk result (λ at. MatchOption at (HasShape sizes.txs sizes.actors sizes.settled (lines_of lines.now)) (λ i. IsShapeOff sizes.txs sizes.actors sizes.settled (lines_of lines.now) i)) }
{
    let mut counts = nothing_counted(alloc, sizes.txs)?;
    for (at, line) in lines.iter().enumerate() {
        if !may_stand(sizes, &mut counts, at, line) {
            return Ok(Some(at as u64 + 1));
        }
    }
    if lines.len() < sizes.txs + sizes.actors + 1 {
        return Ok(Some(lines.len() as u64 + 1));
    }
    Ok(None)
}
