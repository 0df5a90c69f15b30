//! The sixth clause: whoever is told that it was aborted has its evidence in the events.
ghost use Rattle.std.specs.Prelude.{◌≡◌, ℕ, ◌+◌, ◌==◌, ◌<◌, ◌^◌, ◌⊎◌, nat_le, ◌&&◌, [], List, filter, length, map, IfOk, MatchOption};
ghost use Rattle.std.specs.List.{AllByRecursion, list_any};
ghost use Rattle.protocol.specs.Chains.{by_place};
ghost use Rattle.protocol.specs.Fixed.{Text};
ghost use Rattle.protocol.specs.Meant.{batch_pact};
ghost use Rattle.snap_work.specs.Kept.{KeepsLimits};
ghost use Rattle.snap_work.specs.Works.{work_of};
ghost use Rattle.audit_papers.specs.ReportLines.{line_of, lines_of};
ghost use Rattle.audit_words.specs.Audited.{EachLine, IsFirstOff};
ghost use Rattle.audit_words.specs.Clauses.{HasDied, FailsItsBatch, IsGivenUpFor, IsTakenAlong, IsTakenPact, TellsEvidence, located};
ghost use Rattle.audit_words.specs.Inputs.{first_text, language};
ghost use Rattle.audit_words.specs.Papers as papers;
ghost use Rattle.audit_words.specs.Seen.{Older, Crossed, Taken, Seen};
ghost use Rattle.audit_tale.specs.Knows.{why_of};
ghost use Rattle.audit_tale.specs.Stands.{IsSound, KnowsAll, cuts_from};
ghost use Rattle.trace_audit.specs.ByTransaction.{AreAnswers, IsIndex, has_pact, is_act_for};
ghost use Rattle.trace_audit.specs.Evidence.{Decides, Grounds, HasTxsBelow, Indexes, TellsCodes, TellsDeath, TellsWhy};
ghost use Rattle.trace_audit.specs.Failures.{counted_world, first_fails};
ghost use Rattle.trace_audit.specs.Located.{done_of};
ghost use Rattle.trace_audit.specs.Meanings.{NamesTransaction};

use crate::by_tx::{ByTx, act_of, batch_of, by_tx, tells_code};
use crate::failing::{first_fails, world_left_below};
use crate::located::{LocatedReply, located_by_place};
use audit_papers::ReportLine;
use audit_tale::{ActTale, Fall, Reason, Told};
use snap_base::{ActorId, Bid, Memory, Tid, TxNo, Verdict};
use snap_work::Work;
use std::alloc::Global;

/// Whether an ACT is given up since this older one was in its way on this actor.
fn is_older(given: Reason, a: ActorId, older: Tid) -> bool
    ensures { Decides result (why_of given ≡ Older a.0 older.0) }
{
    match given {
        Reason::Older(b, other) => b.0 == a.0 && other.0 == older.0,
        Reason::Crossed(_, _, _) => false,
        Reason::Taken(_) => false,
    }
}

/// Whether an ACT is given up since its sets crossed so at an event on this actor.
fn is_crossed(given: Reason, before: Bid, behind: Bid, a: ActorId) -> bool
    ensures { Decides result (why_of given ≡ Crossed before.0 behind.0 a.0) }
{
    match given {
        Reason::Crossed(greatest, least, b) => {
            greatest.0 == before.0 && least.0 == behind.0 && b.0 == a.0
        }
        Reason::Older(_, _) => false,
        Reason::Taken(_) => false,
    }
}

/// Whether the cascade of batch k took an ACT along.
fn is_taken(given: Reason, k: Bid) -> bool
    ensures { Decides result (why_of given ≡ Taken k.0) }
{
    match given {
        Reason::Taken(batch) => batch.0 == k.0,
        Reason::Older(_, _) => false,
        Reason::Crossed(_, _, _) => false,
    }
}

/// Whether two reasons are the same.
fn is_same_reason(given: Reason, told: Reason) -> bool
    ensures { Decides result (why_of given ≡ why_of told) }
{
    match told {
        Reason::Older(a, older) => is_older(given, a, older),
        Reason::Crossed(before, behind, a) => is_crossed(given, before, behind, a),
        Reason::Taken(k) => is_taken(given, k),
    }
}

/// Whether an ACT is there and is given up so.
fn gives_up(act: Option<ActTale>, told: Reason) -> bool
    ensures { Decides result (TellsWhy act (why_of told)) }
{
    let Some(act) = act else {
        return false;
    };
    match act.given_up {
        Some(given) => is_same_reason(given, told),
        None => false,
    }
}

/// Whether an ACT is there with tid `own`, and died of this older one on this actor.
fn has_died(act: Option<ActTale>, a: ActorId, older: Tid, own: Tid) -> bool
    ensures { Decides result (TellsDeath act (Older a.0 older.0) own.0) }
{
    let Some(x) = act else {
        return false;
    };
    x.tid.0 == own.0 && gives_up(act, Reason::Older(a, older))
}

/// The cascade that began with batch k; `None` exactly where none did.
fn fall_of(told: &Told, k: Bid) -> Option<Fall>
    ensures { (w : Text) (s : Seen) → IsSound s → KnowsAll w told.now s → cuts_from k.0 result ≡ filter (λ c. c.first == k.0) s.cuts }
{
    if k.0 == 0 || k.0 > told.ways.len() as u64 {
        return None;
    }
    told.ways[k.0 as usize - 1].fall
}

/// Whether the cascade that began with batch k took this batch along.
fn reaches(fall: Option<Fall>, k: Bid, batch: Bid) -> bool
    ensures { result ≡ list_any (λ x. nat_le k.0 batch.0 && nat_le batch.0 x.upto) (cuts_from k.0 fall) }
{
    match fall {
        Some(f) => k.0 <= batch.0 && batch.0 <= f.upto.0,
        None => false,
    }
}

/// Whether the next Decide would have drawn number `at` when the cascade began.
fn began_at(fall: Option<Fall>, at: u64) -> bool
    ensures { (k : ℕ) → result ≡ list_any (λ x. x.at == at) (cuts_from k fall) }
{
    match fall {
        Some(f) => f.at == at,
        None => false,
    }
}

/// Whether transaction n is a PACT of a batch that the cascade of batch k took along.
fn is_taken_pact(told: &Told, by: &ByTx, n: TxNo, k: Bid) -> bool
    requires kept { n.0 < length by.now.batches.items }
    requires index { IsIndex has_pact told.now.tale.batches.items by.now.batches.items }
    ensures { (w : Text) (s : Seen) → IsSound s → KnowsAll w told.now s → Decides result (IsTakenPact s n.0 k.0) }
{
    match batch_of(by.batches.as_slice(), told.tale.batches.as_slice(), n) {
        Some(batch) => reaches(fall_of(told, k), k, batch),
        None => false,
    }
}

/// Whether transaction `failed` is told that batch k failed with it, and that cascade took transaction n along.
fn is_taken_along(told: &Told, by: &ByTx, n: TxNo, k: Bid, failed: TxNo) -> bool
    requires acts_kept { n.0 < length by.now.acts.items }
    requires acts { IsIndex is_act_for told.now.tale.acts.items by.now.acts.items }
    requires kept { n.0 < length by.now.batches.items }
    requires index { IsIndex has_pact told.now.tale.batches.items by.now.batches.items }
    ensures { (w : Text) (s : Seen) (ls : List papers.Line) → IsSound s → KnowsAll w told.now s → TellsCodes ls by.now.codes.items → Decides result (IsTakenAlong s ls n.0 k.0 failed.0) }
{
    if !tells_code(by.codes.as_slice(), failed, k) {
        return false;
    }
    if n.0 != failed.0 && is_taken_pact(told, by, n, k) {
        return true;
    }
    is_given_up(told, by, n, Reason::Taken(k))
}

/// Where batch k is kept; `None` exactly where none was formed with this number.
fn batch_place(told: &Told, k: Bid) -> Option<usize>
    ensures { MatchOption result ((k.0 ≡ 0) ⊎ (length told.now.tale.batches.items < k.0)) (λ at. (k.0 ≡ at + 1) × (at < length told.now.tale.batches.items)) }
{
    if k.0 == 0 || k.0 > told.tale.batches.len() as u64 {
        return None;
    }
    Some(k.0 as usize - 1)
}

/// Whether these PACTs, run behind what counts for batch k and number `at`, give values up to transaction n, which fails with this
/// code. `Memory` where they cannot be run for want of it.
fn fails_behind(
    alloc: Global,
    work: &Work,
    replies: &[LocatedReply],
    pacts: &[(Tid, TxNo)],
    n: TxNo,
    k: Bid,
    at: u64,
    code: u16,
) -> Result<bool, Memory>
    requires limits { KeepsLimits (work_of work.now) }
    requires named { AllByRecursion (λ reply. reply.tx.0 < length work.now.txs) replies.now }
    requires pacts { AllByRecursion (λ q. q.tx < length work.now.txs) (map batch_pact pacts.now) }
    ensures { IfOk result (λ yes. yes ≡ first_fails (language (work_of work.now)).meaning work.now.txs n.0 code (counted_world (language (work_of work.now)).meaning (first_text (work_of work.now)) k.0 at work.now.states (map done_of replies.now)) (map batch_pact pacts.now)) }
{
    let mut world = world_left_below(alloc, work, replies, k, at)?;
    first_fails(
        alloc,
        &work.program,
        work.txs.as_slice(),
        &mut world,
        pacts,
        n,
        code,
    )
}

/// Whether batch k was aborted when the next Decide would have drawn number `at`, and fails with transaction n and this code behind
/// what counts. `Memory` where it cannot be run for want of it.
fn fails_its_batch(
    alloc: Global,
    work: &Work,
    told: &Told,
    replies: &[LocatedReply],
    n: TxNo,
    k: Bid,
    at: u64,
    code: u16,
) -> Result<bool, Memory>
    requires limits { KeepsLimits (work_of work.now) }
    requires named { AllByRecursion (λ reply. reply.tx.0 < length work.now.txs) replies.now }
    requires pacts { AllByRecursion (HasTxsBelow (length work.now.txs)) told.now.tale.batches.items }
    ensures { IfOk result (λ yes. (s : Seen) (ls : List papers.Line) → IsSound s → KnowsAll (first_text (work_of work.now)) told.now s → map done_of replies.now ≡ by_place (located ls)
        → Decides yes (FailsItsBatch (language (work_of work.now)).meaning (first_text (work_of work.now)) s ls n.0 k.0 at code)) }
{
    if !began_at(fall_of(told, k), at) {
        return Ok(false);
    }
    let Some(place) = batch_place(told, k) else {
        return Ok(false);
    };
    let formed = &told.tale.batches[place].formed;
    fails_behind(alloc, work, replies, formed.txs.as_slice(), n, k, at, code)
}

/// Whether transaction n is an ACT that is first given up so.
fn is_given_up(told: &Told, by: &ByTx, n: TxNo, why: Reason) -> bool
    requires kept { n.0 < length by.now.acts.items }
    requires index { IsIndex is_act_for told.now.tale.acts.items by.now.acts.items }
    ensures { (w : Text) (s : Seen) → KnowsAll w told.now s → Decides result (IsGivenUpFor s n.0 (why_of why)) }
{
    let act = act_of(by.acts.as_slice(), told.tale.acts.as_slice(), n);
    gives_up(act, why)
}

/// Whether transaction n is an ACT with tid `own` that died of this older one on this actor.
fn dies(told: &Told, by: &ByTx, n: TxNo, a: ActorId, older: Tid, own: Tid) -> bool
    requires kept { n.0 < length by.now.acts.items }
    requires index { IsIndex is_act_for told.now.tale.acts.items by.now.acts.items }
    ensures { (w : Text) (s : Seen) → KnowsAll w told.now s → Decides result (HasDied s n.0 a.0 older.0 own.0) }
{
    let act = act_of(by.acts.as_slice(), told.tale.acts.as_slice(), n);
    has_died(act, a, older, own)
}

/// Whether the events have the evidence of this reply to transaction n; of one that tells a place or nothing, true. `Memory` where
/// a batch cannot be run for want of it.
fn is_evident(
    alloc: Global,
    work: &Work,
    told: &Told,
    by: &ByTx,
    replies: &[LocatedReply],
    n: TxNo,
    verdict: &Verdict,
) -> Result<bool, Memory>
    requires limits { KeepsLimits (work_of work.now) }
    requires named { AllByRecursion (λ reply. reply.tx.0 < length work.now.txs) replies.now }
    requires pacts { AllByRecursion (HasTxsBelow (length work.now.txs)) told.now.tale.batches.items }
    requires index { Indexes (length work.now.txs) told.now by.now }
    requires tx { n.0 < length work.now.txs }
    ensures { IfOk result (λ yes. (s : Seen) (ls front : List papers.Line) → Grounds (first_text (work_of work.now)) told.now by.now replies.now s ls
        → Decides yes (TellsEvidence (language (work_of work.now)).meaning (first_text (work_of work.now)) s ls front (papers.Reply n.0 verdict.now))) }
{
    match *verdict {
        Verdict::Committed { .. } => Ok(true),
        Verdict::Code { .. } => Ok(true),
        Verdict::BatchCode { batch, at, code } => {
            fails_its_batch(alloc, work, told, replies, n, batch, at, code)
        }
        Verdict::Cascade { batch, by: failed } => Ok(is_taken_along(told, by, n, batch, failed)),
        Verdict::Died { actor, older, own } => Ok(dies(told, by, n, actor, older, own)),
        Verdict::Order {
            before,
            after,
            actor,
        } => Ok(is_given_up(told, by, n, Reason::Crossed(before, after, actor))),
        Verdict::Unsure { .. } => Ok(true),
    }
}

/// Whether the events have the evidence of a line; of one that is no reply, true. `Memory` where a batch cannot be run for want of
/// it.
fn has_evidence(
    alloc: Global,
    work: &Work,
    told: &Told,
    by: &ByTx,
    replies: &[LocatedReply],
    line: &ReportLine,
) -> Result<bool, Memory>
    requires limits { KeepsLimits (work_of work.now) }
    requires named { AllByRecursion (λ reply. reply.tx.0 < length work.now.txs) replies.now }
    requires pacts { AllByRecursion (HasTxsBelow (length work.now.txs)) told.now.tale.batches.items }
    requires index { Indexes (length work.now.txs) told.now by.now }
    requires tx { NamesTransaction (length work.now.txs) (line_of line.now) }
    ensures { IfOk result (λ yes. (s : Seen) (ls front : List papers.Line) → Grounds (first_text (work_of work.now)) told.now by.now replies.now s ls
        → Decides yes (TellsEvidence (language (work_of work.now)).meaning (first_text (work_of work.now)) s ls front (line_of line.now))) }
{
    match line {
        ReportLine::Reply { tx, verdict } => is_evident(
            alloc, work, told, by, replies, *tx, verdict,
        ),
        ReportLine::Actor { .. } => Ok(true),
        ReportLine::End { .. } => Ok(true),
        ReportLine::Kept { .. } => Ok(true),
        ReportLine::Recovered { .. } => Ok(true),
    }
}

/// The number, from 1 on, of the first line whose evidence the events do not have; `None` exactly where they have that of each line.
/// The lines answer each transaction of the work once at most, and the batches that are told have transactions of the work alone.
/// `Memory` where there is no room. Linear in the transactions and the lines, but for the lines that tell that a batch failed: each
/// of these runs what counts for its batch, and the batch.
pub fn first_off_evidence(
    alloc: Global,
    work: &Work,
    told: &Told,
    lines: &[ReportLine],
) -> Result<Option<u64>, Memory>
    requires limits { KeepsLimits (work_of work.now) }
    requires pacts { AllByRecursion (HasTxsBelow (length work.now.txs)) told.now.tale.batches.items }
    requires answers { AreAnswers (length work.now.txs) (lines_of lines.now) }
    requires lines { length lines.now < 2 ^ 62 }
    ensures { IfOk result (λ at. (s : Seen) → IsSound s → KnowsAll (first_text (work_of work.now)) told.now s
        → MatchOption at (EachLine (TellsEvidence (language (work_of work.now)).meaning (first_text (work_of work.now)) s (lines_of lines.now)) [] (lines_of lines.now))
        (λ i. IsFirstOff (TellsEvidence (language (work_of work.now)).meaning (first_text (work_of work.now)) s (lines_of lines.now)) (lines_of lines.now) i)) }
{
    let by = by_tx(alloc, work.txs.len(), told, lines)?;
    let replies = located_by_place(alloc, lines)?;
    for (at, line) in lines.iter().enumerate() {
        if !has_evidence(alloc, work, told, &by, replies.as_slice(), line)? {
            return Ok(Some(at as u64 + 1));
        }
    }
    Ok(None)
}
