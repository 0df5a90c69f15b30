//! The verdict that the last words of a reply tell. Each kind has a reader of its own.
ghost use Rattle.std.specs.Prelude.{◌≡◌, ◌≢◌, ℕ, ℤ, MatchOption};
ghost use Rattle.snap_base.specs.declared.ids.ActorId as ids_actor;
ghost use Rattle.snap_base.specs.declared.ids.Bid as ids_bid;
ghost use Rattle.snap_base.specs.declared.ids.Tid as ids_tid;
ghost use Rattle.snap_base.specs.declared.ids.TxNo as ids_tx;
ghost use Rattle.snap_base.specs.declared.verdicts.Place as places;
ghost use Rattle.snap_base.specs.declared.verdicts.Verdict as verdict;
ghost use Rattle.snap_base.specs.declared.verdicts.Verdict.TheVariants as verdicts;
ghost use Rattle.audit_words.specs.Papers.{IsVerdict};
ghost use Rattle.audit_papers.specs.LineWords.{texts, verdict_words};

use crate::words::{behind_word, last_named, last_number, last_signed, named, number, place};
use snap_base::{ActorId, Bid, Tid, TxNo, Verdict};

/// `committed PLACE VALUE`
fn committed(words: &[&[u8]]) -> Option<Verdict>
    ensures { MatchOption result ((p : places.Place) (v : ℤ) → IsVerdict (verdicts.Committed p v) → texts words.now ≢ verdict_words (verdicts.Committed p v)) (λ v. IsVerdict v × (texts words.now ≡ verdict_words v)) }
{
    let rest = behind_word(words, b"committed")?;
    let (place, last) = place(rest)?;
    let value = last_signed(last)?;
    Some(Verdict::Committed { place, value })
}

/// `code PLACE CODE`
fn code(words: &[&[u8]]) -> Option<Verdict>
    ensures { MatchOption result ((p : places.Place) (code : ℕ) → IsVerdict (verdicts.Code p code) → texts words.now ≢ verdict_words (verdicts.Code p code)) (λ v. IsVerdict v × (texts words.now ≡ verdict_words v)) }
{
    let rest = behind_word(words, b"code")?;
    let (place, last) = place(rest)?;
    let code = last_number(last, u16::MAX as u64)?;
    Some(Verdict::Code {
        place,
        code: code as u16,
    })
}

/// `batchcode BATCH AT CODE`
fn batch_code(words: &[&[u8]]) -> Option<Verdict>
    ensures { MatchOption result ((k : ids_bid.Bid) (at code : ℕ) → IsVerdict (verdicts.BatchCode k at code) → texts words.now ≢ verdict_words (verdicts.BatchCode k at code)) (λ v. IsVerdict v × (texts words.now ≡ verdict_words v)) }
{
    let (batch, rest) = named(words, b"batchcode", u64::MAX)?;
    let (at, last) = number(rest, u64::MAX)?;
    let code = last_number(last, u16::MAX as u64)?;
    Some(Verdict::BatchCode {
        batch: Bid(batch),
        at,
        code: code as u16,
    })
}

/// `cascade BATCH TX`
fn cascade(words: &[&[u8]]) -> Option<Verdict>
    ensures { MatchOption result ((k : ids_bid.Bid) (by : ids_tx.TxNo) → IsVerdict (verdicts.Cascade k by) → texts words.now ≢ verdict_words (verdicts.Cascade k by)) (λ v. IsVerdict v × (texts words.now ≡ verdict_words v)) }
{
    let (batch, last) = named(words, b"cascade", u64::MAX)?;
    let by = last_number(last, u32::MAX as u64)?;
    Some(Verdict::Cascade {
        batch: Bid(batch),
        by: TxNo(by as u32),
    })
}

/// `died actor ACTOR older TID own TID`
fn died(words: &[&[u8]]) -> Option<Verdict>
    ensures { MatchOption result ((a : ids_actor.ActorId) (older own : ids_tid.Tid) → IsVerdict (verdicts.Died a older own) → texts words.now ≢ verdict_words (verdicts.Died a older own)) (λ v. IsVerdict v × (texts words.now ≡ verdict_words v)) }
{
    let first = behind_word(words, b"died")?;
    let (actor, second) = named(first, b"actor", u16::MAX as u64)?;
    let (older, third) = named(second, b"older", u64::MAX)?;
    let own = last_named(third, b"own", u64::MAX)?;
    Some(Verdict::Died {
        actor: ActorId(actor as u16),
        older: Tid(older),
        own: Tid(own),
    })
}

/// `order before BATCH after BATCH actor ACTOR`
fn order(words: &[&[u8]]) -> Option<Verdict>
    ensures { MatchOption result ((m n : ids_bid.Bid) (a : ids_actor.ActorId) → IsVerdict (verdicts.Order m n a) → texts words.now ≢ verdict_words (verdicts.Order m n a)) (λ v. IsVerdict v × (texts words.now ≡ verdict_words v)) }
{
    let first = behind_word(words, b"order")?;
    let (before, second) = named(first, b"before", u64::MAX)?;
    let (after, third) = named(second, b"after", u64::MAX)?;
    let actor = last_named(third, b"actor", u16::MAX as u64)?;
    Some(Verdict::Order {
        before: Bid(before),
        after: Bid(after),
        actor: ActorId(actor as u16),
    })
}

/// `unsure LOG`
fn unsure(words: &[&[u8]]) -> Option<Verdict>
    ensures { MatchOption result ((l : ℕ) → IsVerdict (verdicts.Unsure l) → texts words.now ≢ verdict_words (verdicts.Unsure l)) (λ v. IsVerdict v × (texts words.now ≡ verdict_words v)) }
{
    let log = last_named(words, b"unsure", u8::MAX as u64)?;
    Some(Verdict::Unsure { log: log as u8 })
}

/// The verdict that words tell; `None` exactly where they tell none.
pub(crate) fn verdict_of(words: &[&[u8]]) -> Option<Verdict>
    ensures { MatchOption result ((v : verdict.Verdict) → IsVerdict v → texts words.now ≢ verdict_words v) (λ v. IsVerdict v × (texts words.now ≡ verdict_words v)) }
{
    if let Some(verdict) = committed(words) {
        return Some(verdict);
    }
    if let Some(verdict) = code(words) {
        return Some(verdict);
    }
    if let Some(verdict) = batch_code(words) {
        return Some(verdict);
    }
    if let Some(verdict) = cascade(words) {
        return Some(verdict);
    }
    if let Some(verdict) = died(words) {
        return Some(verdict);
    }
    if let Some(verdict) = order(words) {
        return Some(verdict);
    }
    unsure(words)
}
