//! The line of a report that words are, and the lines of a report. Each kind of line has a reader of its own.
ghost use Rattle.std.specs.Prelude.{◌≡◌, ◌≢◌, ℕ, ℤ, ◌<◌, ◌^◌, List, [], ◌∷◌, Option, IfOk, IfSome, MatchOption, MatchResult, FitsSigned, length};
ghost use Rattle.std.specs.Int.{w64};
ghost use Rattle.snap_base.specs.Lines.{lines};
ghost use Rattle.snap_report.specs.Lines.{value_text};
ghost use Rattle.snap_base.specs.declared.verdicts.Place as places;
ghost use Rattle.snap_base.specs.declared.verdicts.Verdict as verdict;
ghost use Rattle.audit_words.specs.Papers as papers;
ghost use Rattle.audit_words.specs.Papers.{IsWellFormedLine, IsReport, line_text};
ghost use Rattle.audit_papers.specs.LineWords.{line_words, texts};
ghost use Rattle.audit_papers.specs.ReportLines.{IsNoActorLine, IsReportNo, line_of, lines_of};

use crate::parts::first_line;
use crate::verdict_words::verdict_of;
use crate::words::{
    all_signed, behind_word, last_named, last_number, last_signed, named, number, place, words_of,
};
use crate::{ReportLine, ReportNo};
use snap_base::{ActorId, FIELDS, Sequence, TxNo};
use std::alloc::{AllocError, Global};

/// `tx TX VERDICT`
fn reply(words: &[&[u8]]) -> Option<ReportLine>
    ensures { MatchOption result ((n : ℕ) (v : verdict.Verdict) → IsWellFormedLine (papers.Reply n v) → texts words.now ≢ line_words (papers.Reply n v)) (λ l. IsWellFormedLine (line_of l) × (texts words.now ≡ line_words (line_of l))) }
{
    let (tx, rest) = named(words, b"tx", u32::MAX as u64)?;
    let verdict = verdict_of(rest)?;
    Some(ReportLine::Reply {
        tx: TxNo(tx as u32),
        verdict,
    })
}

/// `actor ACTOR FIELD ..`, with 1 to 16 fields
fn actor(alloc: Global, words: &[&[u8]]) -> Result<Option<ReportLine>, AllocError>
    ensures { IfOk result (λ read. MatchOption read ((a : ℕ) (fields : List ℤ) → IsWellFormedLine (papers.Actor a fields) → texts words.now ≢ line_words (papers.Actor a fields)) (λ l. IsWellFormedLine (line_of l) × (texts words.now ≡ line_words (line_of l)))) }
{
    let Some((actor, rest)) = named(words, b"actor", u16::MAX as u64) else {
        return Ok(None);
    };
    if rest.is_empty() || rest.len() > FIELDS {
        return Ok(None);
    }
    let Some(fields) = all_signed(alloc, rest)? else {
        return Ok(None);
    };
    Ok(Some(ReportLine::Actor {
        actor: ActorId(actor as u16),
        fields: Sequence::from_vec(fields),
    }))
}

/// `end committed COUNT aborted COUNT batches COUNT`
fn end(words: &[&[u8]]) -> Option<ReportLine>
    ensures { MatchOption result ((x y z : ℕ) → IsWellFormedLine (papers.End x y z) → texts words.now ≢ line_words (papers.End x y z)) (λ l. IsWellFormedLine (line_of l) × (texts words.now ≡ line_words (line_of l))) }
{
    let first = behind_word(words, b"end")?;
    let (committed, second) = named(first, b"committed", u64::MAX)?;
    let (aborted, third) = named(second, b"aborted", u64::MAX)?;
    let batches = last_named(third, b"batches", u64::MAX)?;
    Some(ReportLine::End {
        committed,
        aborted,
        batches,
    })
}

/// The value that is all that stands there, or the word `unknown`.
fn value(words: &[&[u8]]) -> Option<Option<i64>>
    ensures { MatchOption result ((v : Option ℤ) → IfSome v (FitsSigned w64) → texts words.now ≢ value_text v ∷ []) (λ v. IfSome v (FitsSigned w64) × (texts words.now ≡ value_text v ∷ [])) }
{
    if let Some(rest) = behind_word(words, b"unknown") {
        if rest.is_empty() {
            return Some(None);
        }
        return None;
    }
    let value = last_signed(words)?;
    Some(Some(value))
}

/// `kept PLACE VALUE`, or `unknown` where the value is not known
fn kept(words: &[&[u8]]) -> Option<ReportLine>
    ensures { MatchOption result ((p : places.Place) (v : Option ℤ) → IsWellFormedLine (papers.Kept p v) → texts words.now ≢ line_words (papers.Kept p v)) (λ l. IsWellFormedLine (line_of l) × (texts words.now ≡ line_words (line_of l))) }
{
    let rest = behind_word(words, b"kept")?;
    let (place, last) = place(rest)?;
    let value = value(last)?;
    Some(ReportLine::Kept { place, value })
}

/// `recovered batches COUNT acts COUNT next TID BID NUMBER`
fn recovered(words: &[&[u8]]) -> Option<ReportLine>
    ensures { MatchOption result ((x y t k c : ℕ) → IsWellFormedLine (papers.Recovered x y t k c) → texts words.now ≢ line_words (papers.Recovered x y t k c)) (λ l. IsWellFormedLine (line_of l) × (texts words.now ≡ line_words (line_of l))) }
{
    let first = behind_word(words, b"recovered")?;
    let (batches, second) = named(first, b"batches", u64::MAX)?;
    let (acts, third) = named(second, b"acts", u64::MAX)?;
    let (next_tid, fourth) = named(third, b"next", u64::MAX)?;
    let (next_bid, last) = number(fourth, u64::MAX)?;
    let next_c = last_number(last, u64::MAX)?;
    Some(ReportLine::Recovered {
        batches,
        acts,
        next_tid,
        next_bid,
        next_c,
    })
}

/// The line that words are, where that tells no actor's fields.
fn no_actor(words: &[&[u8]]) -> Option<ReportLine>
    ensures { MatchOption result ((l : papers.Line) → IsNoActorLine l → IsWellFormedLine l → texts words.now ≢ line_words l) (λ l. IsWellFormedLine (line_of l) × (texts words.now ≡ line_words (line_of l))) }
{
    if let Some(line) = reply(words) {
        return Some(line);
    }
    if let Some(line) = end(words) {
        return Some(line);
    }
    if let Some(line) = kept(words) {
        return Some(line);
    }
    recovered(words)
}

/// The line that words are; `None` exactly where they are none.
fn line_with(alloc: Global, words: &[&[u8]]) -> Result<Option<ReportLine>, AllocError>
    ensures { IfOk result (λ read. MatchOption read ((l : papers.Line) → IsWellFormedLine l → texts words.now ≢ line_words l) (λ l. IsWellFormedLine (line_of l) × (texts words.now ≡ line_words (line_of l)))) }
{
    if let Some(line) = no_actor(words) {
        return Ok(Some(line));
    }
    actor(alloc, words)
}

/// The line of a report that a line is; `None` exactly where it is of no form.
fn line_read(alloc: Global, line: &[u8]) -> Result<Option<ReportLine>, AllocError>
    ensures { IfOk result (λ read. MatchOption read ((l : papers.Line) → IsWellFormedLine l → line.now ≢ line_text l) (λ l. IsWellFormedLine (line_of l) × (line.now ≡ line_text (line_of l)))) }
{
    let words = words_of(alloc, line)?;
    line_with(alloc, words.as_slice())
}

/// The first line of a text, and what lies behind it.
fn next_line<'a>(rest: &'a [u8]) -> (&'a [u8], &'a [u8])
    requires { 0 < length rest.now }
    ensures cut { lines rest.now ≡ result.0.now ∷ lines result.1.now }
    ensures onward { length result.1.now < length rest.now }
{
    let (line, next) = first_line(rest);
    (line, &rest[next..])
}

/// The lines of a report, in their order; the last one may lack its line feed. Else the first line, from 1 on, that is of no
/// form, whatever stands behind it; or `Memory`. Linear in the bytes.
pub fn parse_report(alloc: Global, text: &[u8]) -> Result<Vec<ReportLine>, ReportNo>
    requires { length text.now < 2 ^ 32 }
    ensures { MatchResult result (λ v. IsReport text.now (lines_of v.items)) (λ why. IsReportNo text.now why) }
{
    let mut found = Vec::new(alloc);
    let mut rest = text;
    let mut line: u32 = 0;
    while !rest.is_empty() {
        line += 1;
        let (first, behind) = next_line(rest);
        let Some(read) = line_read(alloc, first)? else {
            return Err(ReportNo::Line { line });
        };
        found.push(read)?;
        rest = behind;
    }
    Ok(found)
}
