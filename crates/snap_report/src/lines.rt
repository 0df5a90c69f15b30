//! The lines of replies, of actors, of a run's end, and of what logs recover to.
ghost use Rattle.std.specs.Prelude.{◌≡◌, ◌<◌, ◌≤◌, ◌++◌, IfOk, codes, string_bytes, length, take};
ghost use Rattle.std.specs.Fmt.{decimal, signed_decimal};
ghost use Rattle.snap_base.specs.Text.{place_text, verdict_text};
ghost use Rattle.snap_report.specs.Lines.{reply_text, actor_text, end_text, recovered_text, kept_text, migrated_text, compacted_text, following_text, shown_fields};

use itoa::Buffer;
use snap_base::{ActorId, Memory, Place, State, TxNo, Verdict};
use snap_recover::Opening;
use std::alloc::Global;
use std::fmt::Write;

/// The bytes that a reply's or a kept transaction's line has room for at once.
const REPLY: usize = 64;

/// The bytes that an actor's line has room for at once.
const ACTOR: usize = 64;

/// The line of a reply to a transaction.
pub fn reply_line(alloc: Global, tx: TxNo, verdict: &Verdict) -> Result<String, Memory>
    ensures { IfOk result (λ s. string_bytes s ≡ reply_text tx.0 verdict.now) }
{
    let mut line = String::with_capacity(alloc, REPLY)?;
    line.push_str("tx ")?;
    push_number(&mut line, tx.0 as u64)?;
    line.push(' ')?;
    push_verdict(&mut line, verdict)?;
    line.push('\n')?;
    Ok(line)
}

/// Appends what became of a transaction.
fn push_verdict(line: &mut String, verdict: &Verdict) -> Result<(), Memory>
    ensures { IfOk result (λ _. string_bytes line.new ≡ string_bytes line.old ++ verdict_text verdict.now) }
{
    let Verdict::Committed { place, value } = *verdict else {
        write!(line, "{verdict}")?;
        return Ok(());
    };
    line.push_str("committed ")?;
    push_place(line, place)?;
    line.push(' ')?;
    push_value(line, value)
}

/// Appends a place.
fn push_place(line: &mut String, place: Place) -> Result<(), Memory>
    ensures { IfOk result (λ _. string_bytes line.new ≡ string_bytes line.old ++ place_text place) }
{
    push_number(line, place.batch.0)?;
    line.push('.')?;
    push_number(line, place.side as u64)?;
    line.push('.')?;
    push_number(line, place.order)
}

/// Appends a number.
fn push_number(line: &mut String, number: u64) -> Result<(), Memory>
    ensures { IfOk result (λ _. string_bytes line.new ≡ string_bytes line.old ++ decimal number) }
{
    line.push_str(Buffer::new().format(number))?;
    Ok(())
}

/// Appends a value.
fn push_value(line: &mut String, value: i64) -> Result<(), Memory>
    ensures { IfOk result (λ _. string_bytes line.new ≡ string_bytes line.old ++ signed_decimal value) }
{
    line.push_str(Buffer::new().format(value))?;
    Ok(())
}

/// The line of an actor: its fields up to the last that is not 0, and at least one.
pub fn actor_line(alloc: Global, actor: ActorId, state: &State) -> Result<String, Memory>
    ensures { IfOk result (λ s. string_bytes s ≡ actor_text actor.0 state.now) }
{
    let mut line = String::with_capacity(alloc, ACTOR)?;
    line.push_str("actor ")?;
    push_number(&mut line, actor.0 as u64)?;
    let fields = state.0.as_slice();
    for value in &fields[..shown(fields)] {
        push_field(&mut line, *value)?;
    }
    line.push('\n')?;
    Ok(line)
}

/// Appends a field, with a blank in front.
fn push_field(line: &mut String, value: i64) -> Result<(), Memory>
    ensures { IfOk result (λ _. string_bytes line.new ≡ string_bytes line.old ++ (codes " " ++ signed_decimal value)) }
{
    line.push(' ')?;
    push_value(line, value)
}

/// How many fields of an actor are shown: up to the last that is not 0, and at least one.
pub fn shown(fields: &[i64]) -> usize
    requires { 0 < length fields.now }
    ensures within { result ≤ length fields.now }
    ensures shown { take result fields.now ≡ shown_fields fields.now }
{
    let mut count = 1;
    for at in 1..fields.len() {
        let field = fields[at];
        if field != 0 {
            count = at + 1;
        }
    }
    count
}

/// The line of a run's end: how many transactions committed, how many had another reply, and how many batches
/// were settled.
pub fn end_line(alloc: Global, committed: u32, aborted: u32, batches: u32) -> Result<String, Memory>
    ensures { IfOk result (λ s. string_bytes s ≡ end_text committed aborted batches) }
{
    Ok(format!(in alloc; "end committed {committed} aborted {aborted} batches {batches}\n")?)
}

/// The line of what logs recover to, behind the lines of the actors: how many batches and how many transactions
/// outside of batches are committed, and the next transaction's, batch's and commit's number.
pub fn recovered_line(
    alloc: Global,
    batches: u64,
    acts: u64,
    opening: &Opening,
) -> Result<String, Memory>
    ensures { IfOk result (λ s. string_bytes s ≡ recovered_text batches acts opening.now) }
{
    let (tid, bid, c) = (opening.next_tid, opening.next_bid, opening.next_c);
    Ok(format!(in alloc; "recovered batches {batches} acts {acts} next {tid} {bid} {c}\n")?)
}

/// The line of a transaction that is kept: its place, and the value that it was committed with, where that is known.
pub fn kept_line(alloc: Global, place: Place, value: Option<i64>) -> Result<String, Memory>
    ensures { IfOk result (λ s. string_bytes s ≡ kept_text place value) }
{
    let mut line = String::with_capacity(alloc, REPLY)?;
    line.push_str("kept ")?;
    push_place(&mut line, place)?;
    line.push(' ')?;
    match value {
        Some(value) => push_value(&mut line, value)?,
        None => line.push_str("unknown")?,
    }
    line.push('\n')?;
    Ok(line)
}

/// The line of a migration: how many logs were made ones of format 2.
pub fn migrated_line(alloc: Global, logs: u8) -> Result<String, Memory>
    ensures { IfOk result (λ s. string_bytes s ≡ migrated_text logs) }
{
    Ok(format!(in alloc; "migrated {logs}\n")?)
}

/// The line of a compaction: the generation of the checkpoint that it wrote.
pub fn compacted_line(alloc: Global, generation: u64) -> Result<String, Memory>
    ensures { IfOk result (λ s. string_bytes s ≡ compacted_text generation) }
{
    Ok(format!(in alloc; "compacted {generation}\n")?)
}

/// The last line of a follower, behind the lines of the actors: how many batches and how many transactions outside of batches it has
/// taken in, with those before a checkpoint.
pub fn following_line(alloc: Global, batches: u64, acts: u64) -> Result<String, Memory>
    ensures { IfOk result (λ s. string_bytes s ≡ following_text batches acts) }
{
    Ok(format!(in alloc; "following batches {batches} acts {acts}\n")?)
}
