//! Lines that give actors their states.

ghost use Rattle.std.specs.Prelude.{◌≡◌, ℕ, ◌<◌, ◌≤◌, List, length, map, IfOk, IsTrue, ◌↔◌, IfSome, MatchOption};
ghost use Rattle.work_text.specs.Readings.{Is};
ghost use Rattle.work_text.specs.Actors as spec;
ghost use Rattle.work_text.specs.Parts.{NamesActor};
ghost use Rattle.work_text.specs.Cursors.{line_of};

use crate::faults::at_line;
use crate::numbers::{actor_of, numbers, words_of};
use crate::texts::Line;
use snap_base::FIELDS;
use snap_work::{Limit, WorkCause, WorkNo};
use std::alloc::{AllocError, Global};

// Whether an actor is above the one that was named before it, if any.
fn ascends(last: Option<u16>, actor: u16) -> bool
    ensures { IsTrue result ↔ IfSome last (λ before. before < actor) }
{
    match last {
        Some(before) => before < actor,
        None => true,
    }
}

// The actor that words name, where values stand behind.
fn names_actor(words: &[&[u8]], actors: u16, last: Option<u16>) -> Option<u16>
    ensures { MatchOption result ((a : ℕ) → ¬ NamesActor actors last (map (λ word. word.now) words.now) a) (NamesActor actors last (map (λ word. word.now) words.now)) }
{
    if words.len() < 3 || words[0] != b"actor".as_slice() {
        return None;
    }
    let actor = actor_of(words[1], actors)?;
    if !ascends(last, actor) {
        return None;
    }
    Some(actor)
}

// The actor that a line names, and its values.
fn named(
    alloc: Global,
    actors: u16,
    last: Option<u16>,
    line: &[u8],
) -> Result<Option<(u16, Vec<i64>)>, AllocError>
    ensures { IfOk result (λ read. MatchOption read ((n : spec.Named) → ¬ spec.Names actors last line.now n) (λ x. spec.Names actors last line.now (record { actor = x.0; values = x.1.items }))) }
{
    let words = words_of(alloc, line)?;
    let Some(actor) = names_actor(&words, actors, last) else {
        return Ok(None);
    };
    let Some(values) = numbers(alloc, &words[2..])? else {
        return Ok(None);
    };
    Ok(Some((actor, values)))
}

/// The actor that a line names, and its values, at most `FIELDS`; the actor that was named last, if any.
pub(crate) fn actor(
    alloc: Global,
    actors: u16,
    last: Option<u16>,
    line: Line<'_>,
) -> Result<(u16, Vec<i64>), WorkNo>
    ensures reads { Is (λ x. record { actor = x.0; values = x.1.items }) result (spec.actor actors last (line_of line.entry)) }
    ensures within { IfOk result (λ x. length x.1.items ≤ FIELDS) }
{
    let Some((actor, values)) = named(alloc, actors, last, line.bytes)? else {
        return Err(at_line(line.number, WorkCause::BadActor));
    };
    if values.len() > FIELDS {
        let cause = WorkCause::Limit {
            which: Limit::Fields,
            found: values.len() as u64,
        };
        return Err(at_line(line.number, cause));
    }
    Ok((actor, values))
}
