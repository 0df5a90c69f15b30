//! Crashes at any moment of a call.

ghost use Rattle.std.specs.Prelude.{◌≤◌};

use crate::crashes::{APPEND, CHOICES, OPENING};
use crate::ran::Ran;
use crate::texts::part;
use core_events::{Event, footprint};
use snap_base::Memory;
use snap_outside::MemLog;
use std::alloc::Global;
use std::test::Fail;

/// How many operations of the log are done when these events are taken: those of opening it, of Genesis and of its Syncs.
fn done_by(events: &[Event], log: u8) -> usize {
    let mut done = if log == 0 { OPENING + APPEND } else { OPENING };
    for event in events {
        if *event == Event::Sync(log) {
            done = done.saturating_add(APPEND);
        }
    }
    done
}

/// Whether the event needs the log, of one or of two.
fn needs(event: Event, log: u8, has_two: bool) -> bool {
    let parts = footprint(event, if has_two { 2 } else { 1 });
    for i in 0..parts.len() {
        if parts.part(i) == 4 + log as usize {
            return true;
        }
    }
    false
}

/// How many operations of the log may be done besides: those of its next Sync, where no other event needs the log before it.
fn begun_before(later: &[Event], log: u8, has_two: bool) -> usize
    ensures { result ≤ 4 }
{
    if log == 1 && !has_two {
        return 0;
    }
    for event in later {
        if needs(*event, log, has_two) {
            return if *event == Event::Sync(log) {
                APPEND
            } else {
                0
            };
        }
    }
    0
}

/// The lines of the replies among these events.
fn lines_of(alloc: Global, events: &[Event], output: &str) -> Result<String, Memory> {
    let mut lines = String::new(alloc);
    let mut rest = output.split('\n');
    for event in events {
        if let Event::Reply(_) = event {
            lines.push_str(rest.next().unwrap_or(""))?;
            lines.push_str("\n")?;
        }
    }
    Ok(lines)
}

/// What a crash may leave of the log, without those choices that leave what the first one does.
pub(crate) fn choices_of(alloc: Global, log: &MemLog, count: usize) -> Result<Vec<u8>, Memory> {
    let mut choices = Vec::new(alloc);
    let count = count.min(log.ops().len());
    let first = log.image(alloc, count, CHOICES[0])?;
    for choice in CHOICES {
        let image = log.image(alloc, count, choice)?;
        if choice == CHOICES[0] || image.as_slice() != first.as_slice() {
            choices.push(choice)?;
        }
    }
    Ok(choices)
}

/// Whether a crash behind so many operations of each log leaves what recovers to what was printed then.
fn is_stop(
    alloc: Global,
    asked: &str,
    whole: &Ran,
    printed: &str,
    counts: [usize; 2],
) -> Result<bool, Fail> {
    let name = part(asked, '|', 0);
    let [log, other, ..] = whole.0.logs.as_slice() else {
        return Ok(false);
    };
    let others = choices_of(alloc, other, counts[1])?;
    for first in choices_of(alloc, log, counts[0])?.as_slice() {
        for second in others.as_slice() {
            if !whole.is_recovered(alloc, name, printed, counts, [*first, *second])? {
                return Ok(false);
            }
        }
    }
    Ok(true)
}

/// Tells at which operations of the logs a crash behind these events, of which others come later, leaves what it should not.
fn tell_stops(
    alloc: Global,
    asked: &str,
    whole: &Ran,
    events: &[Event],
    later: &[Event],
    has_two: bool,
    told: &mut String,
) -> Result<(), Fail> {
    let printed = lines_of(alloc, events, whole.output())?;
    for first in 0..begun_before(later, 0, has_two) + 1 {
        for second in 0..begun_before(later, 1, has_two) + 1 {
            let counts = [
                done_by(events, 0).saturating_add(first),
                done_by(events, 1).saturating_add(second),
            ];
            if !is_stop(alloc, asked, whole, printed.as_str(), counts)? {
                let taken = events.len();
                told.push_str(&format!(in alloc;
                    "stopped behind {taken} events at {counts:?}; "
                )?)?;
            }
        }
    }
    Ok(())
}

/// Whether behind this event more was told or written than before it, or an append of a log may be under way.
fn moves(event: Event, later: &[Event], has_two: bool) -> bool {
    let is_told = matches!(event, Event::Reply(_) | Event::Sync(_));
    let begins = needs(event, 0, has_two) && begun_before(later, 0, has_two) != 0;
    let begins_other = needs(event, 1, has_two) && begun_before(later, 1, has_two) != 0;
    is_told || begins || begins_other
}

/// Tells at which moments a crash leaves what it should not.
pub(crate) fn tell_moments(
    alloc: Global,
    asked: &str,
    whole: &Ran,
    told: &mut String,
) -> Result<(), Fail> {
    let kept = whole.0.kept.as_slice();
    let has_two = match whole.0.logs.get(1) {
        Some(log) => log.ops().len() > OPENING,
        None => false,
    };
    for (log, number) in whole.0.logs.iter().zip(0..4) {
        if log.ops().len() != done_by(kept, number) {
            told.push_str("other operations; ")?;
        }
    }
    for taken in 0..kept.len() + 1 {
        let (events, later) = kept.split_at(taken);
        let is_other = match events.last() {
            Some(event) => moves(*event, later, has_two),
            None => true,
        };
        if is_other {
            tell_stops(alloc, asked, whole, events, later, has_two, told)?;
        }
    }
    Ok(())
}
