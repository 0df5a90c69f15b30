//! Rows, and what is not as they say.
//!
//! The first line of a row tells what is shown, the second one what runs. Each line behind them tells what happens or what shows:
//!
//! - `does`: these events are taken, each in its turn, apart by `, `
//! - `refuses`, with a rule: each of these events is refused by it
//! - `picks`, with a seed: its words pick these events, and they are taken; seed 0 picks the first one allowed
//! - `goes on`: the first event that is allowed is taken, until none is
//! - `is quiet`: no event is allowed
//! - `fields`, with an actor: the first fields of so many actors, from that one on
//! - `replies`: the lines of the transactions of which it is known what became of them, apart by `, `
//!
//! Rows stand apart by an empty line.

use crate::acts::ACTS;
use crate::batches::BATCHES;
use crate::cascades::CASCADES;
use crate::schedules::SCHEDULES;
use crate::stepping::Machine;
use crate::telling::{tell_fields, tell_replies};
use crate::texts::{halves, number_of};
use std::alloc::Global;
use std::test::Fail;

/// What happens or shows in a line.
#[derive(Clone, Copy)]
enum Word {
    Does,
    Refuses,
    Picks,
    GoesOn,
    IsQuiet,
    Fields,
    Replies,
}

fn word_of(word: &str) -> Option<Word> {
    match word {
        "does" => Some(Word::Does),
        "refuses" => Some(Word::Refuses),
        "picks" => Some(Word::Picks),
        "goes" => Some(Word::GoesOn),
        "is" => Some(Word::IsQuiet),
        "fields" => Some(Word::Fields),
        "replies" => Some(Word::Replies),
        _ => None,
    }
}

/// Does what a word says with what stands behind it, and tells what is not so.
fn tell(
    alloc: Global,
    machine: &mut Machine,
    word: Word,
    rest: &str,
    told: &mut String,
) -> Result<(), Fail> {
    let (number, behind) = halves(rest, ": ");
    let number = number_of(number);
    match word {
        Word::Does => machine.tell_answers(alloc, rest, 0, told),
        Word::Refuses => machine.tell_answers(alloc, behind, number, told),
        Word::Picks => machine.tell_picks(alloc, behind, number as u64, told),
        Word::GoesOn => machine.go_on(alloc, told),
        Word::IsQuiet => machine.tell_allowed(alloc, told),
        Word::Fields => Ok(tell_fields(alloc, machine.core(), number, behind, told)?),
        Word::Replies => Ok(tell_replies(alloc, machine.core(), rest, told)?),
    }
}

/// Does what the line says, and tells what is not so.
fn tell_line(
    alloc: Global,
    machine: &mut Machine,
    line: &str,
    told: &mut String,
) -> Result<(), Fail> {
    let (word, rest) = halves(line, " ");
    match word_of(word) {
        Some(word) => tell(alloc, machine, word, rest, told),
        None => Err("the word of a line".into()),
    }
}

/// Does what the lines say with what runs, and tells what is not so.
fn tell_lines(alloc: Global, asked: &str, lines: &str, told: &mut String) -> Result<(), Fail> {
    let mut machine = Machine::open(alloc, asked)?;
    for line in lines.split('\n') {
        tell_line(alloc, &mut machine, line, told)?;
    }
    Ok(())
}

/// Tells what is not as the row says, and what it shows, where something is not.
fn tell_row(alloc: Global, row: &str, told: &mut String) -> Result<(), Fail> {
    let (shows, rest) = halves(row, "\n");
    let (asked, lines) = halves(rest, "\n");
    let before = told.len();
    tell_lines(alloc, asked, lines, told)?;
    if told.len() != before {
        told.push_str(shows)?;
        told.push_str("\n")?;
    }
    Ok(())
}

/// What is not as the rows say: nothing, where all is.
fn untrue(alloc: Global, rows: &str) -> Result<String, Fail> {
    let mut told = String::new(alloc);
    for row in rows.split("\n\n") {
        tell_row(alloc, row, &mut told)?;
    }
    Ok(told)
}

#[test]
fn cores_do_as_the_rows_say(rt: HostRuntime) -> Result<(), Fail> {
    let alloc = rt.alloc();
    for rows in [BATCHES, ACTS, CASCADES, SCHEDULES] {
        assert_eq!(rt; untrue(alloc, rows)?.as_str(), "");
    }
    Ok(())
}
