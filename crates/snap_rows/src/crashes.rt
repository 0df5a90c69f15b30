//! What a crash leaves of a call, and whether that recovers to what was printed.

use crate::failing::{NONE, Place};
use crate::ran::{Ran, perform_on};
use crate::texts::{TEXTS, number_at, part, text_of};
use snap_base::Memory;
use snap_outside::MemLog;
use snap_recover::LogCause;
use snap_report::Status;
use std::alloc::Global;
use std::test::Fail;

/// What any crash leaves of what is not synced: nothing, all, or this byte in its place.
pub(crate) const CHOICES: [u8; 4] = [0, 1, ALL, 0x7F];

/// The choice by which a crash leaves all that is not synced.
const ALL: u8 = 2;

impl Ran {
    /// The logs that a crash leaves behind so many operations of log 0 and of log 1, as far as they go, with a choice for each.
    fn images(
        &self,
        alloc: Global,
        counts: [usize; 2],
        choices: [u8; 2],
    ) -> Result<Vec<MemLog>, Memory> {
        let mut logs = Vec::new(alloc);
        for (number, log) in self.0.logs.iter().enumerate() {
            let (count, choice) = match number {
                0 => (counts[0], choices[0]),
                _ => (counts[1], choices[1]),
            };
            let image = log.image(alloc, count.min(log.ops().len()), choice)?;
            logs.push(MemLog::new(alloc, image, Vec::new(alloc))?)?;
        }
        Ok(logs)
    }

    /// How `recover` ends on what a crash leaves that keeps all.
    pub(crate) fn recovered(&self, alloc: Global) -> Result<Ran, Fail> {
        let logs = self.images(alloc, EACH, [ALL, ALL])?;
        perform_on(alloc, "recover", "", logs, NONE)
    }

    /// Whether log 0 has done the operations of opening it and of Genesis by then.
    fn has_genesis(&self, counts: [usize; 2]) -> bool {
        match self.0.logs.first() {
            Some(log) => counts[0].min(log.ops().len()) >= OPENING + APPEND,
            None => false,
        }
    }

    /// Whether what a crash then leaves recovers to what was printed, and is what a further run of the text goes on from.
    pub(crate) fn is_recovered(
        &self,
        alloc: Global,
        name: &str,
        printed: &str,
        counts: [usize; 2],
        choices: [u8; 2],
    ) -> Result<bool, Fail> {
        let text = text_of(alloc, name)?;
        let logs = self.images(alloc, counts, choices)?;
        let recovered = perform_on(alloc, "recover", "", logs, NONE)?;
        let logs = self.images(alloc, counts, choices)?;
        let again = perform_on(alloc, "run", text.as_str(), logs, NONE)?;
        if self.has_genesis(counts) && !recovered.is_done() {
            return Ok(false);
        }
        Ok(again.is_done() && agree(alloc, name, printed, &recovered)?)
    }
}

/// How many operations the opening of a new log makes on its device.
pub(crate) const OPENING: usize = 2;

/// How many operations an append makes on a log's device.
pub(crate) const APPEND: usize = 4;

/// As many operations as there are.
const EACH: [usize; 2] = [usize::MAX, usize::MAX];

/// The answer to logs without a Genesis.
const NO_GENESIS: Status = Status::Logs {
    log: 0,
    offset: 0,
    cause: LogCause::NoGenesis,
};

/// The marks in actors' lines: the second field of each.
fn marks_in(lines: &str) -> u64 {
    let mut marks = 0;
    for line in lines.split('\n') {
        if part(line, ' ', 0) == "actor" {
            marks |= number_at(line, 3);
        }
    }
    marks
}

/// Whether a line tells of a transaction what these marks show; of one that is unsure it tells nothing.
fn tells_truly(line: &str, marks: u64) -> bool {
    let verdict = part(line, ' ', 2);
    if part(line, ' ', 0) != "tx" || verdict == "unsure" {
        return true;
    }
    let is_in = marks >> (number_at(line, 1) % 64) & 1 == 1;
    is_in == (verdict == "committed")
}

/// The states that the text with this name may leave; empty where it has marks.
fn states_of(name: &str) -> &'static str {
    for line in TEXTS.split('\n') {
        if part(line, '|', 0) == name {
            return part(line, '|', 3);
        }
    }
    ""
}

/// Whether the word is one of these.
fn has_word(words: &str, word: &str) -> bool {
    for one in words.split(' ') {
        if one == word {
            return true;
        }
    }
    false
}

/// Whether these numbers, apart by blanks, have each transaction that was told to be committed.
fn has_committed(numbers: &str, printed: &str) -> bool {
    for line in printed.split('\n') {
        let is_committed = part(line, ' ', 0) == "tx" && part(line, ' ', 2) == "committed";
        if is_committed && !has_word(numbers, part(line, ' ', 1)) {
            return false;
        }
    }
    true
}

/// Whether just these lines of actors are recovered.
fn has_actors(lines: &str, recovered: &str) -> bool {
    match recovered.strip_prefix(lines) {
        Some(rest) => rest.starts_with("kept ") || rest.starts_with("recovered "),
        None => false,
    }
}

/// Whether each reply that a transaction was committed is kept, with its place and its result.
pub(crate) fn are_kept(printed: &str, recovered: &str) -> bool {
    for line in printed.split('\n') {
        if let Some((word, reply)) = line.split_once(" committed ") {
            if word.starts_with("tx ") && !is_kept(reply, recovered) {
                return false;
            }
        }
    }
    true
}

/// Whether one of these lines keeps this place and result.
fn is_kept(reply: &str, recovered: &str) -> bool {
    for line in recovered.split('\n') {
        if line.strip_prefix("kept ") == Some(reply) {
            return true;
        }
    }
    false
}

/// Whether one of the states that may be left, with each transaction that was told to be committed, is what is recovered.
fn is_state(alloc: Global, states: &str, printed: &str, recovered: &str) -> Result<bool, Memory> {
    for state in states.split(';') {
        let lines = part(state, ':', 1).replace(alloc, "/", "\n")?;
        if has_actors(lines.as_str(), recovered) && has_committed(part(state, ':', 0), printed) {
            return Ok(true);
        }
    }
    Ok(false)
}

/// Whether each reply that was printed agrees with what is recovered. Where there is no Genesis yet, nothing was told to be
/// committed.
fn agree(alloc: Global, name: &str, printed: &str, recovered: &Ran) -> Result<bool, Memory> {
    if !recovered.is_done() {
        return Ok(recovered.0.status == NO_GENESIS && !printed.contains(" committed "));
    }
    let output = recovered.output();
    if !are_kept(printed, output) {
        return Ok(false);
    }
    let states = states_of(name);
    if !states.is_empty() {
        return is_state(alloc, states, printed, output);
    }
    let marks = marks_in(output);
    for line in printed.split('\n') {
        if !tells_truly(line, marks) {
            return Ok(false);
        }
    }
    Ok(true)
}

/// Whether what a run left, of which a call failed at this place, is as it should be.
pub(crate) fn is_left(alloc: Global, place: Place, asked: &str, ran: &Ran) -> Result<bool, Fail> {
    let Place::Log(_) = place else {
        return Ok(true);
    };
    let name = part(asked, '|', 0);
    for choice in CHOICES {
        if !ran.is_recovered(alloc, name, ran.output(), EACH, [choice, choice])? {
            return Ok(false);
        }
    }
    Ok(true)
}
