//! Compactions, and runs behind them, that are cut off behind each operation on any of the four devices.
//!
//! The first line of a row has the name of the text of its runs, its calls apart by blanks, of which the last one is cut off, and the
//! four logs before these; its parts stand apart by `|`. The second line is what the logs tell before the last call, and the third one
//! what they tell behind it: what `recover` prints there, what a run prints there, and what `compact` prints there, apart by `|`; `/`
//! stands for a line feed. Behind a compaction that is made there they recover to the same, but for the lines of what is kept, and a
//! run prints the same.
//!
//! Whatever a crash in a compaction leaves tells what the one line says or what the other does. So does what a crash in a run leaves,
//! but that numbers may be drawn already, and so other ones come next; and each transaction that was told to be committed is kept.
//!
//! Rows stand apart by an empty line.

use crate::crashes::are_kept;
use crate::failing::{Failing, NONE, Place};
use crate::ran::{Ran, logs_of, perform_on};
use crate::stops::choices_of;
use crate::texts::{part, text_of};
use snap_base::Memory;
use snap_outside::MemLog;
use snap_report::Status;
use std::alloc::Global;
use std::rt::HostRuntime;
use std::test::Fail;

/// With one log and with two, with both kinds of transactions, from each side to the other; and with records that a crash left on the
/// other side, and logs of the old format without an item.
const COMPACTIONS: &str = "\
deposit|run run compact
actor 0 110/kept 1.0.1 105/kept 2.0.2 110/recovered batches 2 acts 0 next 3 3 1/|tx 0 committed 3.0.3 115/actor 0 115/end committed 1 aborted 0 batches 1/|compacted 1/
actor 0 110/recovered batches 2 acts 0 next 3 3 1/|tx 0 committed 3.0.3 115/actor 0 115/end committed 1 aborted 0 batches 1/|compacted 2/

deposit|run run compact run
actor 0 110/recovered batches 2 acts 0 next 3 3 1/|tx 0 committed 3.0.3 115/actor 0 115/end committed 1 aborted 0 batches 1/|compacted 2/
actor 0 115/kept 3.0.3 115/recovered batches 3 acts 0 next 4 4 1/|tx 0 committed 4.0.4 120/actor 0 120/end committed 1 aborted 0 batches 1/|compacted 2/

deposit|run compact run compact
actor 0 110/kept 2.0.2 110/recovered batches 2 acts 0 next 3 3 1/|tx 0 committed 3.0.3 115/actor 0 115/end committed 1 aborted 0 batches 1/|compacted 2/
actor 0 110/recovered batches 2 acts 0 next 3 3 1/|tx 0 committed 3.0.3 115/actor 0 115/end committed 1 aborted 0 batches 1/|compacted 3/

deposit|run compact run compact run
actor 0 110/recovered batches 2 acts 0 next 3 3 1/|tx 0 committed 3.0.3 115/actor 0 115/end committed 1 aborted 0 batches 1/|compacted 3/
actor 0 115/kept 3.0.3 115/recovered batches 3 acts 0 next 4 4 1/|tx 0 committed 4.0.4 120/actor 0 120/end committed 1 aborted 0 batches 1/|compacted 3/

locked|run compact run
actor 0 70/actor 1 80/recovered batches 0 acts 1 next 2 1 2/|tx 0 committed 0.1.2 110/actor 0 40/actor 1 110/end committed 1 aborted 0 batches 0/|compacted 2/
actor 0 40/actor 1 110/kept 0.1.2 110/recovered batches 0 acts 2 next 3 1 3/|tx 0 committed 0.1.3 140/actor 0 10/actor 1 140/end committed 1 aborted 0 batches 0/|compacted 2/

one on two logs|run run compact
actor 0 102/kept 1.0.1 101/kept 2.0.2 102/recovered batches 2 acts 0 next 3 3 1/|tx 0 committed 3.0.3 103/actor 0 103/end committed 1 aborted 0 batches 1/|compacted 1/
actor 0 102/recovered batches 2 acts 0 next 3 3 1/|tx 0 committed 3.0.3 103/actor 0 103/end committed 1 aborted 0 batches 1/|compacted 2/

one on two logs|run run compact run
actor 0 102/recovered batches 2 acts 0 next 3 3 1/|tx 0 committed 3.0.3 103/actor 0 103/end committed 1 aborted 0 batches 1/|compacted 2/
actor 0 103/kept 3.0.3 103/recovered batches 3 acts 0 next 4 4 1/|tx 0 committed 4.0.4 104/actor 0 104/end committed 1 aborted 0 batches 1/|compacted 2/

locked on two logs|run compact
actor 0 70/actor 1 80/kept 0.1.1 80/recovered batches 0 acts 1 next 2 1 2/|tx 0 committed 0.1.2 110/actor 0 40/actor 1 110/end committed 1 aborted 0 batches 0/|compacted 1/
actor 0 70/actor 1 80/recovered batches 0 acts 1 next 2 1 2/|tx 0 committed 0.1.2 110/actor 0 40/actor 1 110/end committed 1 aborted 0 batches 0/|compacted 2/

locked on two logs|run compact run
actor 0 70/actor 1 80/recovered batches 0 acts 1 next 2 1 2/|tx 0 committed 0.1.2 110/actor 0 40/actor 1 110/end committed 1 aborted 0 batches 0/|compacted 2/
actor 0 40/actor 1 110/kept 0.1.2 110/recovered batches 0 acts 2 next 3 1 3/|tx 0 committed 0.1.3 140/actor 0 10/actor 1 140/end committed 1 aborted 0 batches 0/|compacted 2/

deposit|compact|=SNAPLOG1\0\0|genesis:1:100;info:1:0:1,complete:1:0:105;done:1:105
actor 0 105/kept 1.0.1 105/recovered batches 1 acts 0 next 2 2 1/|tx 0 committed 2.0.2 110/actor 0 110/end committed 1 aborted 0 batches 1/|compacted 1/
actor 0 105/recovered batches 1 acts 0 next 2 2 1/|tx 0 committed 2.0.2 110/actor 0 110/end committed 1 aborted 0 batches 1/|compacted 2/

deposit|compact|commit:1|genesis:1:100,checkpoint:1:2:2:1:1:0:105;info:2:0:2,complete:2:0:110;done:2:110
actor 0 110/kept 2.0.2 110/recovered batches 2 acts 0 next 3 3 1/|tx 0 committed 3.0.3 115/actor 0 115/end committed 1 aborted 0 batches 1/|compacted 2/
actor 0 110/recovered batches 2 acts 0 next 3 3 1/|tx 0 committed 3.0.3 115/actor 0 115/end committed 1 aborted 0 batches 1/|compacted 3/

deposit|run|commit:1|genesis:1:100,checkpoint:1:2:2:1:1:0:105
actor 0 105/recovered batches 1 acts 0 next 2 2 1/|tx 0 committed 2.0.2 110/actor 0 110/end committed 1 aborted 0 batches 1/|compacted 2/
actor 0 110/kept 2.0.2 110/recovered batches 2 acts 0 next 3 3 1/|tx 0 committed 3.0.3 115/actor 0 115/end committed 1 aborted 0 batches 1/|compacted 2/

one on two logs|compact|genesis:2:100|commit:1|genesis:2:100,checkpoint:3:2:2:1:1:0:101;info:2:0:2,complete:2:0:102;done:2:102|=SNAPLOG1\0\0
actor 0 102/kept 2.0.2 102/recovered batches 2 acts 0 next 3 3 1/|tx 0 committed 3.0.3 103/actor 0 103/end committed 1 aborted 0 batches 1/|compacted 4/
actor 0 102/recovered batches 2 acts 0 next 3 3 1/|tx 0 committed 3.0.3 103/actor 0 103/end committed 1 aborted 0 batches 1/|compacted 5/

one on two logs|run|genesis:2:100|commit:1|genesis:2:100,checkpoint:3:2:2:1:1:0:101|=SNAPLOG1\0\0
actor 0 101/recovered batches 1 acts 0 next 2 2 1/|tx 0 committed 2.0.2 102/actor 0 102/end committed 1 aborted 0 batches 1/|compacted 4/
actor 0 102/kept 2.0.2 102/recovered batches 2 acts 0 next 3 3 1/|tx 0 committed 3.0.3 103/actor 0 103/end committed 1 aborted 0 batches 1/|compacted 4/";

/// The choice by which a crash leaves nothing of what is not synced.
const SYNCED: u8 = 0;

/// More than the calls at any device of any call.
const MANY: u64 = 1000;

/// The devices that a crash leaves of these logs, by one choice for all. Of each of them the call with its number fails, where that is
/// not 0.
fn left(
    alloc: Global,
    logs: &[MemLog],
    choice: u8,
    fails: [u64; 4],
) -> Result<Vec<MemLog>, Memory> {
    let mut devices = Vec::new(alloc);
    for (log, call) in logs.iter().zip(fails.iter()) {
        let image = log.image(alloc, log.ops().len(), choice)?;
        devices.push(MemLog::new(alloc, image, vec![in alloc; *call]?)?)?;
    }
    Ok(devices)
}

/// What the word asks for, done on what a crash leaves of these logs.
fn call_on(
    alloc: Global,
    word: &str,
    text: &str,
    logs: &[MemLog],
    choice: u8,
) -> Result<Ran, Fail> {
    perform_on(
        alloc,
        word,
        text,
        left(alloc, logs, choice, NONE.logs)?,
        NONE,
    )
}

/// What a call printed, in the way of the rows; how it ended, where it is not done.
fn printed_by(alloc: Global, ran: &Ran) -> Result<String, Memory> {
    if !ran.is_done() {
        let status = ran.0.status;
        return Ok(format!(in alloc; "{status:?}")?);
    }
    Ok(ran.output().replace(alloc, "\n", "/")?)
}

/// What a call prints that is made on what a crash leaves of these logs.
fn printed_on(
    alloc: Global,
    word: &str,
    text: &str,
    logs: &[MemLog],
    choice: u8,
) -> Result<String, Fail> {
    let ran = call_on(alloc, word, text, logs, choice)?;
    Ok(printed_by(alloc, &ran)?)
}

/// The lines but for those of what is kept.
fn without_kept(alloc: Global, printed: &str) -> Result<String, Memory> {
    let mut lines = String::new(alloc);
    for line in printed.split('/') {
        if !line.is_empty() && !line.starts_with("kept ") {
            lines.push_str(line)?;
            lines.push_str("/")?;
        }
    }
    Ok(lines)
}

/// The lines without the places of transactions and the numbers that come next.
fn without_numbers(alloc: Global, told: &str) -> Result<String, Memory> {
    let mut lines = String::new(alloc);
    for line in told.split('/') {
        let (front, _next) = line.split_once(" next ").unwrap_or((line, ""));
        for word in front.split(' ') {
            if word.split('.').count() != 3 {
                lines.push_str(word)?;
                lines.push_str(" ")?;
            }
        }
        lines.push_str("/")?;
    }
    Ok(lines)
}

/// What is told on what a crash leaves of these logs, in the way of the rows. What is told behind a compaction stands there too, where it
/// is not as it should be.
fn told_on(alloc: Global, text: &str, logs: &[MemLog], choice: u8) -> Result<String, Fail> {
    let recovered = printed_on(alloc, "recover", text, logs, choice)?;
    let ran = printed_on(alloc, "run", text, logs, choice)?;
    let compacted = call_on(alloc, "compact", text, logs, choice)?;
    let line = printed_by(alloc, &compacted)?;
    let behind = compacted.0.logs.as_slice();
    let recovered_then = printed_on(alloc, "recover", text, behind, SYNCED)?;
    let ran_then = printed_on(alloc, "run", text, behind, SYNCED)?;
    let same = without_kept(alloc, recovered.as_str())?;
    let mut told = format!(in alloc; "{recovered}|{ran}|{line}")?;
    if recovered_then.as_str() != same.as_str() || ran_then.as_str() != ran.as_str() {
        told.push_str(&format!(in alloc; "|{recovered_then}|{ran_then}")?)?;
    }
    Ok(told)
}

/// The logs that the calls of a row before its last one leave.
fn logs_before(alloc: Global, asked: &str, text: &str) -> Result<Vec<MemLog>, Fail> {
    let mut logs = logs_of(alloc, asked, NONE.logs)?;
    let (first, _last) = part(asked, '|', 1).rsplit_once(" ").unwrap_or(("", ""));
    for word in first.split(' ') {
        if !word.is_empty() {
            let ran = call_on(alloc, word, text, logs.as_slice(), SYNCED)?;
            logs = left(alloc, ran.0.logs.as_slice(), SYNCED, NONE.logs)?;
        }
    }
    Ok(logs)
}

/// What a crash may leave of the logs of a call, by one choice for all: at most one of them has a write that is not synced.
fn choices_left(alloc: Global, ran: &Ran, told: &mut String) -> Result<Vec<u8>, Fail> {
    let mut choices = vec![in alloc; SYNCED]?;
    let mut loose: u32 = 0;
    for log in &ran.0.logs {
        let of_log = choices_of(alloc, log, log.ops().len())?;
        if of_log.len() > 1 {
            choices = of_log;
            loose = loose.saturating_add(1);
        }
    }
    if loose > 1 {
        told.push_str("writes of several logs are not synced; ")?;
    }
    Ok(choices)
}

/// A call that is cut off: the word that asks for it, the text of the runs, and what the logs tell before the call and behind it.
#[derive(Drop)]
struct Cut {
    word: String,
    text: String,
    before: String,
    behind: String,
}

impl Cut {
    /// The call of a row.
    fn of(alloc: Global, row: &str) -> Result<Cut, Memory> {
        let asked = part(row, '\n', 0);
        let calls = part(asked, '|', 1);
        let (_first, last) = calls.rsplit_once(" ").unwrap_or(("", calls));
        let word = String::from_str(alloc, last)?;
        let text = text_of(alloc, part(asked, '|', 0))?;
        let before = String::from_str(alloc, part(row, '\n', 1))?;
        let behind = String::from_str(alloc, part(row, '\n', 2))?;
        Ok(Cut {
            word,
            text,
            before,
            behind,
        })
    }

    /// Makes it on these logs, of which these calls fail.
    fn call(&self, alloc: Global, logs: &[MemLog], fails: [u64; 4]) -> Result<Ran, Fail> {
        let devices = left(alloc, logs, SYNCED, fails)?;
        perform_on(alloc, self.word.as_str(), self.text.as_str(), devices, NONE)
    }

    /// Whether this may be told behind a crash in it.
    fn may_tell(&self, alloc: Global, told: &str) -> Result<bool, Memory> {
        if told == self.before.as_str() || told == self.behind.as_str() {
            return Ok(true);
        }
        if self.word.as_str() != "run" {
            return Ok(false);
        }
        let told = without_numbers(alloc, told)?;
        let before = without_numbers(alloc, self.before.as_str())?;
        Ok(told.as_str() == before.as_str())
    }

    /// Tells with which images what a crash leaves of the logs does not tell what it should.
    fn tell_images(&self, alloc: Global, ran: &Ran, told: &mut String) -> Result<(), Fail> {
        let operations = ran.operations(alloc)?;
        for choice in choices_left(alloc, ran, told)?.as_slice() {
            let image = *choice;
            let is = told_on(alloc, self.text.as_str(), ran.0.logs.as_slice(), image)?;
            let lines = is.replace(alloc, "/", "\n")?;
            let is_kept = are_kept(ran.output(), lines.as_str());
            if !is_kept || !self.may_tell(alloc, is.as_str())? {
                told.push_str(&format!(in alloc;
                    "image {image} behind operations{operations} tells {is}; "
                )?)?;
            }
        }
        Ok(())
    }

    /// Each call of this log's device fails in turn, until there is none more. Tells which of them leave what they should not. Those that
    /// come behind the same operations leave the same.
    fn tell_log(
        &self,
        alloc: Global,
        logs: &[MemLog],
        log: u8,
        told: &mut String,
    ) -> Result<(), Fail> {
        let mut last = String::new(alloc);
        for number in 1..MANY {
            let ran = self.call(alloc, logs, Failing::at(Place::Log(log), number).logs)?;
            if number > 1 && ran.is_done() {
                return Ok(());
            }
            if ran.0.status != (Status::LogFault { log }) {
                told.push_str("another end; ")?;
            }
            let operations = ran.operations(alloc)?;
            if operations.as_str() != last.as_str() {
                self.tell_images(alloc, &ran, told)?;
            }
            last = operations;
        }
        Ok(told.push_str("no end; ")?)
    }
}

/// What is not as the row says, and behind it the row; nothing, where all is.
fn untrue(alloc: Global, row: &str) -> Result<String, Fail> {
    let mut told = String::new(alloc);
    let cut = Cut::of(alloc, row)?;
    let logs = logs_before(alloc, part(row, '\n', 0), cut.text.as_str())?;
    let whole = cut.call(alloc, logs.as_slice(), NONE.logs)?;
    let before = told_on(alloc, cut.text.as_str(), logs.as_slice(), SYNCED)?;
    let behind = told_on(alloc, cut.text.as_str(), whole.0.logs.as_slice(), SYNCED)?;
    let is_so = before.as_str() == cut.before.as_str() && behind.as_str() == cut.behind.as_str();
    if !is_so || !whole.is_done() {
        told.push_str(&format!(in alloc; "before {before}, behind {behind}; ")?)?;
    }
    cut.tell_images(alloc, &whole, &mut told)?;
    for log in 0..4u8 {
        cut.tell_log(alloc, logs.as_slice(), log, &mut told)?;
    }
    if !told.is_empty() {
        told.push_str(row)?;
    }
    Ok(told)
}

#[test]
fn crashes_in_compactions_leave_what_their_rows_say(rt: HostRuntime) -> Result<(), Fail> {
    let alloc = rt.alloc();
    for row in COMPACTIONS.split("\n\n") {
        assert_eq!(rt; untrue(alloc, row)?.as_str(), "");
    }
    Ok(())
}
