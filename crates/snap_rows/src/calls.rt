//! Calls, and what is not as their rows say.
//!
//! The first line of a row tells the call. Its parts stand apart by `|`: the name of a text to run, `recover`, `migrate` or `compact`; the
//! numbers, from 1 on, of the calls that fail of log 0, of log 1, of the reads, of the writes of the output and of those of the trace, where 0
//! is none; and the four logs. Parts and numbers that are left out are empty and 0. Each line behind it tells what is so then:
//!
//! - `tells`: the status, what is printed, how many operations each log got, and the line of the status, as far as they stand
//!   there; behind each is `|`, and `/` stands for a line feed
//! - `leaves`: the logs; a part that is empty is a log that is as it was, or a new one where an empty file was opened
//! - `recovers`: what `recover` tells on what a crash leaves that keeps all
//! - `fails at any call`: where each call of the outside fails in turn, the run ends there as it should; and what any crash leaves
//!   behind a call of a log recovers to what was printed, and is what a further run goes on from
//! - `stops at any moment`: so does what a crash leaves behind any front of the events, where each log on its own has done none,
//!   some or all operations of an append that may be under way then, and has lost what it has not synced on its own
//! - `may lack memory`: the call is made again, and one of its requests for memory may be refused. Where the output, the trace or
//!   a log made that request, the run ends as where that call fails; else it wants memory, or is as before. What any crash leaves
//!   recovers as behind a call of a log. `.ci/memory` refuses each request in turn; it knows the call by what the test writes to
//!   standard error. With all its memory the run is as before
//!
//! The text `endless` is one that never ends.
//!
//! Rows stand apart by an empty line. A word behind the name of the test, where its program is called by hand, is read as the rows.

use crate::cut_offs::{tell_failing, tell_refused};
use crate::failing::{Failing, PLACES};
use crate::faults::{CUTS, SWEEPS};
use crate::ran::{Ran, call};
use crate::recoveries::RECOVERIES;
use crate::runs::RUNS;
use crate::stops::tell_moments;
use std::alloc::Global;
use std::env;
use std::rt::HostRuntime;
use std::test::Fail;

/// Tells what of a line is not so behind the call of its row.
fn tell_line(
    rt: &HostRuntime,
    alloc: Global,
    asked: &str,
    line: &str,
    ran: &Ran,
    told: &mut String,
) -> Result<(), Fail> {
    if let Some(wanted) = line.strip_prefix("tells ") {
        let is = ran.told(alloc)?;
        return tell_other(is.as_str(), wanted, told);
    }
    if let Some(left) = line.strip_prefix("leaves ") {
        let is_so = ran.leaves(alloc, asked, left)?;
        return tell_other(if is_so { left } else { "other logs" }, left, told);
    }
    if let Some(wanted) = line.strip_prefix("recovers ") {
        let is = ran.recovered(alloc)?.told(alloc)?;
        return tell_other(is.as_str(), wanted, told);
    }
    if line == "stops at any moment" {
        return tell_moments(alloc, asked, ran, told);
    }
    if line == "may lack memory" {
        return tell_refused(rt, alloc, asked, ran, told);
    }
    if line != "fails at any call" {
        return Err("the word of a line".into());
    }
    for place in PLACES {
        tell_failing(alloc, asked, place, ran, told)?;
    }
    Ok(())
}

/// Tells what is so, where it does not begin as is wanted.
fn tell_other(is: &str, wanted: &str, told: &mut String) -> Result<(), Fail> {
    if !is.starts_with(wanted) {
        told.push_str(is)?;
        told.push_str("; ")?;
    }
    Ok(())
}

/// Tells what is not as the row says, and behind it the row, where something is not.
fn tell_row(rt: &HostRuntime, alloc: Global, row: &str, told: &mut String) -> Result<(), Fail> {
    let (asked, lines) = row.split_once('\n').unwrap_or((row, ""));
    let ran = call(alloc, asked, Failing::of(asked))?;
    let before = told.len();
    for line in lines.split('\n') {
        tell_line(rt, alloc, asked, line, &ran, told)?;
    }
    if told.len() != before {
        told.push_str(row)?;
        told.push_str("\n")?;
    }
    Ok(())
}

/// What is not as the rows say: nothing, where all is.
fn untrue(rt: &HostRuntime, alloc: Global, rows: &str) -> Result<String, Fail> {
    let mut told = String::new(alloc);
    for row in rows.split("\n\n") {
        tell_row(rt, alloc, row, &mut told)?;
    }
    Ok(told)
}

#[test]
fn calls_are_as_their_rows_say(rt: HostRuntime) -> Result<(), Fail> {
    let alloc = rt.alloc();
    if let Some(rows) = env::args(&rt)?.nth(2) {
        assert_eq!(rt; untrue(&rt, alloc, rows.as_str())?.as_str(), "");
        return Ok(());
    }
    for rows in [RUNS, RECOVERIES, CUTS, SWEEPS] {
        assert_eq!(rt; untrue(&rt, alloc, rows)?.as_str(), "");
    }
    Ok(())
}
