//! Papers are told as their rows say: `ok`, or what is wrong with them first, and where. All stands in one module and is one
//! test, since each of these costs the prover some ten seconds before its first function.

use crate::papers::{CHANGES, PAPERS};
use snap_base::Memory;
use snap_report::AuditFault;
use std::alloc::{AllocError, Global};
use std::test::Fail;
use trace_audit::{AuditNo, audit};

/// The methods of each text, a line each.
const PROGRAM: &str = "method put(n) { f0 = f0 + n; return f0; }@\
method move(to, n) { if f0 < n { fail 7; } f0 = f0 - n; let r = call to put(n); return r; }@\
method twice(to) { let a = call to put(1); let b = call to put(1); return b; }@\
read method peek() { return f0; }";

/// An input is shorter than this.
const MOST: usize = 1 << 20;

/// The part with this number, from 0 on.
fn part(asked: &str, number: usize) -> &str {
    asked.split('|').nth(number).unwrap_or("")
}

/// What the changes have in place of the line with this name.
fn changed<'a>(changes: &'a str, name: &str, line: &'a str) -> &'a str {
    for change in changes.split(';') {
        if let Some((changed, by)) = change.split_once('=') {
            if changed == name {
                return by;
            }
        }
    }
    line
}

/// Puts a line behind a text, unless it is left out.
fn put_line(alloc: Global, text: &mut String, line: &str) -> Result<(), AllocError> {
    if line != "-" {
        text.push_str(&format!(in alloc; "{line}\n")?)?;
    }
    Ok(())
}

/// Puts lines behind a text, each with its change. They are named by their kind and their number, from 1 on.
fn put_lines(
    alloc: Global,
    text: &mut String,
    kind: &str,
    lines: &str,
    end: char,
    changes: &str,
) -> Result<(), AllocError> {
    for (at, line) in lines.split(end).enumerate() {
        let number = at + 1;
        let name = format!(in alloc; "{kind}{number}")?;
        put_line(alloc, text, changed(changes, &name, line))?;
    }
    Ok(())
}

/// The lines of a work text, as rows write them.
fn text_lines(alloc: Global, settings: &str, behind: &str) -> Result<String, AllocError> {
    let (batch, acts) = settings.split_once(' ').unwrap_or(("", ""));
    format!(in alloc;
        "snapper 1@coordinators 1@logs 1@batch {batch}@batches 8@acts {acts}@program@{PROGRAM}@end@{behind}"
    )
}

/// The input of papers with changes.
fn input_of(
    alloc: Global,
    papers: (&str, &str, &str),
    changes: &str,
) -> Result<String, AllocError> {
    let (text, trace, report) = papers;
    let lines = text_lines(alloc, part(text, 0), part(text, 1))?;
    let mut input = String::new(alloc);
    put_lines(alloc, &mut input, "w", &lines, '@', changes)?;
    put_line(alloc, &mut input, changed(changes, "d1", "== trace"))?;
    put_lines(alloc, &mut input, "t", trace, ',', changes)?;
    put_line(alloc, &mut input, changed(changes, "d2", "== report"))?;
    put_lines(alloc, &mut input, "r", report, ';', changes)?;
    Ok(input)
}

/// What is wrong with an input first, as rows write it.
fn fault_told(alloc: Global, fault: AuditFault) -> Result<String, AllocError> {
    match fault {
        AuditFault::Parts => String::from_str(alloc, "Parts"),
        AuditFault::Text(fault) => {
            let line = fault.line;
            format!(in alloc; "Text {line}")
        }
        AuditFault::Trace { line } => format!(in alloc; "Trace line {line}"),
        AuditFault::Report { line } => format!(in alloc; "Report line {line}"),
        AuditFault::Clause { clause, at } => format!(in alloc; "Clause {clause} at {at}"),
    }
}

/// What is told of an input.
fn told(alloc: Global, input: &[u8]) -> Result<String, Memory> {
    if input.len() >= MOST {
        return Ok(String::from_str(alloc, "too long")?);
    }
    match audit(alloc, input) {
        Ok(()) => Ok(String::from_str(alloc, "ok")?),
        Err(AuditNo::Fault(fault)) => Ok(fault_told(alloc, fault)?),
        Err(AuditNo::Memory) => Err(Memory),
    }
}

/// What is told of the papers of a row.
fn row_told(alloc: Global, row: &str) -> Result<String, Memory> {
    let number: usize = part(row, 0).parse().unwrap_or(0);
    if number >= PAPERS.len() {
        return Ok(String::from_str(alloc, "no papers")?);
    }
    let input = input_of(alloc, PAPERS[number], part(row, 1))?;
    told(alloc, input.as_bytes())
}

#[test]
fn papers_are_told_as_their_rows_say(rt: HostRuntime) -> Result<(), Fail> {
    let alloc = rt.alloc();
    for row in CHANGES.split('@') {
        let text = row_told(alloc, row)?;
        assert_eq!(rt; text.as_str(), part(row, 2), "{row}");
    }
    Ok(())
}
