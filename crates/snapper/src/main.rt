//! The program: it hands the words of its command line, its standard streams and its files to the top call,
//! writes the status line to standard error, and ends with the status's number.
#![tactic(auto)]

ghost use Rattle.std.specs.Prelude.{◌≡◌, IfOk, vec_len};

mod arguments;
mod places;

use crate::arguments::arguments;
use crate::places::hold_places;
use snap_base::Memory;
use snap_files::{FileLog, FileSink, StdinSource, StdoutSink};
use snap_outside::FreeGate;
use snap_report::{Status, status_line};
use snap_run::run;
use std::alloc::Global;
use std::process::ExitCode;
use std::rt::Files;

/// Runs the words of the command line on the standard streams, and on the files `log0.snap` to `log3.snap` and
/// `trace.txt` of the folder in which the program runs. A file is made where it is first needed.
fn main(rt: HostRuntime) -> ExitCode {
    let _places = hold_places(&rt);
    let status = match (arguments(&rt), four_logs(&rt), trace_file(&rt)) {
        (Ok(words), Ok(logs), Ok(trace)) => {
            let mut input = StdinSource::new(&rt);
            let outcome = run(
                &rt,
                rt.alloc(),
                words.as_slice(),
                &mut input,
                logs,
                StdoutSink::new(&rt),
                trace,
                &FreeGate::new(),
            );
            outcome.status
        }
        _ => Status::Memory,
    };
    report(&rt, &status);
    ExitCode::from(status.number())
}

/// The four logs, in the order of their numbers.
fn four_logs<'a, R: Files + AllocGlobal>(rt: &'a R) -> Result<Vec<FileLog<'a, R>>, Memory>
    ensures { IfOk result (λ logs. vec_len logs ≡ 4) }
{
    let mut logs = Vec::new(rt.alloc());
    logs.push(log(rt, "log0.snap")?)?;
    logs.push(log(rt, "log1.snap")?)?;
    logs.push(log(rt, "log2.snap")?)?;
    logs.push(log(rt, "log3.snap")?)?;
    Ok(logs)
}

/// The file of the trace.
fn trace_file<'a, R: Files + AllocGlobal>(rt: &'a R) -> Result<FileSink<'a, R>, Memory> {
    Ok(FileSink::new(rt, String::from_str(rt.alloc(), "trace.txt")?))
}

/// A log in a file, on which no call is made yet.
fn log<'a, R: Files + AllocGlobal>(rt: &'a R, path: &str) -> Result<FileLog<'a, R>, Memory> {
    Ok(FileLog::new(rt, String::from_str(rt.alloc(), path)?))
}

/// Writes the status line to standard error, where there is memory for it.
fn report<R: Eprint + AllocGlobal>(rt: &R, status: &Status) {
    match status {
        Status::Memory => {
            let _ = eprint!(rt; "snapper: out of memory\n");
        }
        _ => {
            if let Ok(line) = status_line(rt.alloc(), status) {
                let _ = eprint!(rt; "{line}");
            }
        }
    }
}
