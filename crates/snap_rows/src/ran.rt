//! The call of a row, and what it tells and leaves.

use crate::failing::Failing;
use crate::fakes::{Drip, Endless, Trickle};
use crate::logs::log_bytes;
use crate::texts::{part, text_of};
use command_words::workers_of;
use snap_base::Memory;
use snap_outside::{MemLog, Source};
use snap_report::{Status, status_line};
use snap_run::{Outcome, run_solo};
use std::alloc::Global;
use std::test::Fail;

/// What opening makes of an empty file.
const NEW_LOG: &str = "=SNAPLOG2\0";

/// The logs that a row asks for, of which these calls fail.
pub(crate) fn logs_of(alloc: Global, asked: &str, calls: [u64; 4]) -> Result<Vec<MemLog>, Memory> {
    let mut logs = Vec::new(alloc);
    for (number, call) in calls.iter().enumerate() {
        let word = part(asked, '|', number + 2);
        let bytes = log_bytes(alloc, word)?;
        logs.push(MemLog::new(alloc, bytes, vec![in alloc; *call]?)?)?;
    }
    Ok(logs)
}

/// How a call ended, what it printed and traced, and the logs then.
pub(crate) struct Ran(pub(crate) Outcome<MemLog, Drip, Drip>);

impl Drop for Ran {
    fn drop(self) {
        let Ran(_outcome) = self;
    }
}

/// Does what the word asks for with an input and four logs. A write takes a few bytes.
fn perform<I: Source>(
    alloc: Global,
    word: &str,
    input: &mut I,
    logs: Vec<MemLog>,
    failing: Failing,
) -> Result<Ran, Fail> {
    let list = vec![in alloc; String::from_str(alloc, word)?]?;
    let words = list.as_slice();
    if logs.len() != 4 {
        return Err("there are four logs".into());
    }
    if workers_of(words) != 0 {
        return Err("there are no workers".into());
    }
    let out = Drip::new(alloc, failing.write)?;
    let trace = Drip::new(alloc, failing.trace)?;
    let ran = Ran(run_solo(alloc, words, input, logs, out, trace));
    if ran.0.out.0.late() != 0 || ran.0.trace.0.late() != 0 {
        return Err("a write is made behind one that failed".into());
    }
    Ok(ran)
}

/// Does what the word asks for with a text as its input, of which a read gives a byte, and four logs.
pub(crate) fn perform_on(
    alloc: Global,
    word: &str,
    text: &str,
    logs: Vec<MemLog>,
    failing: Failing,
) -> Result<Ran, Fail> {
    let mut input = Trickle::new(alloc, text, failing.read)?;
    perform(alloc, word, &mut input, logs, failing)
}

/// The call of a row, of which these calls of the outside fail.
pub(crate) fn call(alloc: Global, asked: &str, failing: Failing) -> Result<Ran, Fail> {
    let name = part(asked, '|', 0);
    let logs = logs_of(alloc, asked, failing.logs)?;
    if name == "endless" {
        return perform(alloc, "run", &mut Endless, logs, failing);
    }
    let text = text_of(alloc, name)?;
    let word = match name {
        "recover" | "migrate" | "compact" => name,
        _ => "run",
    };
    perform_on(alloc, word, text.as_str(), logs, failing)
}

impl Ran {
    /// Whether the status is 0.
    pub(crate) fn is_done(&self) -> bool {
        self.0.status == Status::Done
    }

    /// What was printed.
    pub(crate) fn output(&self) -> &str {
        str::from_utf8(self.0.out.0.bytes()).unwrap_or("no text")
    }

    /// What was traced.
    pub(crate) fn trace(&self) -> &str {
        str::from_utf8(self.0.trace.0.bytes()).unwrap_or("no text")
    }

    /// Whether no log got an operation.
    pub(crate) fn has_untouched_logs(&self) -> bool {
        for log in &self.0.logs {
            if !log.ops().is_empty() {
                return false;
            }
        }
        true
    }

    /// How many operations each log got.
    pub(crate) fn operations(&self, alloc: Global) -> Result<String, Memory> {
        let mut counts = String::new(alloc);
        for log in &self.0.logs {
            let count = log.ops().len();
            counts.push_str(&format!(in alloc; " {count}")?)?;
        }
        Ok(counts)
    }

    /// What the call tells, in the way of the rows.
    pub(crate) fn told(&self, alloc: Global) -> Result<String, Memory> {
        let status = self.0.status;
        let line = status_line(alloc, &status)?;
        let output = self.output();
        let operations = self.operations(alloc)?;
        let operations = operations.trim_start();
        let told = format!(in alloc; "{status:?}|{output}|{operations}|{line}|")?;
        Ok(told.replace(alloc, "\n", "/")?)
    }

    /// Whether the logs that a row asked for are left so.
    pub(crate) fn leaves(&self, alloc: Global, asked: &str, left: &str) -> Result<bool, Memory> {
        for (number, log) in self.0.logs.iter().enumerate() {
            let after = part(left, '|', number);
            let before = part(asked, '|', number + 2);
            let is_new = before.is_empty() && !log.ops().is_empty();
            let word = match (after.is_empty(), is_new) {
                (false, _) => after,
                (true, true) => NEW_LOG,
                (true, false) => before,
            };
            let bytes = log_bytes(alloc, word)?;
            if log.bytes() != bytes.as_slice() {
                return Ok(false);
            }
        }
        Ok(true)
    }
}
