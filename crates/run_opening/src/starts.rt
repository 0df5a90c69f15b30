//! What a run begins with, from the records of its logs.
ghost use Rattle.std.specs.Prelude.{◌≡◌, ◌+◌, ◌≤◌, List, [], ◌∷◌, length, IsTrue, ◌↔◌, IfOk, MatchOption, MatchResult};
ghost use Rattle.txn_records.specs.declared.limits.TheConstants.{MOST_LISTED};
ghost use Rattle.txn_records.specs.declared.records.Record.{Record};
ghost use Rattle.log_compact.specs.Sets.{IsFolded};
ghost use Rattle.run_opening.specs.Begins.{AreEmpty, IsUnspent, BeganWith, GoesOn, IsCause, fresh_opening};
ghost use Rattle.run_opening.specs.Starts.{IsStart, IsNoStart, first_record};

use crate::comparisons::{compare_states, spent};
use log_compact::{Folded, folds_are_begun};
use log_opening::{LogsNo, fold_records};
use snap_base::{Memory, Sequence, State};
use snap_recover::{LogCause, Opening, fresh};
use std::alloc::Global;
use txn_records::Record;

/// What a run begins with, and the records that are to be written to log 0 before it.
#[derive(Drop)]
pub struct Start {
    /// What the run begins with.
    pub opening: Opening,
    /// Genesis where no log has a record, and else nothing.
    pub added: Sequence<Record>,
}

/// What a run of a text with these states begins with, on logs of these records, the first of which lies on this device; or
/// the log, by its device, and the cause for which it does not begin.
pub fn start_from(
    alloc: Global,
    logs: Sequence<Sequence<Record>>,
    states: &[State],
    head: u8,
) -> Result<Start, LogsNo>
    requires logs { head + length logs ≤ 4 }
    requires few { length states.now ≤ MOST_LISTED }
    ensures { MatchResult result (λ s. IsStart logs states.now s.opening s.added) (λ no. IsNoStart head logs states.now no) }
{
    if all_empty(logs.as_slice()) {
        return match first_start(alloc, logs.len() as u8, states) {
            Ok(start) => Ok(start),
            Err(Memory) => Err(LogsNo::Memory),
        };
    }
    match go_on(alloc, logs, states, head) {
        Ok(opening) => Ok(Start {
            opening,
            added: Sequence::new(alloc),
        }),
        Err(no) => Err(no),
    }
}

/// Whether no log has a record.
fn all_empty(logs: &[Sequence<Record>]) -> bool
    ensures { IsTrue result ↔ AreEmpty logs.now }
{
    for records in logs {
        if !records.as_slice().is_empty() {
            return false;
        }
    }
    true
}

/// What the first run on so many logs begins with, and its Genesis.
fn first_start(alloc: Global, logs: u8, states: &[State]) -> Result<Start, Memory>
    ensures opening { IfOk result (λ s. s.opening ≡ fresh_opening states.now) }
    ensures added { IfOk result (λ s. s.added ≡ first_record logs states.now ∷ []) }
{
    let opening = fresh(alloc, states)?;
    let mut added = Sequence::new(alloc);
    added.push(Record::Genesis {
        logs,
        states: Sequence::from_vec(Vec::from_slice(alloc, states)?),
    })?;
    Ok(Start { opening, added })
}

/// What a run of a text with these states goes on with from the records of the logs, the first of which lies on this device.
fn go_on(
    alloc: Global,
    logs: Sequence<Sequence<Record>>,
    states: &[State],
    head: u8,
) -> Result<Opening, LogsNo>
    requires logs { head + length logs ≤ 4 }
    requires some { ¬ AreEmpty logs }
    requires few { length states.now ≤ MOST_LISTED }
    ensures { MatchResult result (λ o. GoesOn logs states.now o) (λ no. IsNoStart head logs states.now no) }
{
    let folded = match fold_records(alloc, logs, head) {
        Ok(folded) => folded,
        Err(no) => return Err(no),
    };
    match objection(&folded, states) {
        Some(cause) => Err(LogsNo::Refused {
            log: head,
            offset: 0,
            cause,
        }),
        None => Ok(folded.opening),
    }
}

/// Why a run of a text with these states does not go on from what the records of its logs fold to.
fn objection(folded: &Folded, states: &[State]) -> Option<LogCause>
    requires few { length states.now ≤ MOST_LISTED }
    ensures { (logs : List (List Record)) → IsFolded logs folded.now → MatchOption result (BeganWith logs states.now × IsUnspent folded.now.opening) (IsCause logs states.now 0) }
{
    folds_are_begun();
    if let Some(number) = spent(&folded.opening) {
        return Some(LogCause::Spent { number });
    }
    match compare_states(folded.first.as_slice(), states) {
        Some(d) => Some(LogCause::Differs {
            what: d.what,
            kept: d.kept,
            text: d.text,
        }),
        None => None,
    }
}
