//! The lines of a text in their order.

ghost use Rattle.std.specs.Prelude.{◌≡◌, ◌≤◌, ℕ};
ghost use Rattle.aml_check.specs.Checked.{methods_of};
ghost use Rattle.work_text.specs.Lines.{said};
ghost use Rattle.work_text.specs.Readings.{Is};
ghost use Rattle.work_text.specs.Reads as reads;
ghost use Rattle.work_text.specs.Endings as endings;
ghost use Rattle.snap_work.specs.Works.{work_of};
ghost use Rattle.work_text.specs.Cursors.{ahead, end_of, IsShort};

use crate::lines::next_said;
use crate::program::program;
use crate::settings::{exactly, set};
use crate::states::states;
use crate::texts::Cursor;
use crate::transactions::transaction;
use aml_check::Checked;
use snap_base::{Sequence, State, Tx};
use snap_work::{
    Limit, MOST_ACTORS, MOST_ACTS, MOST_BATCHES, MOST_COORDINATORS, MOST_IN_A_BATCH, MOST_LOGS,
    Work, WorkNo,
};
use std::alloc::Global;

// The transactions that lines ask for.
fn transactions(
    alloc: Global,
    program: &Checked,
    actors: u16,
    cursor: Cursor<'_>,
) -> Result<Sequence<Tx>, WorkNo>
    requires { IsShort cursor }
    ensures { Is (λ x. x) result (reads.transactions (methods_of program.now) actors 0 (said (ahead cursor.entry))) }
{
    let mut txs = Vec::new(alloc);
    let mut at = cursor;
    while let Ok((line, behind)) = next_said(at) {
        let tx = transaction(alloc, program, actors, txs.len(), line)?;
        txs.push(tx)?;
        at = behind;
    }
    Ok(Sequence::from_vec(txs))
}

// The states and the transactions.
fn tail(
    alloc: Global,
    program: &Checked,
    actors: u64,
    cursor: Cursor<'_>,
) -> Result<(Sequence<State>, Sequence<Tx>), WorkNo>
    requires short { IsShort cursor }
    requires few { actors ≤ MOST_ACTORS }
    ensures { Is (λ x. (x.0, x.1)) result (endings.ending (methods_of program.now) actors (said (ahead cursor.entry))) }
{
    let count = actors as u16;
    let (states, behind) = states(alloc, count, cursor)?;
    let txs = transactions(alloc, program, count, behind)?;
    Ok((Sequence::from_vec(states), txs))
}

// A work of its parts.
fn put_together(
    setup: (u64, u64),
    live: (u64, u64, u64),
    program: Checked,
    states: Sequence<State>,
    txs: Sequence<Tx>,
) -> Work
    requires setup { (setup.0 ≤ MOST_COORDINATORS) × (setup.1 ≤ MOST_LOGS) }
    requires live { (live.0 ≤ MOST_IN_A_BATCH) × (live.1 ≤ MOST_BATCHES) × (live.2 ≤ MOST_ACTS) }
    ensures { work_of result ≡ record { coordinators = setup.0; logs = setup.1; batch = live.0; batches = live.1; acts = live.2; program = methods_of program; states = states; txs = txs } }
{
    Work {
        coordinators: setup.0 as u8,
        logs: setup.1 as u8,
        batch: live.0 as u16,
        batches: live.1 as u8,
        acts: live.2 as u8,
        program,
        states,
        txs,
    }
}

/// The work that lines stand for.
pub(crate) fn read_lines(alloc: Global, cursor: Cursor<'_>) -> Result<Work, WorkNo>
    requires { IsShort cursor }
    ensures { Is work_of result (reads.reads_lines (end_of cursor.entry) (ahead cursor.entry)) }
{
    let header = exactly(cursor, b"snapper 1")?;
    let coordinators = set(
        header.1,
        b"coordinators ",
        MOST_COORDINATORS,
        Limit::Coordinators,
    )?;
    let logs = set(coordinators.1, b"logs ", MOST_LOGS, Limit::Logs)?;
    let batch = set(logs.1, b"batch ", MOST_IN_A_BATCH, Limit::Batch)?;
    let batches = set(batch.1, b"batches ", MOST_BATCHES, Limit::Batches)?;
    let acts = set(batches.1, b"acts ", MOST_ACTS, Limit::Acts)?;
    let begin = exactly(acts.1, b"program")?;
    let (program, behind) = program(alloc, begin.0, begin.1)?;
    let actors = set(behind, b"actors ", MOST_ACTORS, Limit::Actors)?;
    let (states, txs) = tail(alloc, &program, actors.0, actors.1)?;
    Ok(put_together(
        (coordinators.0, logs.0),
        (batch.0, batches.0, acts.0),
        program,
        states,
        txs,
    ))
}
