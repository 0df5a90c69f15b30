//! Lines that ask for transactions.

ghost use Rattle.std.specs.Prelude.{ℕ, ◌≤◌, IfOk, MatchOption};
ghost use Rattle.snap_base.specs.declared.transactions.Tx.{Tx};
ghost use Rattle.aml_check.specs.Checked.{methods_of};
ghost use Rattle.work_text.specs.Readings.{Is};
ghost use Rattle.work_text.specs.Transactions as spec;
ghost use Rattle.work_text.specs.Cursors.{line_of};

use crate::calls::call_of;
use crate::faults::at_line;
use crate::numbers::{numbers, words_of};
use crate::texts::Line;
use crate::uses::{declaration, declares_root};
use aml_check::{Checked, MOST_CALLED_ACTORS};
use snap_base::{ActorId, Sequence, Tx};
use snap_work::{Limit, MOST_TRANSACTIONS, WorkCause, WorkNo};
use std::alloc::{AllocError, Global};

// The transaction that a line asks for, however many actors it declares and whether or not its own one
// is among them; `None` where it asks for none.
fn asked(
    alloc: Global,
    program: &Checked,
    actors: u16,
    line: &[u8],
) -> Result<Option<Tx>, AllocError>
    ensures { IfOk result (λ read. MatchOption read ((tx : Tx) → ¬ spec.Asks (methods_of program.now) actors line.now tx) (spec.Asks (methods_of program.now) actors line.now)) }
{
    let words = words_of(alloc, line)?;
    let Some((kind, actor, method)) = call_of(program, actors, &words) else {
        return Ok(None);
    };
    let behind = 3 + program.params(method) as usize;
    let Some(args) = numbers(alloc, &words[3..behind])? else {
        return Ok(None);
    };
    let Some(uses) = declaration(alloc, kind, actors, &words[behind..])? else {
        return Ok(None);
    };
    Ok(Some(Tx {
        kind,
        actor: ActorId(actor),
        method,
        args: Sequence::from_vec(args),
        uses: Sequence::from_vec(uses),
    }))
}

/// The transaction that a line asks for; so many transactions come before it. A line that asks for none
/// is refused first, then one that declares too many actors, then one transaction too many, and then a
/// PACT that does not declare its own actor.
pub(crate) fn transaction(
    alloc: Global,
    program: &Checked,
    actors: u16,
    before: usize,
    line: Line<'_>,
) -> Result<Tx, WorkNo>
    requires { before ≤ MOST_TRANSACTIONS }
    ensures { Is (λ tx. tx) result (spec.transaction (methods_of program.now) actors before (line_of line.entry)) }
{
    let Some(tx) = asked(alloc, program, actors, line.bytes)? else {
        return Err(at_line(line.number, WorkCause::BadTx));
    };
    if tx.uses.len() > MOST_CALLED_ACTORS {
        let cause = WorkCause::Limit {
            which: Limit::Uses,
            found: tx.uses.len() as u64,
        };
        return Err(at_line(line.number, cause));
    }
    if before >= MOST_TRANSACTIONS {
        let cause = WorkCause::Limit {
            which: Limit::Transactions,
            found: before as u64 + 1,
        };
        return Err(at_line(line.number, cause));
    }
    if !declares_root(tx.kind, tx.actor.0, tx.uses.as_slice()) {
        return Err(at_line(line.number, WorkCause::RootNotDeclared));
    }
    Ok(tx)
}
