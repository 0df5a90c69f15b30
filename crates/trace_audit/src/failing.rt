//! A serial run of what counts for a batch that was aborted, and of the batch's PACTs behind it.
ghost use Rattle.std.specs.Prelude.{◌≡◌, ◌<◌, ◌==◌, ◌&&◌, if◌then◌else◌, length, map, nat_lt, IfOk};
ghost use Rattle.std.specs.List.{AllByRecursion};
ghost use Rattle.aml_check.specs.Checked.{methods_of};
ghost use Rattle.aml_check.specs.Meaning.{alone};
ghost use Rattle.aml_check.specs.Transactions.{IsTransaction};
ghost use Rattle.protocol.specs.Fixed.{tx_at};
ghost use Rattle.protocol.specs.Meant.{batch_pact};
ghost use Rattle.protocol.specs.Chains.{counts};
ghost use Rattle.audit_words.specs.Inputs.{first_text, language};
ghost use Rattle.snap_work.specs.Kept.{KeepsLimits};
ghost use Rattle.snap_work.specs.Works.{work_of};
ghost use Rattle.trace_audit.specs.Failures.{counted_world, first_fails};
ghost use Rattle.trace_audit.specs.Located.{done_of};

use crate::located::LocatedReply;
use aml_check::Checked;
use aml_serial::run_alone;
use snap_base::{Bid, Memory, State, Tid, Tx, TxNo, TxResult};
use snap_work::Work;
use std::alloc::Global;

/// Whether a reply counts for batch k and number c: it tells a value, of a batch below k or of an ACT with a number below c.
fn counts(reply: &LocatedReply, k: Bid, c: u64) -> bool
    ensures { result ≡ counts k.0 c (done_of reply.now) }
{
    match reply.result {
        TxResult::Value(_) => stands_before(reply, k, c),
        TxResult::Fail(_) => false,
    }
}

/// Whether the place of a reply is one of a PACT in a batch below k, or of an ACT with a number below c.
fn stands_before(reply: &LocatedReply, k: Bid, c: u64) -> bool
    ensures { result ≡ (if reply.now.place.side == 0 then nat_lt reply.now.place.batch.0 k.0 else nat_lt reply.now.place.order c) }
{
    if reply.place.side == 0 {
        reply.place.batch.0 < k.0
    } else {
        reply.place.order < c
    }
}

/// The states of a work.
fn states_of(alloc: Global, work: &Work) -> Result<Vec<State>, Memory>
    ensures { IfOk result (λ world. world.items ≡ work.now.states) }
{
    let mut world = Vec::new(alloc);
    world.extend_from_slice(work.states.as_slice())?;
    Ok(world)
}

/// Runs the transaction of a reply in these states, and leaves what it leaves.
fn run_there(alloc: Global, work: &Work, world: &mut Vec<State>, n: TxNo) -> Result<(), Memory>
    requires limits { KeepsLimits (work_of work.now) }
    requires named { n.0 < length work.now.txs }
    requires actors { length world.old.items ≡ length work.now.states }
    ensures alone { IfOk result (λ _. world.new.items ≡ ((language (work_of work.now)).meaning world.old.items (tx_at (first_text (work_of work.now)) n.0)).world) }
    ensures actors { length world.new.items ≡ length world.old.items }
{
    let txs = work.txs.as_slice();
    let tx = &txs[n.0 as usize];
    let _result = run_alone(alloc, &work.program, world, tx)?;
    Ok(())
}

/// The states that those replies leave that count for batch k and number c, run one by one in their order. `Memory` where there is
/// no room.
pub(crate) fn world_left_below(
    alloc: Global,
    work: &Work,
    replies: &[LocatedReply],
    k: Bid,
    c: u64,
) -> Result<Vec<State>, Memory>
    requires limits { KeepsLimits (work_of work.now) }
    requires named { AllByRecursion (λ reply. reply.tx.0 < length work.now.txs) replies.now }
    ensures { IfOk result (λ world. (length world.items ≡ length work.now.states)
        × (world.items ≡ counted_world (language (work_of work.now)).meaning (first_text (work_of work.now)) k.0 c work.now.states (map done_of replies.now))) }
{
    let mut world = states_of(alloc, work)?;
    for reply in replies {
        if counts(reply, k, c) {
            run_there(alloc, work, &mut world, reply.tx)?;
        }
    }
    Ok(world)
}

/// Whether a transaction that failed so is transaction n with this code.
fn is_this(tx: TxNo, failed: u16, n: TxNo, code: u16) -> bool
    ensures { result ≡ ((tx.0 == n.0) && (failed == code)) }
{
    tx.0 == n.0 && failed == code
}

/// Whether transaction n is the first of these PACTs that fails, and has this code, where they run one by one from the states of
/// `world`. These change. `Memory` where a PACT cannot be run for want of it.
pub(crate) fn first_fails(
    alloc: Global,
    program: &Checked,
    txs: &[Tx],
    world: &mut Vec<State>,
    pacts: &[(Tid, TxNo)],
    n: TxNo,
    code: u16,
) -> Result<bool, Memory>
    requires txs { AllByRecursion (IsTransaction (methods_of program.now) (length world.old.items)) txs.now }
    requires pacts { AllByRecursion (λ q. q.tx < length txs.now) (map batch_pact pacts.now) }
    ensures { IfOk result (λ yes. yes ≡ first_fails (alone (methods_of program.now)) txs.now n.0 code world.old.items (map batch_pact pacts.now)) }
{
    for pact in pacts {
        let tx = &txs[pact.1.0 as usize];
        if let TxResult::Fail(failed) = run_alone(alloc, program, world, tx)? {
            return Ok(is_this(pact.1, failed, n, code));
        }
    }
    Ok(false)
}
