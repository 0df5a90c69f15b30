//! The located replies run one by one in the order of their places, as the language means their transactions.
ghost use Rattle.std.specs.Prelude.{◌≡◌, ◌<◌, List, [], ◌∷◌, ◌++◌, length, map, IfOk};
ghost use Rattle.std.specs.List.{AllByRecursion};
ghost use Rattle.audit_words.specs.Clauses.{world_left_by};
ghost use Rattle.audit_words.specs.Inputs.{first_text, language};
ghost use Rattle.protocol.specs.Fixed.{tx_at};
ghost use Rattle.protocol.specs.History.{Done};
ghost use Rattle.snap_work.specs.Kept.{KeepsLimits};
ghost use Rattle.snap_work.specs.Works.{work_of};
ghost use Rattle.trace_audit.specs.Located.{done_of};
ghost use Rattle.trace_audit.specs.Meanings.{Walked};

use crate::located::LocatedReply;
use aml_serial::run_alone;
use snap_base::{Memory, State, TxResult};
use snap_work::Work;
use std::alloc::Global;

/// What the replies so far leave: for each transaction what it gave at its place, if one of them is to it, and the states of all
/// actors.
#[derive(Drop)]
pub struct Walk {
    pub results: Vec<Option<TxResult>>,
    pub world: Vec<State>,
}

/// What replies give that run one by one, and the states that they leave. `Memory` where there is no room.
pub fn run_by_place(alloc: Global, work: &Work, replies: &[LocatedReply]) -> Result<Walk, Memory>
    requires limits { KeepsLimits (work_of work.now) }
    requires named { AllByRecursion (λ reply. reply.tx.0 < length work.now.txs) replies.now }
    ensures { IfOk result (λ walk. Walked (language (work_of work.now)).meaning (first_text (work_of work.now)) (map done_of replies.now) walk.results.items walk.world.items) }
{
    let mut walk = begin(alloc, work)?;
    for reply in replies {
        go_on(alloc, work, &mut walk, *reply)?;
    }
    Ok(walk)
}

/// Before the first reply: nothing is given, and the states are those of the work.
fn begin(alloc: Global, work: &Work) -> Result<Walk, Memory>
    ensures { IfOk result (λ walk. Walked (language (work_of work.now)).meaning (first_text (work_of work.now)) [] walk.results.items walk.world.items) }
{
    let results = vec![in alloc; None; work.txs.len()]?;
    let mut world = Vec::new(alloc);
    world.extend_from_slice(work.states.as_slice())?;
    Ok(Walk { results, world })
}

/// Runs the transaction of the next reply. What a transaction gave first stays.
fn go_on(alloc: Global, work: &Work, walk: &mut Walk, reply: LocatedReply) -> Result<(), Memory>
    requires limits { KeepsLimits (work_of work.now) }
    requires named { reply.tx.0 < length work.now.txs }
    requires results { length walk.old.results.items ≡ length work.now.txs }
    requires actors { length walk.old.world.items ≡ length work.now.states }
    ensures { (ds : List Done) → Walked (language (work_of work.now)).meaning (first_text (work_of work.now)) ds walk.old.results.items walk.old.world.items
        → IfOk result (λ _. Walked (language (work_of work.now)).meaning (first_text (work_of work.now)) (ds ++ done_of reply ∷ []) walk.new.results.items walk.new.world.items) }
{
    let n = reply.tx.0 as usize;
    let result = run(alloc, work, &mut walk.world, reply)?;
    let first = walk.results[n].unwrap_or(result);
    walk.results[n] = Some(first);
    Ok(())
}

/// What the transaction of a reply gives in these states. Where the reply tells a value, it leaves what it leaves alone, else
/// nothing.
fn run(
    alloc: Global,
    work: &Work,
    world: &mut Vec<State>,
    reply: LocatedReply,
) -> Result<TxResult, Memory>
    requires limits { KeepsLimits (work_of work.now) }
    requires named { reply.tx.0 < length work.now.txs }
    requires actors { length world.old.items ≡ length work.now.states }
    ensures gives { IfOk result (λ r. r ≡ ((language (work_of work.now)).meaning world.old.items (tx_at (first_text (work_of work.now)) reply.tx.0)).result) }
    ensures leaves { IfOk result (λ _. world.new.items ≡ world_left_by (language (work_of work.now)).meaning (first_text (work_of work.now)) world.old.items (done_of reply)) }
    ensures actors { length world.new.items ≡ length world.old.items }
{
    match reply.result {
        TxResult::Value(_) => run_there(alloc, work, world, reply),
        TxResult::Fail(_) => run_aside(alloc, work, world.as_slice(), reply),
    }
}

/// Runs the transaction of a reply in these states, and leaves what it leaves.
fn run_there(
    alloc: Global,
    work: &Work,
    world: &mut Vec<State>,
    reply: LocatedReply,
) -> Result<TxResult, Memory>
    requires limits { KeepsLimits (work_of work.now) }
    requires named { reply.tx.0 < length work.now.txs }
    requires actors { length world.old.items ≡ length work.now.states }
    ensures alone { IfOk result (λ r. (language (work_of work.now)).meaning world.old.items (tx_at (first_text (work_of work.now)) reply.tx.0) ≡ record { result = r; world = world.new.items }) }
    ensures actors { length world.new.items ≡ length world.old.items }
{
    let txs = work.txs.as_slice();
    let tx = &txs[reply.tx.0 as usize];
    run_alone(alloc, &work.program, world, tx)
}

/// What the transaction of a reply gives in these states, in a copy of them.
fn run_aside(
    alloc: Global,
    work: &Work,
    world: &[State],
    reply: LocatedReply,
) -> Result<TxResult, Memory>
    requires limits { KeepsLimits (work_of work.now) }
    requires named { reply.tx.0 < length work.now.txs }
    requires actors { length world.now ≡ length work.now.states }
    ensures { IfOk result (λ r. r ≡ ((language (work_of work.now)).meaning world.now (tx_at (first_text (work_of work.now)) reply.tx.0)).result) }
{
    let mut aside = Vec::new(alloc);
    aside.extend_from_slice(world)?;
    run_there(alloc, work, &mut aside, reply)
}
