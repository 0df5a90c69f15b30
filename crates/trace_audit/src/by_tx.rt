//! What is found by the number of a transaction: its first ACT, the first batch that has it, and the batch that it is told failed
//! with it.
ghost use Rattle.std.specs.Prelude.{◌≡◌, ◌<◌, length, find, map, option_map, replicate, slice_get, IfOk};
ghost use Rattle.protocol.specs.Meant.{batch_pact};
ghost use Rattle.audit_papers.specs.ReportLines.{line_of, lines_of};
ghost use Rattle.audit_tale.specs.Knows.{bid_number};
ghost use Rattle.trace_audit.specs.ByTransaction.{AreAnswers, IsIndex, all_noted, code_noted, has_pact, is_act_for, is_noted, noted};
ghost use Rattle.trace_audit.specs.Evidence.{IsByTx, TellsCodes};

use audit_papers::ReportLine;
use audit_tale::{ActTale, BatchTale, Told};
use snap_base::{Bid, Memory, Tid, TxNo, Verdict};
use std::alloc::Global;

/// What is found by the number of a transaction, from 0 on: where its first ACT and the first batch that has it are kept, and the
/// batch that it is told failed with it.
#[derive(Drop)]
pub(crate) struct ByTx {
    pub(crate) acts: Vec<Option<usize>>,
    pub(crate) batches: Vec<Option<usize>>,
    pub(crate) codes: Vec<Option<Bid>>,
}

/// No place for any of so many transactions.
fn nothing_placed(alloc: Global, txs: usize) -> Result<Vec<Option<usize>>, Memory>
    ensures { IfOk result (λ v. v.items ≡ replicate txs None) }
{
    let places = vec![in alloc; None; txs]?;
    Ok(places)
}

/// The element at place `at` names transaction n. An earlier place stays, and a transaction past the last one that is kept is left
/// out.
fn note(places: &mut Vec<Option<usize>>, n: TxNo, at: usize)
    ensures { places.new.items ≡ noted n.0 at places.old.items }
{
    let n = n.0 as usize;
    if n >= places.len() {
        return;
    }
    match places[n] {
        Some(_) => {}
        None => places[n] = Some(at),
    }
}

/// The element at place `at` names the transactions of these PACTs.
fn note_pacts(places: &mut Vec<Option<usize>>, pacts: &[(Tid, TxNo)], at: usize)
    ensures { places.new.items ≡ all_noted at (map batch_pact pacts.now) places.old.items }
{
    for pact in pacts {
        note(places, pact.1, at);
    }
}

/// For each of so many transactions where its first ACT is kept. `Memory` where a place for each cannot be allocated.
fn acts_by_tx(alloc: Global, txs: usize, acts: &[ActTale]) -> Result<Vec<Option<usize>>, Memory>
    ensures { IfOk result (λ v. (length v.items ≡ txs) × IsIndex is_act_for acts.now v.items) }
{
    let mut places = nothing_placed(alloc, txs)?;
    for (at, act) in acts.iter().enumerate() {
        note(&mut places, act.tx, at);
    }
    Ok(places)
}

/// For each of so many transactions where the first batch is kept that has it. `Memory` where a place for each cannot be allocated.
fn batches_by_tx(
    alloc: Global,
    txs: usize,
    batches: &[BatchTale],
) -> Result<Vec<Option<usize>>, Memory>
    ensures { IfOk result (λ v. (length v.items ≡ txs) × IsIndex has_pact batches.now v.items) }
{
    let mut places = nothing_placed(alloc, txs)?;
    for (at, batch) in batches.iter().enumerate() {
        let formed = &batch.formed;
        note_pacts(&mut places, formed.txs.as_slice(), at);
    }
    Ok(places)
}

/// No batch for any of so many transactions.
fn nothing_told(alloc: Global, txs: usize) -> Result<Vec<Option<Bid>>, Memory>
    ensures { IfOk result (λ v. v.items ≡ replicate txs None) }
{
    let codes = vec![in alloc; None; txs]?;
    Ok(codes)
}

/// A line that tells that a batch failed with a transaction is noted there.
fn note_code(codes: &mut Vec<Option<Bid>>, line: &ReportLine)
    ensures { codes.new.items ≡ code_noted (line_of line.now) codes.old.items }
{
    let ReportLine::Reply { tx, verdict } = line else {
        return;
    };
    let Verdict::BatchCode { batch, .. } = *verdict else {
        return;
    };
    let n = tx.0 as usize;
    if n >= codes.len() {
        return;
    }
    codes[n] = Some(batch);
}

/// For each of so many transactions the batch that it is told failed with it. `Memory` where a place for each cannot be allocated.
fn codes_by_tx(alloc: Global, txs: usize, lines: &[ReportLine]) -> Result<Vec<Option<Bid>>, Memory>
    requires { AreAnswers txs (lines_of lines.now) }
    ensures { IfOk result (λ v. TellsCodes (lines_of lines.now) v.items) }
{
    let mut codes = nothing_told(alloc, txs)?;
    for line in lines {
        note_code(&mut codes, line);
    }
    Ok(codes)
}

/// What is found by each of so many transactions in what events and lines tell. `Memory` where it cannot be allocated.
pub(crate) fn by_tx(
    alloc: Global,
    txs: usize,
    told: &Told,
    lines: &[ReportLine],
) -> Result<ByTx, Memory>
    requires { AreAnswers txs (lines_of lines.now) }
    ensures { IfOk result (λ b. IsByTx txs told.now (lines_of lines.now) b) }
{
    let acts = acts_by_tx(alloc, txs, told.tale.acts.as_slice())?;
    let batches = batches_by_tx(alloc, txs, told.tale.batches.as_slice())?;
    let codes = codes_by_tx(alloc, txs, lines)?;
    Ok(ByTx {
        acts,
        batches,
        codes,
    })
}

/// The first ACT of transaction n.
pub(crate) fn act_of(places: &[Option<usize>], acts: &[ActTale], n: TxNo) -> Option<ActTale>
    requires kept { n.0 < length places.now }
    requires index { IsIndex is_act_for acts.now places.now }
    ensures { result ≡ find (is_act_for n.0) acts.now }
{
    match places[n.0 as usize] {
        Some(at) => Some(acts[at]),
        None => None,
    }
}

/// The number of the first batch that has transaction n.
pub(crate) fn batch_of(places: &[Option<usize>], batches: &[BatchTale], n: TxNo) -> Option<Bid>
    requires kept { n.0 < length places.now }
    requires index { IsIndex has_pact batches.now places.now }
    ensures { option_map bid_number result ≡ option_map (λ b. b.formed.bid) (find (has_pact n.0) batches.now) }
{
    match places[n.0 as usize] {
        Some(at) => {
            let formed = &batches[at].formed;
            Some(formed.bid)
        }
        None => None,
    }
}

/// Whether transaction n is told that batch k failed with it.
pub(crate) fn tells_code(codes: &[Option<Bid>], n: TxNo, k: Bid) -> bool
    ensures { result ≡ is_noted k.0 (slice_get codes.now n.0) }
{
    let n = n.0 as usize;
    if n >= codes.len() {
        return false;
    }
    match codes[n] {
        Some(told) => told.0 == k.0,
        None => false,
    }
}
