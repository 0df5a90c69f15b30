//! The PACTs of a batch, and how each ended.
ghost use Rattle.std.specs.Prelude.{◌≡◌, ◌==◌, Some, None, map, option_map, IfOk};
ghost use Rattle.std.specs.List.{list_all};
ghost use Rattle.protocol.specs.Words as words;
ghost use Rattle.protocol.specs.OnDesk.{with_result};
ghost use Rattle.protocol.specs.Meant.{batch_pact};
ghost use Rattle.batch_table.specs.Askings.{failure_shown};
ghost use Rattle.batch_table.specs.Joining as joining;
ghost use Rattle.batch_table.specs.Listed.{tx_named};

use snap_base::{Memory, Sequence, Tid, TxNo, TxResult};
use std::alloc::Global;
use std::marker::Model;

/// A PACT of a batch: its tid, its transaction, and how it ended.
#[derive(Drop)]
pub(crate) struct PactEntry {
    tid: Tid,
    tx: TxNo,
    result: Option<TxResult>,
}

impl Model for PactEntry {
    ghost use Rattle.protocol.specs.Parts.{Pact};

    ghost Value = { Pact };

    ghost view = { λ p. record { tid = p.tid.0; tx = p.tx.0; result = p.result } };
}

impl PactEntry {
    /// One that has not ended.
    pub fn new(tid: Tid, tx: TxNo) -> Self
        ensures { result ≡ record { tid = tid.0; tx = tx.0; result = None } }
    {
        PactEntry {
            tid,
            tx,
            result: None,
        }
    }

    /// Its tid.
    pub fn tid(&self) -> Tid
        ensures { result.0 ≡ self.now.tid }
    {
        self.tid
    }

    /// Its transaction.
    pub fn tx(&self) -> TxNo
        ensures { result.0 ≡ self.now.tx }
    {
        self.tx
    }

    /// How it ended; `None` where nothing was noted.
    pub fn result(&self) -> Option<TxResult>
        ensures { result ≡ self.now.result }
    {
        self.result
    }

    fn has_value(&self) -> bool
        ensures { result ≡ words.is_value self.now.result }
    {
        match self.result {
            Some(TxResult::Value(_)) => true,
            Some(TxResult::Fail(_)) => false,
            None => false,
        }
    }

    /// The value that it ended with; 0 where it did not.
    fn value(&self) -> i64
        ensures { result ≡ words.value_of self.now.result }
    {
        match self.result {
            Some(TxResult::Value(value)) => value,
            Some(TxResult::Fail(_)) => 0,
            None => 0,
        }
    }

    fn end(&mut self, r: TxResult)
        ensures { self.new ≡ record self.old { result = Some r } }
    {
        self.result = Some(r);
    }
}

/// The tid of the first one, or 0 where there is none.
pub(crate) fn first_tid(pacts: &[PactEntry]) -> u64
    ensures { result ≡ joining.first_or_zero (joining.pact_tids pacts.now) }
{
    match pacts.first() {
        Some(pact) => pact.tid().0,
        None => 0,
    }
}

/// Their transactions, in order.
pub(crate) fn txs(alloc: Global, pacts: &[PactEntry]) -> Result<Vec<TxNo>, Memory>
    ensures { IfOk result (λ txs. map (λ n. n.0) txs.items ≡ map (λ p. p.tx) pacts.now) }
{
    let mut txs = Vec::with_capacity(alloc, pacts.len())?;
    for pact in pacts {
        txs.push(pact.tx())?;
    }
    Ok(txs)
}

/// The values that they ended with, in order.
pub(crate) fn values(alloc: Global, pacts: &[PactEntry]) -> Result<Sequence<i64>, Memory>
    ensures { IfOk result (λ values. values ≡ map (λ p. words.value_of p.result) pacts.now) }
{
    let mut values = Sequence::new(alloc);
    for pact in pacts {
        values.push(pact.value())?;
    }
    Ok(values)
}

/// Whether all ended with a value.
pub(crate) fn have_values(pacts: &[PactEntry]) -> bool
    ensures { result ≡ list_all (λ p. words.is_value p.result) pacts.now }
{
    pacts.iter().all(|pact| pact.has_value())
}

/// The first one that failed, if all before it ended with a value: its transaction and its code.
pub(crate) fn first_failed(pacts: &[PactEntry]) -> Option<(TxNo, u16)>
    ensures { result ≡ option_map failure_shown (words.first_failed pacts.now) }
{
    for pact in pacts {
        match pact.result() {
            None => return None,
            Some(TxResult::Fail(code)) => return Some((pact.tx(), code)),
            Some(TxResult::Value(_)) => {}
        }
    }
    None
}

/// How the one with this tid ended, if that was noted. Their tids are one after another.
pub(crate) fn result_of(pacts: &[PactEntry], tid: Tid) -> Option<TxResult>
    requires { joining.AreConsecutive (joining.pact_tids pacts.now) }
    ensures { result ≡ words.result_among tid.0 pacts.now }
{
    let first = first_tid(pacts);
    if tid.0 < first {
        return None;
    }
    match pacts.get((tid.0 - first) as usize) {
        Some(pact) => pact.result(),
        None => None,
    }
}

/// The transaction of the one with this tid, if there is one. Their tids are one after another.
pub(crate) fn tx_of(pacts: &[PactEntry], tid: Tid) -> Option<TxNo>
    requires { joining.AreConsecutive (joining.pact_tids pacts.now) }
    ensures { option_map (λ n. n.0) result ≡ tx_named tid.0 pacts.now }
{
    let first = first_tid(pacts);
    if tid.0 < first {
        return None;
    }
    match pacts.get((tid.0 - first) as usize) {
        Some(pact) => Some(pact.tx()),
        None => None,
    }
}

/// Notes how the one with this tid ended, if there is one. Their tids are one after another.
pub(crate) fn note_end(pacts: &mut [PactEntry], tid: Tid, r: TxResult)
    requires { joining.AreConsecutive (joining.pact_tids pacts.old) }
    ensures { pacts.new ≡ map (with_result tid.0 r) pacts.old }
{
    let first = first_tid(pacts);
    if tid.0 < first {
        return;
    }
    let place = (tid.0 - first) as usize;
    if place < pacts.len() {
        pacts[place].end(r);
    }
}
