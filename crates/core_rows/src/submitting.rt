//! The row by which transactions of the text come to their coordinators.
ghost use Rattle.std.specs.Prelude.{◌≡◌, ◌==◌, ◌&&◌, nat_lt, length, OnOk, OnErr, IfErr};
ghost use Rattle.protocol.specs.Events.{Submit};
ghost use Rattle.core_rows.specs.Showing.{ShowsRing, ShowsTxs};
ghost use Rattle.core_rows.specs.Taken.{IsOfRun, IsTaken, IsRefusal, IsNo};

use crate::StepNo;
use crate::asking::first_no;
use crate::laws::rows_may;
use snap_base::{Tx, TxNo};
use token_ring::Ring;

/// Submit: 1 where its condition is false, or 0.
pub fn submit_refusal<C>(txs: &[Tx], ring: &Ring, n: TxNo) -> u8
    ensures { IsRefusal {C = C} (Submit n.0) (λ w s. ShowsTxs txs.now w × ShowsRing ring.now s) result }
{
    let next = is_next(txs, ring, n);
    first_no(&[next])
}

/// Whether this is the transaction to submit next.
fn is_next(txs: &[Tx], ring: &Ring, n: TxNo) -> bool
    ensures { result ≡ ((n.0 == ring.now.next_tx) && nat_lt n.0 (length txs.now)) }
{
    let next = ring.next_tx();
    n.0 == next.0 && (n.0 as usize) < txs.len()
}

/// Submit: transaction `n` of the text joins its queue.
pub fn submit<C>(txs: &[Tx], ring: &mut Ring, n: TxNo) -> Result<(), StepNo>
    requires { IsOfRun {C = C} (λ w s. ShowsTxs txs.now w × ShowsRing ring.old s) }
    ensures ok { OnOk result (IsTaken {C = C} (Submit n.0) (λ w s. ShowsTxs txs.now w × ShowsRing ring.old s) (λ w s. ShowsRing ring.new s)) }
    ensures no { IfErr result (IsNo {C = C} (Submit n.0) (λ w s. ShowsTxs txs.now w × ShowsRing ring.old s)) }
    ensures unchanged { OnErr result (ring.new ≡ ring.old) }
{
    rows_may::<C>();
    let rule = submit_refusal::<C>(txs, ring, n);
    if rule != 0 {
        return Err(StepNo::NotNow { rule });
    }
    let tx = &txs[n.0 as usize];
    ring.submit(n, tx.kind)?;
    Ok(())
}
