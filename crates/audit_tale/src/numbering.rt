//! What the events Submit and Pass make of the ring, where the first clause allows them.
ghost use Rattle.std.specs.Prelude.{◌≡◌, ◌<◌, ◌^◌, length, IfOk, MatchBool};
ghost use Rattle.protocol.specs.Conditions.{AllTrue};
ghost use Rattle.protocol.specs.Fixed.{Text};
ghost use Rattle.protocol.specs.Events as machine;
ghost use Rattle.audit_words.specs.Audited.{ring_conditions};
ghost use Rattle.audit_words.specs.Happenings.{ring_after};

use snap_base::{Memory, Tx, TxNo};
use token_ring::Ring;

/// Transaction n joins its queue; false where it is not the next one of the text.
pub(crate) fn submit(ring: &mut Ring, txs: &[Tx], n: TxNo) -> Result<bool, Memory>
    requires { length txs.now < 2 ^ 32 }
    ensures { IfOk result (λ yes. (w : Text) → w.coordinators ≡ length ring.old.pacts → w.txs ≡ txs.now → MatchBool yes (AllTrue (ring_conditions w (machine.Submit n.0) ring.old) × (ring.new ≡ ring_after w (machine.Submit n.0) ring.old)) (¬ AllTrue (ring_conditions w (machine.Submit n.0) ring.old))) }
{
    if n.0 != ring.next_tx().0 {
        return Ok(false);
    }
    let at = n.0 as usize;
    if at >= txs.len() {
        return Ok(false);
    }
    ring.submit(n, txs[at].kind)?;
    Ok(true)
}

/// The token goes on to coordinator c; false where that is not the next one, or something waits at the
/// holder, or nothing waits anywhere.
pub(crate) fn pass(ring: &mut Ring, c: u8) -> bool
    ensures { (w : Text) → w.coordinators ≡ length ring.old.pacts → MatchBool result (AllTrue (ring_conditions w (machine.Pass c) ring.old) × (ring.new ≡ ring_after w (machine.Pass c) ring.old)) (¬ AllTrue (ring_conditions w (machine.Pass c) ring.old)) }
{
    let next = (ring.holder() as usize + 1) % ring.coordinators() as usize;
    if c as usize != next {
        return false;
    }
    if !ring.may_pass() {
        return false;
    }
    ring.pass();
    true
}
