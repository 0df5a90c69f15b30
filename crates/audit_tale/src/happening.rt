//! What the events of the coordinators, and of who gets its place, add to all that is kept.
ghost use Rattle.std.specs.Prelude.{◌≡◌, ◌+◌, ◌<◌, ◌^◌, Bool, length, map, IfOk, OnOk, MatchBool};
ghost use Rattle.snap_base.specs.declared.transactions.Tx as base;
ghost use Rattle.protocol.specs.Conditions.{AllTrue};
ghost use Rattle.protocol.specs.Events as machine;
ghost use Rattle.protocol.specs.Fixed.{Text};
ghost use Rattle.audit_words.specs.Audited.{ring_conditions};
ghost use Rattle.audit_words.specs.Happenings.{happened};
ghost use Rattle.audit_words.specs.Seen.{Seen};
ghost use Rattle.audit_tale.specs.Settings.{AreOfText};
ghost use Rattle.audit_tale.specs.Stands.{IsSound, KnowsAll};

use crate::told::{ActTies, BatchWay, Told};
use crate::{numbering, telling};
use snap_base::{Bid, Memory, Tid, Tx, TxNo};
use std::alloc::Global;

/// Transaction n is submitted; false where it is not the next one of the text. After `Memory` nothing is said of what is kept.
pub(crate) fn submit(told: &mut Told, txs: &[Tx], n: TxNo) -> Result<bool, Memory>
    requires { length txs.now < 2 ^ 32 }
    ensures { IfOk result (λ yes. (reads : base.Tx → Bool) (w : Text) (s : Seen) → w.coordinators ≡ length told.old.tale.ring.pacts → w.txs ≡ txs.now → KnowsAll w told.old s → MatchBool yes (AllTrue (ring_conditions w (machine.Submit n.0) s.ring) × KnowsAll w told.new (happened reads w (machine.Submit n.0) s)) (¬ AllTrue (ring_conditions w (machine.Submit n.0) s.ring))) }
{
    numbering::submit(&mut told.tale.ring, txs, n)
}

/// The token goes on to coordinator c; false where that is not the next one, or something waits at the holder, or nothing waits
/// anywhere.
pub(crate) fn pass(told: &mut Told, c: u8) -> bool
    ensures { (reads : base.Tx → Bool) (w : Text) (s : Seen) → w.coordinators ≡ length told.old.tale.ring.pacts → KnowsAll w told.old s → MatchBool result (AllTrue (ring_conditions w (machine.Pass c) s.ring) × KnowsAll w told.new (happened reads w (machine.Pass c) s)) (¬ AllTrue (ring_conditions w (machine.Pass c) s.ring)) }
{
    numbering::pass(&mut told.tale.ring, c)
}

/// Batch k is formed, of at most `batch` PACTs; false where that is not the next number or no PACT waits at the holder. After
/// `Memory` nothing is said of what is kept.
pub(crate) fn form(
    alloc: Global,
    told: &mut Told,
    txs: &[Tx],
    batch: u16,
    k: Bid,
) -> Result<bool, Memory>
    requires tids { told.old.tale.ring.next_tid + 65536 < 2 ^ 64 }
    requires bids { told.old.tale.ring.next_bid + 1 < 2 ^ 64 }
    ensures { IfOk result (λ yes. (reads : base.Tx → Bool) (w : Text) (s : Seen) → w.txs ≡ txs.now → w.batch ≡ batch → IsSound s → KnowsAll w told.old s → MatchBool yes (AllTrue (ring_conditions w (machine.Form k.0) s.ring) × KnowsAll w told.new (happened reads w (machine.Form k.0) s)) (¬ AllTrue (ring_conditions w (machine.Form k.0) s.ring))) }
{
    if !telling::form(alloc, &mut told.tale, txs, batch, k)? {
        return Ok(false);
    }
    told.ways.push(BatchWay {
        came: Vec::new(alloc),
        is_cut: false,
        fall: None,
    })?;
    told.uncut.push(k)?;
    Ok(true)
}

/// An ACT begins with tid t; false where that is not the next tid or no ACT waits at the holder. `reads` tells of each
/// transaction whether its method only reads. After `Memory` nothing is said of what is kept.
pub(crate) fn admit(alloc: Global, told: &mut Told, reads: &[bool], t: Tid) -> Result<bool, Memory>
    requires { told.old.tale.ring.next_tid + 1 < 2 ^ 64 }
    ensures { IfOk result (λ yes. (only_reads : base.Tx → Bool) (w : Text) (s : Seen) → w.opening.next_bid ≡ 1 → reads.now ≡ map only_reads w.txs → AreOfText w s.ring → IsSound s → KnowsAll w told.old s → MatchBool yes (AllTrue (ring_conditions w (machine.Admit t.0) s.ring) × KnowsAll w told.new (happened only_reads w (machine.Admit t.0) s)) (¬ AllTrue (ring_conditions w (machine.Admit t.0) s.ring))) }
{
    let at = told.tale.acts.len();
    if !telling::admit(&mut told.tale, reads, t)? {
        return Ok(false);
    }
    told.ties.push(ActTies {
        waiters: Vec::new(alloc),
        left: Vec::new(alloc),
    })?;
    told.going.push(at)?;
    Ok(true)
}

/// The first Commit of a batch: its PACTs get their places. One of a batch that was not formed, or that has one already, adds
/// nothing. After `Memory` nothing is said of what is kept.
pub(crate) fn commit(told: &mut Told, k: Bid) -> Result<(), Memory>
    ensures { OnOk result ((reads : base.Tx → Bool) (w : Text) (s : Seen) → IsSound s → KnowsAll w told.old s → KnowsAll w told.new (happened reads w (machine.Commit k.0) s)) }
{
    telling::commit(&mut told.tale, k)
}

/// The first Settle of a batch. One of a batch that was not formed, or that has one already, adds nothing.
pub(crate) fn settle(told: &mut Told, k: Bid)
    requires { told.old.tale.settled + 1 < 2 ^ 64 }
    ensures { (reads : base.Tx → Bool) (w : Text) (s : Seen) → IsSound s → KnowsAll w told.old s → KnowsAll w told.new (happened reads w (machine.Settle k.0) s) }
{
    telling::settle(&mut told.tale, k);
}

/// The first Decide of an ACT: it gets its place. One of a tid that no ACT drew, or of an ACT that has one already, adds nothing.
/// After `Memory` nothing is said of what is kept.
pub(crate) fn decide(told: &mut Told, t: Tid) -> Result<(), Memory>
    requires { told.old.tale.next_c + 1 < 2 ^ 64 }
    ensures { OnOk result ((reads : base.Tx → Bool) (w : Text) (s : Seen) → IsSound s → KnowsAll w told.old s → KnowsAll w told.new (happened reads w (machine.Decide t.0) s)) }
{
    telling::decide(&mut told.tale, t)
}
