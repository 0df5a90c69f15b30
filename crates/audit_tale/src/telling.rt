//! What the events of who begins and who gets its place add to a tale: Form, Admit, Commit, Settle and Decide.
ghost use Rattle.std.specs.Prelude.{◌≡◌, ◌+◌, ◌<◌, ◌^◌, ◌⊎◌, Bool, false, Some, None, ◌++◌, length, map, replicate, IfOk, OnOk, MatchBool, MatchOption, slice_index_or};
ghost use Rattle.snap_base.specs.declared.transactions.Tx as base;
ghost use Rattle.protocol.specs.Conditions.{AllTrue};
ghost use Rattle.protocol.specs.Events as machine;
ghost use Rattle.protocol.specs.Fixed.{Text};
ghost use Rattle.protocol.specs.Meant.{batch_pact};
ghost use Rattle.protocol.specs.Parts.{OfAct};
ghost use Rattle.protocol.specs.Verdicts.{act_place};
ghost use Rattle.audit_words.specs.Audited.{ring_conditions};
ghost use Rattle.audit_words.specs.Happenings.{happened, pact_member};
ghost use Rattle.audit_words.specs.Seen.{Seen, act_in};
ghost use Rattle.audit_tale.specs.Knows.{AddsBatch, AreDrawn, Knows, member_of, owner_of};
ghost use Rattle.audit_tale.specs.Settings.{AreOfText};
ghost use Rattle.audit_tale.specs.declared.tales.Owner.TheVariants as owners;

use crate::tales::{ActTale, BatchTale, MemberTale, Owner, Tale};
use protocol::Formed;
use snap_base::{Bid, Memory, Place, Tid, Tx, TxNo, Who};
use std::alloc::Global;
use token_ring::FormNo;

/// Batch k is formed, of at most `batch` PACTs; false where that is not the next number or no PACT waits at the holder. After
/// `Memory` nothing is said of the tale.
pub(crate) fn form(
    alloc: Global,
    tale: &mut Tale,
    txs: &[Tx],
    batch: u16,
    k: Bid,
) -> Result<bool, Memory>
    requires tids { tale.old.ring.next_tid + 65536 < 2 ^ 64 }
    requires bids { tale.old.ring.next_bid + 1 < 2 ^ 64 }
    ensures { IfOk result (λ yes. (reads : base.Tx → Bool) (w : Text) (s : Seen) → w.txs ≡ txs.now → w.batch ≡ batch → AreDrawn s → Knows w tale.old s → MatchBool yes (AllTrue (ring_conditions w (machine.Form k.0) s.ring) × Knows w tale.new (happened reads w (machine.Form k.0) s)) (¬ AllTrue (ring_conditions w (machine.Form k.0) s.ring))) }
{
    if k.0 != tale.ring.next_bid().0 {
        return Ok(false);
    }
    match tale.ring.plan(alloc, txs, batch) {
        Ok(formed) => {
            tale.ring.form(&formed);
            add_batch(tale, formed)?;
            Ok(true)
        }
        Err(FormNo::Empty) => Ok(false),
        Err(FormNo::Memory) => Err(Memory),
    }
}

/// So many PACTs of batch k have drawn their tids. After `Memory` nothing is said of who has drawn tids.
fn add_pacts(drawn: &mut Vec<Owner>, k: Bid, many: usize) -> Result<(), Memory>
    ensures { OnOk result (drawn.new.items ≡ drawn.old.items ++ replicate many (owners.Pact k)) }
{
    for _pact in 0..many {
        drawn.push(Owner::Pact(k))?;
    }
    Ok(())
}

/// A batch that the ring has formed is kept, and its PACTs have drawn their tids. After `Memory` nothing is said of the tale.
fn add_batch(tale: &mut Tale, formed: Formed) -> Result<(), Memory>
    ensures { OnOk result (AddsBatch formed tale.old tale.new) }
{
    add_pacts(&mut tale.owners, formed.bid, formed.txs.len())?;
    tale.batches.push(BatchTale {
        formed,
        committed: false,
        settled: false,
    })?;
    Ok(())
}

/// An ACT begins with tid t; false where that is not the next tid or no ACT waits at the holder. `reads` tells of each
/// transaction of the text whether its method only reads. After `Memory` nothing is said of the tale.
pub(crate) fn admit(tale: &mut Tale, reads: &[bool], t: Tid) -> Result<bool, Memory>
    requires { tale.old.ring.next_tid + 1 < 2 ^ 64 }
    ensures { IfOk result (λ yes. (only_reads : base.Tx → Bool) (w : Text) (s : Seen) → w.opening.next_bid ≡ 1 → reads.now ≡ map only_reads w.txs → AreOfText w s.ring → AreDrawn s → Knows w tale.old s → MatchBool yes (AllTrue (ring_conditions w (machine.Admit t.0) s.ring) × Knows w tale.new (happened only_reads w (machine.Admit t.0) s)) (¬ AllTrue (ring_conditions w (machine.Admit t.0) s.ring))) }
{
    if t.0 != tale.ring.next_tid().0 {
        return Ok(false);
    }
    match tale.ring.admit() {
        Some((tid, tx)) => {
            tale.owners.push(Owner::Act(tale.acts.len()))?;
            tale.acts.push(begun(tid, tx, is_reader(reads, tx)))?;
            Ok(true)
        }
        None => Ok(false),
    }
}

/// Whether this transaction only reads; false where there is none of this number.
fn is_reader(reads: &[bool], tx: TxNo) -> bool
    ensures { result ≡ slice_index_or reads.now tx.0 false }
{
    match reads.get(tx.0 as usize) {
        Some(only_reads) => *only_reads,
        None => false,
    }
}

/// An ACT that begins on empty logs: no batch stands before it or behind it.
fn begun(tid: Tid, tx: TxNo, reader: bool) -> ActTale
    ensures { result ≡ record { tid = tid; tx = tx; reader = reader; before = record { 0 = 0 }; behind = None; given_up = None; decided = false } }
{
    ActTale {
        tid,
        tx,
        reader,
        before: Bid(0),
        behind: None,
        given_up: None,
        decided: false,
    }
}

/// Where the batch of a number is kept; `None` exactly where none was formed with it.
pub(crate) fn batch_at(tale: &Tale, k: Bid) -> Option<usize>
    ensures { MatchOption result ((k.0 ≡ 0) ⊎ (length tale.now.batches.items < k.0)) (λ at. (k.0 ≡ at + 1) × (at < length tale.now.batches.items)) }
{
    if k.0 == 0 || k.0 > tale.batches.len() as u64 {
        return None;
    }
    Some(k.0 as usize - 1)
}

/// The first Commit of a batch: its PACTs get their places, by tid. One of a batch that was not formed, or that has one
/// already, adds nothing. After `Memory` nothing is said of the tale.
pub(crate) fn commit(tale: &mut Tale, k: Bid) -> Result<(), Memory>
    ensures { OnOk result ((reads : base.Tx → Bool) (w : Text) (s : Seen) → AreDrawn s → Knows w tale.old s → Knows w tale.new (happened reads w (machine.Commit k.0) s)) }
{
    let Some(at) = batch_at(tale, k) else {
        return Ok(());
    };
    if tale.batches[at].committed {
        return Ok(());
    }
    add_members(&mut tale.members, &tale.batches[at].formed)?;
    tale.batches[at].committed = true;
    Ok(())
}

/// The PACTs of a batch get their places, by tid. After `Memory` nothing is said of the members.
fn add_members(members: &mut Vec<MemberTale>, formed: &Formed) -> Result<(), Memory>
    ensures { OnOk result (map member_of members.new.items ≡ map member_of members.old.items ++ map (pact_member formed.now.bid) formed.now.pacts) }
{
    for pact in &formed.txs {
        members.push(pact_at(formed.bid, *pact))?;
    }
    Ok(())
}

/// A PACT of batch k, with this tid and transaction, at its place.
fn pact_at(k: Bid, pact: (Tid, TxNo)) -> MemberTale
    ensures { member_of result ≡ pact_member k.0 (batch_pact pact) }
{
    MemberTale {
        who: Who::Batch(k),
        tid: pact.0,
        tx: pact.1,
        place: Place {
            batch: k,
            side: 0,
            order: pact.0.0,
        },
        reader: false,
    }
}

/// The first Settle of a batch. One of a batch that was not formed, or that has one already, adds nothing.
pub(crate) fn settle(tale: &mut Tale, k: Bid)
    requires { tale.old.settled + 1 < 2 ^ 64 }
    ensures { (reads : base.Tx → Bool) (w : Text) (s : Seen) → AreDrawn s → Knows w tale.old s → Knows w tale.new (happened reads w (machine.Settle k.0) s) }
{
    let Some(at) = batch_at(tale, k) else {
        return;
    };
    if tale.batches[at].settled {
        return;
    }
    tale.batches[at].settled = true;
    tale.settled += 1;
}

/// Where the ACT of a tid is kept; `None` exactly where no ACT drew it.
pub(crate) fn act_at(tale: &Tale, t: Tid) -> Option<usize>
    ensures { MatchOption result ((w : Text) (s : Seen) → Knows w tale.now s → act_in t.0 s.acts ≡ None) (λ at. (owner_of t.0 tale.now.owners.items ≡ Some (owners.Act at)) × (at < length tale.now.acts.items)) }
{
    if t.0 == 0 || t.0 > tale.owners.len() as u64 {
        return None;
    }
    match tale.owners[t.0 as usize - 1] {
        Owner::Pact(_batch) => None,
        Owner::Act(at) if at < tale.acts.len() => Some(at),
        Owner::Act(_at) => None,
    }
}

/// The first Decide of an ACT: it gets its place, behind the greatest batch before it, with the number that is drawn next. One
/// of a tid that no ACT drew, or of an ACT that has one already, adds nothing. After `Memory` nothing is said of the tale.
pub(crate) fn decide(tale: &mut Tale, t: Tid) -> Result<(), Memory>
    requires { tale.old.next_c + 1 < 2 ^ 64 }
    ensures { OnOk result ((reads : base.Tx → Bool) (w : Text) (s : Seen) → AreDrawn s → Knows w tale.old s → Knows w tale.new (happened reads w (machine.Decide t.0) s)) }
{
    let Some(at) = act_at(tale, t) else {
        return Ok(());
    };
    let act = tale.acts[at];
    if act.decided {
        return Ok(());
    }
    tale.members.push(decided(&act, tale.next_c))?;
    tale.acts[at].decided = true;
    tale.next_c += 1;
    Ok(())
}

/// An ACT at its place, with this number.
fn decided(act: &ActTale, c: u64) -> MemberTale
    ensures { member_of result ≡ record { who = OfAct act.now.tid.0; tid = act.now.tid.0; tx = act.now.tx.0; place = act_place act.now.before.0 c; reader = act.now.reader } }
{
    MemberTale {
        who: Who::Act(act.tid),
        tid: act.tid,
        tx: act.tx,
        place: Place {
            batch: act.before,
            side: 1,
            order: c,
        },
        reader: act.reader,
    }
}
