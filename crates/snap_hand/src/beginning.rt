//! The events by which batches and ACTs begin, on a hand.
ghost use Rattle.std.specs.Prelude.{◌≡◌, ◌%◌, OnOk, OnErr, IfErr};
ghost use Rattle.aml_slice.specs.Controls.{Rest};
ghost use Rattle.core_rows.specs.Showing.{ShowsBook, ShowsDesk, ShowsLogAt, ShowsPost, ShowsRing};
ghost use Rattle.core_rows.specs.Starts.{TellsReader};
ghost use Rattle.core_rows.specs.Taken.{IsOfRun, IsTaken, IsNo};
ghost use Rattle.protocol.specs.Events as event;
ghost use Rattle.snap_hand.specs.Steps.{MayBeAsked, IsRefusalOn, IsStep};
ghost use Rattle.snap_hand.specs.Tables.{AreTables, fixed_of};

use crate::tables::{base, log_of};
use crate::{Hand, Tables};
use aml_slice::Control;
use core_rows::{BookPart, Desk, LogPart, Post, Ring, StepNo};
use snap_base::{Bid, Tid, Tx};
use std::alloc::Global;

/// Which of the conditions of Form is the first false one, or 0.
pub(crate) fn form_refusal(tables: &Tables, hand: &Hand, k: Bid) -> u8
    requires tables { AreTables tables.now }
    requires asked { MayBeAsked (fixed_of tables.now) (event.Form k.0) hand.now }
    ensures { IsRefusalOn (fixed_of tables.now) (event.Form k.0) hand.now result }
{
    core_rows::form_refusal::<Control>(hand.ring(), hand.desk(), tables.work.batches as u32, k)
}

/// Form, on the parts of its footprint: the program starts the PACTs of the batch.
fn form_on(
    alloc: Global,
    tables: &Tables,
    ring: &mut Ring,
    post: &mut Post<Control>,
    desk: &mut Desk,
    log: &mut LogPart,
    k: Bid,
) -> Result<(), StepNo>
    requires tables { AreTables tables.now }
    requires run { IsOfRun {C = Rest} (λ w s. (w ≡ fixed_of tables.now) × ShowsRing ring.old s × ShowsPost post.old s × ShowsDesk desk.old s × ShowsLogAt (k.0 % w.text.logs) log.old s) }
    ensures ok { OnOk result (IsTaken {C = Rest} (event.Form k.0) (λ w s. (w ≡ fixed_of tables.now) × ShowsRing ring.old s × ShowsPost post.old s × ShowsDesk desk.old s × ShowsLogAt (k.0 % w.text.logs) log.old s) (λ w s. ShowsRing ring.new s × ShowsPost post.new s × ShowsDesk desk.new s × ShowsLogAt (k.0 % w.text.logs) log.new s)) }
    ensures no { IfErr result (IsNo {C = Rest} (event.Form k.0) (λ w s. (w ≡ fixed_of tables.now) × ShowsRing ring.old s × ShowsPost post.old s × ShowsDesk desk.old s × ShowsLogAt (k.0 % w.text.logs) log.old s)) }
    ensures unchanged { OnErr result ((ring.new ≡ ring.old) × (post.new.messages ≡ post.old.messages) × (desk.new ≡ desk.old) × (log.new.log ≡ log.old.log)) }
{
    let start = |t: Tid, tx: &Tx| Control::start(alloc, &tables.work.program, t, tx);
    let txs = tables.work.txs.as_slice();
    let batches = tables.work.batches as u32;
    let most = tables.work.batch;
    core_rows::form(alloc, txs, &start, ring, post, desk, log, batches, most, k)
}

/// Form.
pub(crate) fn form(alloc: Global, tables: &Tables, hand: &mut Hand, k: Bid) -> Result<(), StepNo>
    requires tables { AreTables tables.now }
    requires asked { MayBeAsked (fixed_of tables.now) (event.Form k.0) hand.old }
    ensures { IsStep (fixed_of tables.now) (event.Form k.0) hand.old hand.new result }
{
    let l = log_of(tables, k.0);
    let mut log = hand.take_log(l);
    let mut ring = hand.take_ring();
    let mut post = hand.take_post();
    let mut desk = hand.take_desk();
    let step = form_on(alloc, tables, &mut ring, &mut post, &mut desk, &mut log, k);
    hand.put_ring(ring);
    hand.put_post(post);
    hand.put_desk(desk);
    hand.put_log(l, log);
    step
}

/// Which of the conditions of Admit is the first false one, or 0.
pub(crate) fn admit_refusal(tables: &Tables, hand: &Hand, t: Tid) -> u8
    requires tables { AreTables tables.now }
    requires asked { MayBeAsked (fixed_of tables.now) (event.Admit t.0) hand.now }
    ensures { IsRefusalOn (fixed_of tables.now) (event.Admit t.0) hand.now result }
{
    core_rows::admit_refusal::<Control>(hand.ring(), hand.book(), tables.work.acts as u32, t)
}

/// Whether the ACT that is admitted next only reads, as its root method promises. Where none waits, or the text has no
/// such transaction, it does not.
fn next_act_reads(tables: &Tables, ring: &Ring) -> bool
    requires { AreTables tables.now }
    ensures { TellsReader result ring.now (fixed_of tables.now) }
{
    let Some((_tid, n)) = ring.next_act() else {
        return false;
    };
    match tables.work.txs.get(n.0 as usize) {
        Some(tx) => tables.work.program.is_read(tx.method),
        None => false,
    }
}

/// Admit, on the parts of its footprint: the program starts the ACT, and tells whether it only reads.
fn admit_on(
    alloc: Global,
    tables: &Tables,
    ring: &mut Ring,
    book: &mut BookPart,
    post: &mut Post<Control>,
    t: Tid,
) -> Result<(), StepNo>
    requires tables { AreTables tables.now }
    requires run { IsOfRun {C = Rest} (λ w s. (w ≡ fixed_of tables.now) × ShowsRing ring.old s × ShowsBook book.old s × ShowsPost post.old s) }
    ensures ok { OnOk result (IsTaken {C = Rest} (event.Admit t.0) (λ w s. (w ≡ fixed_of tables.now) × ShowsRing ring.old s × ShowsBook book.old s × ShowsPost post.old s) (λ w s. ShowsRing ring.new s × ShowsBook book.new s × ShowsPost post.new s)) }
    ensures no { IfErr result (IsNo {C = Rest} (event.Admit t.0) (λ w s. (w ≡ fixed_of tables.now) × ShowsRing ring.old s × ShowsBook book.old s × ShowsPost post.old s)) }
    ensures room { book.new.most ≡ book.old.most }
    ensures unchanged { OnErr result ((ring.new ≡ ring.old) × (book.new ≡ book.old) × (post.new.messages ≡ post.old.messages)) }
{
    let start = |t: Tid, tx: &Tx| Control::start(alloc, &tables.work.program, t, tx);
    let txs = tables.work.txs.as_slice();
    let acts = tables.work.acts as u32;
    let first = base(tables);
    let reader = next_act_reads(tables, ring);
    core_rows::admit(alloc, txs, &start, ring, book, post, acts, first, t, reader)
}

/// Admit.
pub(crate) fn admit(alloc: Global, tables: &Tables, hand: &mut Hand, t: Tid) -> Result<(), StepNo>
    requires tables { AreTables tables.now }
    requires asked { MayBeAsked (fixed_of tables.now) (event.Admit t.0) hand.old }
    ensures { IsStep (fixed_of tables.now) (event.Admit t.0) hand.old hand.new result }
{
    let mut ring = hand.take_ring();
    let mut book = hand.take_book();
    let mut post = hand.take_post();
    let step = admit_on(alloc, tables, &mut ring, &mut book, &mut post, t);
    hand.put_ring(ring);
    hand.put_book(book);
    hand.put_post(post);
    step
}
