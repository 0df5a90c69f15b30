//! The row by which a batch is made of waiting PACTs.
ghost use Rattle.std.specs.Prelude.{◌≡◌, ◌<◌, ◌≤◌, ◌+◌, ◌%◌, ◌^◌, ◌++◌, None, length, map, IfOk, OnOk, OnErr, IfErr};
ghost use Rattle.protocol.specs.Events.{Form};
ghost use Rattle.protocol.specs.Parts.{OfBatch};
ghost use Rattle.protocol.specs.Records.{BatchInfo};
ghost use Rattle.protocol.specs.Words.{sub_of};
ghost use Rattle.post_box.specs.Posting.{sub_posted};
ghost use Rattle.protocol.specs.Meant.{batch_pact, sub_batch, subs_actor};
ghost use Rattle.token_ring.specs.Asked.{IsNextBatch};
ghost use Rattle.log_set.specs.Told.{actor_of, tid_of, told};
ghost use Rattle.core_rows.specs.Begun.{ControlsAreNew, SubsAreNew, first_message};
ghost use Rattle.core_rows.specs.Showing.{ShowsDesk, ShowsLogAt, ShowsPost, ShowsRing, ShowsTxs};
ghost use Rattle.core_rows.specs.Starts.{MayStart, Starts};
ghost use Rattle.core_rows.specs.Taken.{IsOfRun, IsTaken, IsRefusal, IsNo};

use crate::StepNo;
use crate::asking::first_no;
use crate::laws::rows_may;
use crate::starts::{FirstControl, first_controls, post_first};
use batch_table::Desk;
use log_set::{Item, LogPart};
use post_box::Post;
use protocol::Formed;
use snap_base::{ActorId, Bid, Memory, Sequence, SubBatch, Tid, Tx, TxNo, Who};
use std::alloc::Global;
use token_ring::Ring;
use txn_records::Record;

/// Form: which of its conditions is the first false one, or 0. So many batches may be live at one time.
pub fn form_refusal<C>(ring: &Ring, desk: &Desk, batches: u32, k: Bid) -> u8
    ensures { IsRefusal {C = C} (Form k.0) (λ w s. (w.text.batches ≡ batches) × ShowsRing ring.now s × ShowsDesk desk.now s) result }
{
    let next = ring.next_bid();
    let waits = ring.has_pact();
    let live = desk.live();
    first_no(&[k.0 == next.0, waits, live < batches])
}

/// The batch that is formed next, of at most so many PACTs, where one waits at the holder.
fn next_batch(alloc: Global, ring: &Ring, txs: &[Tx], most: u16) -> Result<Formed, Memory>
    requires { ring.now.next_tid + most < 2 ^ 64 }
    ensures { IfOk result (λ f. IsNextBatch txs.now most ring.now f) }
{
    match ring.plan(alloc, txs, most) {
        Ok(plan) => Ok(plan),
        // Some PACT waits, so memory is wanting.
        Err(_) => Err(Memory),
    }
}

/// The PACTs of a planned batch.
fn pacts_of(plan: &Formed) -> &[(Tid, TxNo)]
    ensures { map batch_pact result.now ≡ plan.now.pacts }
{
    plan.txs.as_slice()
}

/// How many actors a planned batch has.
fn actor_count(plan: &Formed) -> usize
    ensures { result ≡ length plan.now.subs }
{
    plan.subs.len()
}

/// The actors of the sub-batches.
fn actors_told(alloc: Global, subs: &[SubBatch]) -> Result<Sequence<ActorId>, Memory>
    ensures { IfOk result (λ v. v ≡ map actor_of (map subs_actor subs.now)) }
{
    let mut actors = Vec::with_capacity(alloc, subs.len())?;
    for sub in subs {
        actors.push(sub.actor)?;
    }
    Ok(Sequence::from_vec(actors))
}

/// The tids of the PACTs.
fn tids_drawn(alloc: Global, pacts: &[(Tid, TxNo)]) -> Result<Sequence<Tid>, Memory>
    ensures { IfOk result (λ v. v ≡ map tid_of (map (λ p. p.tid) (map batch_pact pacts.now))) }
{
    let mut tids = Vec::with_capacity(alloc, pacts.len())?;
    for pact in pacts {
        tids.push(pact.0)?;
    }
    Ok(Sequence::from_vec(tids))
}

/// The record that a batch was formed.
fn info_of(alloc: Global, plan: &Formed) -> Result<Record, Memory>
    ensures { IfOk result (λ r. r ≡ told (BatchInfo plan.now.bid plan.now.actors (map (λ p. p.tid) plan.now.pacts))) }
{
    let actors = actors_told(alloc, plan.subs.as_slice())?;
    let tids = tids_drawn(alloc, plan.txs.as_slice())?;
    Ok(Record::BatchInfo {
        bid: plan.bid,
        actors,
        tids,
    })
}

/// Makes room for so many more messages. The messages stay.
fn make_room<C: Drop>(
    alloc: Global,
    post: &mut Post<C>,
    subs: usize,
    controls: usize,
) -> Result<(), Memory>
    requires few_subs { subs < 2 ^ 32 }
    requires few_controls { controls < 2 ^ 32 }
    ensures messages { post.new.messages ≡ post.old.messages }
    ensures subs { OnOk result (subs ≤ post.new.spare_subs) }
    ensures controls { OnOk result (controls ≤ post.new.spare_controls) }
{
    post.room(alloc, subs as u32, controls as u32)
}

/// A sub-batch is posted, for which there is room.
fn post_sub<C: Drop>(alloc: Global, post: &mut Post<C>, sub: SubBatch)
    requires room { 1 ≤ post.old.spare_subs }
    requires fresh { sub_of sub.bid.0 sub.actor.0 post.old.messages.subs ≡ None }
    ensures messages { post.new.messages ≡ sub_posted (sub_batch sub) post.old.messages }
    ensures spare { post.old.spare_subs ≤ post.new.spare_subs + 1 }
    ensures other { post.new.spare_controls ≡ post.old.spare_controls }
{
    // There is room for it.
    let _posted = post.put_sub(alloc, sub);
}

/// Sub-batches are posted in order, for which there is room.
fn post_subs<C: Drop>(alloc: Global, post: &mut Post<C>, subs: Vec<SubBatch>)
    requires room { length subs.items ≤ post.old.spare_subs }
    requires fresh { SubsAreNew post.old.messages.subs (map sub_batch subs.items) }
    ensures messages { post.new.messages ≡ record post.old.messages { subs = post.old.messages.subs ++ map sub_batch subs.items } }
    ensures other { post.new.spare_controls ≡ post.old.spare_controls }
{
    for sub in subs {
        post_sub(alloc, post, sub);
    }
}

/// First controls of a batch's PACTs are posted in order, for which there is room.
fn post_firsts<C: Drop>(alloc: Global, post: &mut Post<C>, k: Bid, firsts: Vec<FirstControl<C>>)
    requires room { length firsts.items ≤ post.old.spare_controls }
    requires fresh { ControlsAreNew post.old.messages.controls (map (first_message (OfBatch k.0)) firsts.items) }
    ensures { post.new.messages ≡ record post.old.messages { controls = post.old.messages.controls ++ map (first_message (OfBatch k.0)) firsts.items } }
{
    for first in firsts {
        post_first(alloc, post, Who::Batch(k), first);
    }
}

/// What a batch's actors are told, and its first controls, are posted, for which there is room.
fn post_batch<C: Drop>(
    alloc: Global,
    post: &mut Post<C>,
    plan: Formed,
    firsts: Vec<FirstControl<C>>,
)
    requires sub_room { length plan.subs ≤ post.old.spare_subs }
    requires control_room { length firsts.items ≤ post.old.spare_controls }
    requires fresh_subs { SubsAreNew post.old.messages.subs plan.subs }
    requires fresh_controls { ControlsAreNew post.old.messages.controls (map (first_message (OfBatch plan.bid)) firsts.items) }
    ensures { post.new.messages ≡ record { subs = post.old.messages.subs ++ plan.subs; controls = post.old.messages.controls ++ map (first_message (OfBatch plan.bid)) firsts.items } }
{
    let Formed {
        bid,
        txs: _txs,
        subs,
    } = plan;
    post_subs(alloc, post, subs);
    post_firsts(alloc, post, bid, firsts);
}

/// Form: batch `k` is made of the PACTs that wait first at the holder, at most `most`. What its actors are told is posted, and
/// the first controls of its PACTs, as `start` gives them; the desk has it, and its record is added. So many batches may be
/// live at one time.
pub fn form<C: Drop, F: Fn(Tid, &Tx) -> Result<C, Memory>>(
    alloc: Global,
    txs: &[Tx],
    start: &F,
    ring: &mut Ring,
    post: &mut Post<C>,
    desk: &mut Desk,
    log: &mut LogPart,
    batches: u32,
    most: u16,
    k: Bid,
) -> Result<(), StepNo>
    requires may { MayStart (F.pre start.now) txs.now }
    requires run { IsOfRun {C = C} (λ w s. ShowsTxs txs.now w × Starts (F.post start.now) w × (w.text.batches ≡ batches) × (w.text.batch ≡ most) × ShowsRing ring.old s × ShowsPost post.old s × ShowsDesk desk.old s × ShowsLogAt (k.0 % w.text.logs) log.old s) }
    ensures ok { OnOk result (IsTaken {C = C} (Form k.0) (λ w s. ShowsTxs txs.now w × Starts (F.post start.entry.now) w × (w.text.batches ≡ batches) × (w.text.batch ≡ most) × ShowsRing ring.old s × ShowsPost post.old s × ShowsDesk desk.old s × ShowsLogAt (k.0 % w.text.logs) log.old s) (λ w s. ShowsRing ring.new s × ShowsPost post.new s × ShowsDesk desk.new s × ShowsLogAt (k.0 % w.text.logs) log.new s)) }
    ensures no { IfErr result (IsNo {C = C} (Form k.0) (λ w s. ShowsTxs txs.now w × Starts (F.post start.entry.now) w × (w.text.batches ≡ batches) × (w.text.batch ≡ most) × ShowsRing ring.old s × ShowsPost post.old s × ShowsDesk desk.old s × ShowsLogAt (k.0 % w.text.logs) log.old s)) }
    ensures ring { OnErr result (ring.new ≡ ring.old) }
    ensures post { OnErr result (post.new.messages ≡ post.old.messages) }
    ensures desk { OnErr result (desk.new ≡ desk.old) }
    ensures log { OnErr result (log.new.log ≡ log.old.log) }
{
    rows_may::<C>();
    let rule = form_refusal::<C>(ring, desk, batches, k);
    if rule != 0 {
        return Err(StepNo::NotNow { rule });
    }
    let plan = next_batch(alloc, ring, txs, most)?;
    let firsts = first_controls(alloc, start, txs, pacts_of(&plan))?;
    let info = info_of(alloc, &plan)?;
    let item = Item::of(alloc, &info)?;
    make_room(alloc, post, actor_count(&plan), firsts.len())?;
    log.room(alloc)?;
    desk.add(alloc, &plan)?;
    ring.form(&plan);
    log.put(alloc, item);
    post_batch(alloc, post, plan, firsts);
    Ok(())
}
