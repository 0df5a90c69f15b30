//! What an event may have made allowed, look by look, as far as the parts at hand tell. A guess: each is asked for before it is done,
//! and a look at the parts finds the others.
ghost use Rattle.snap_hand.specs.Tables.{AreTables};

use crate::finds::Finds;
use core_events::{BOOK, DESK, Event, POST, RING, part_of_log};
use ready_listing::{list_place, next_holder, push_one};
use ready_news::{Look, Names, looks_of, names_of};
use snap_base::{ActorId, Bid, Memory, Tid, TxNo, Who};
use snap_hand::{BookPart, CellPart, Control, Desk, Hand, Post, Ring, Tables};
use snap_work::MOST_BATCHES;
use std::alloc::Global;
use txn_records::Key;

/// How many transactions are submitted in a row. Between two rows the batches of the first are under way.
const SUBMITS_IN_A_ROW: u32 = 256;

/// What is at hand behind an event.
#[derive(Drop)]
pub struct AtHand<'a> {
    pub alloc: Global,
    pub tables: &'a Tables,
    pub hand: &'a Hand,
    /// Whether slices take long.
    pub long: bool,
}

/// Puts to the news what the event, which was done with these parts at hand, may have made allowed, and marks what they do not tell.
/// For want of memory some of it is left out.
pub fn follow(at: &AtHand, e: Event, finds: &mut Finds)
    requires { AreTables at.now.tables.now }
{
    let names = names_of(e);
    for look in looks_of(e) {
        let _all = follow_look(at, &names, *look, finds);
    }
}

/// What may be allowed at a look, which is about these names, of an event behind which these parts are at hand. `Memory` leaves some of it.
fn follow_look(at: &AtHand, names: &Names, look: Look, finds: &mut Finds) -> Result<(), Memory>
    requires { AreTables at.now.tables.now }
{
    let news = &mut finds.news;
    match look {
        Look::Submitted => list_submit(at, names.tx, news),
        Look::Token => list_token(at, news),
        Look::NextBatch => list_batch(at, news),
        Look::NextAct if at.hand.has(RING) => list_act(at, news),
        Look::NextAct => {
            if frees_place(at) {
                finds.mark_ring();
            }
            Ok(())
        }
        Look::Formed => list_formed(at, names.batch, news),
        Look::Control => list_control(at.hand, names.tid, news),
        Look::Follower => list_follower(at, names.batch, names.actor, news),
        Look::LetIn => list_let_in(at, names.batch, names.actor, news),
        Look::Placed => push_one(news, Event::Run(names.tid, names.actor)),
        Look::Left => list_left(at, names.tid, names.actor, news),
        Look::Woken => list_wakes(at, names.actor, news),
        Look::Trimmed => list_gone(at, names.batch, news),
        Look::Back => list_back(at, names.actor, news),
        Look::Closes => list_close(at, names.tid, names.actor, news),
        Look::NextEnds => list_ends(at, news),
        Look::Noted => list_noted(at.hand, names.batch, news),
        Look::Committed => list_committed(at.tables, names.batch, news),
        Look::Trims => list_trims(at, names.batch, news),
        Look::Answers => list_answers(at, names.batch, news),
        Look::Aborted => list_aborted(at, names.batch, news),
        Look::Preparing => list_preparing(at, names.tid, news),
        Look::Deciding => list_vouched(at.hand, names.tid, news),
        Look::Decisions => {
            finds.mark_book(at.tables.work.logs);
            Ok(())
        }
        Look::Over => list_over(at, names.tid, news),
        // A log is synced for all that waits there, not for each record.
        Look::BatchLog | Look::ActLog | Look::ActorLog => Ok(()),
        // The post is not at hand where an ACT has left an actor, or an actor has followed a cascade.
        Look::Again | Look::Arrivals | Look::Comings => Ok(()),
        // Seldom may anything go on where a batch has just arrived.
        Look::Arrived | Look::Late => Ok(()),
        // `Over` lists these.
        Look::Leaving => Ok(()),
        // Few fall. A look finds them.
        Look::Fallen | Look::GivenUp => Ok(()),
    }
}

/// Where an event may have made something allowed, and what tells it is not at hand behind the event.
#[derive(Clone, Copy, Debug, PartialEq, Eq)]
pub enum Mark {
    /// The ring may go on, since there is a place for one more ACT.
    Ring,
    /// ACTs may be decided whose commit records go to this log, since a batch is settled.
    Book(u8),
}

impl Mark {
    /// An event whose parts tell what the mark is for.
    pub fn event(self) -> Event {
        match self {
            Mark::Ring => Event::AbortBatch(Bid(0)),
            Mark::Book(l) => Event::Decide(Tid(l as u64)),
        }
    }

    /// Lists what these parts tell.
    pub fn list(self, at: &AtHand, events: &mut Vec<Event>) -> Result<(), Memory>
        requires { AreTables at.now.tables.now }
    {
        match self {
            Mark::Ring => list_all_next(at, events),
            Mark::Book(l) => list_decisions(at, l, events),
        }
    }
}

/// Whether there is a place for one more ACT, of as many as may be live, since one of as many is over.
fn frees_place(at: &AtHand) -> bool {
    match on_book(at.hand) {
        Some(book) => book.live().wrapping_add(1) == at.tables.work.acts as usize,
        None => false,
    }
}

/// What the records that wait in a log are about; nothing, where the log is not at hand.
pub fn waiting_keys(hand: &Hand, l: u8) -> &[Key] {
    if !hand.has_log(l) || !hand.has(part_of_log(l)) {
        return &[];
    }
    hand.log(l as usize).waiting_keys()
}

/// Lists what a Sync of this log will make allowed, with the log at hand ahead of it: what the records wait for that it makes durable.
pub fn list_foreseen(hand: &Hand, l: u8, events: &mut Vec<Event>) -> Result<(), Memory> {
    for key in waiting_keys(hand, l) {
        match *key {
            Key::Genesis | Key::Checkpoint => {}
            Key::Info(k) => push_one(events, Event::Commit(k))?,
            Key::Complete(k, a) => push_one(events, Event::Note(k, a))?,
            Key::Commit(k) => push_one(events, Event::Settle(k))?,
            Key::Prepare(t, a) => push_one(events, Event::Vouch(t, a))?,
            Key::Act(t) => push_one(events, Event::Seal(t))?,
        }
    }
    Ok(())
}

/// The post, where it is at hand.
fn on_post(hand: &Hand) -> Option<&Post<Control>> {
    if hand.has(POST) {
        Some(hand.post())
    } else {
        None
    }
}

/// The desk, where it is at hand.
fn on_desk(hand: &Hand) -> Option<&Desk> {
    if hand.has(DESK) {
        Some(hand.desk())
    } else {
        None
    }
}

/// The book, where it is at hand.
fn on_book(hand: &Hand) -> Option<&BookPart> {
    if hand.has(BOOK) {
        Some(hand.book())
    } else {
        None
    }
}

/// Lists an event for each of these.
fn push_each<T: Copy, F: Fn(T) -> Event>(
    events: &mut Vec<Event>,
    each: &[T],
    event_of: F,
) -> Result<(), Memory>
    requires { F.IsAlwaysCallable event_of }
{
    for x in each {
        push_one(events, event_of(*x))?;
    }
    Ok(())
}

/// The next transaction, as far as the row goes; behind it what the ring has next.
fn list_submit(at: &AtHand, n: TxNo, events: &mut Vec<Event>) -> Result<(), Memory>
    requires { AreTables at.now.tables.now }
{
    if n.0 % SUBMITS_IN_A_ROW == SUBMITS_IN_A_ROW - 1 {
        return list_ring(at, events);
    }
    push_one(events, Event::Submit(TxNo(n.0.wrapping_add(1))))
}

/// The ring, where it is at hand.
fn on_ring(hand: &Hand) -> Option<&Ring> {
    if hand.has(RING) {
        Some(hand.ring())
    } else {
        None
    }
}

/// The token goes on, where nothing waits at its holder.
fn list_token(at: &AtHand, events: &mut Vec<Event>) -> Result<(), Memory>
    requires { AreTables at.now.tables.now }
{
    match on_ring(at.hand) {
        Some(ring) if ring.is_holder_idle() => {
            push_one(events, Event::Pass(next_holder(at.tables, ring.holder())))
        }
        Some(_) | None => Ok(()),
    }
}

/// The next batch is formed, where there may be one more as far as the parts at hand tell.
fn list_batch(at: &AtHand, events: &mut Vec<Event>) -> Result<(), Memory> {
    match on_ring(at.hand) {
        Some(ring) if ring.has_pact() && has_place_for_batch(at) => {
            push_one(events, Event::Form(ring.next_bid()))
        }
        Some(_) | None => Ok(()),
    }
}

/// The next ACT is admitted, where there may be one more as far as the parts at hand tell.
fn list_act(at: &AtHand, events: &mut Vec<Event>) -> Result<(), Memory> {
    match on_ring(at.hand) {
        Some(ring) if ring.has_act() && has_place_for_act(at) => {
            push_one(events, Event::Admit(ring.next_tid()))
        }
        Some(_) | None => Ok(()),
    }
}

/// What the ring has next, but the next transaction.
fn list_ring(at: &AtHand, events: &mut Vec<Event>) -> Result<(), Memory>
    requires { AreTables at.now.tables.now }
{
    list_token(at, events)?;
    list_batch(at, events)?;
    list_act(at, events)
}

/// How many batches are begun at a time: as many as may be live, where slices take long. Else one more than there are logs: while one is
/// completed, the commits of those before it sync each log once. With more, ACTs would wait longer for batches at their actors, and need
/// more Syncs.
fn most_batches(at: &AtHand) -> u32 {
    let most = at.tables.work.batches as u32;
    if at.long {
        most
    } else {
        most.min(at.tables.work.logs as u32 + 1)
    }
}

fn has_place_for_batch(at: &AtHand) -> bool {
    match on_desk(at.hand) {
        Some(desk) => desk.live() < most_batches(at),
        None => true,
    }
}

fn has_place_for_act(at: &AtHand) -> bool {
    match on_book(at.hand) {
        Some(book) => book.live() < at.tables.work.acts as usize,
        None => true,
    }
}

/// All that the ring has next, the next transaction among it.
fn list_all_next(at: &AtHand, events: &mut Vec<Event>) -> Result<(), Memory>
    requires { AreTables at.now.tables.now }
{
    if let Some(ring) = on_ring(at.hand) {
        push_one(events, Event::Submit(ring.next_tx()))?;
    }
    list_ring(at, events)
}

/// The decisions of the live ACTs whose commit records go to this log, and of which all actors are prepared.
fn list_decisions(at: &AtHand, l: u8, events: &mut Vec<Event>) -> Result<(), Memory> {
    let Some(book) = on_book(at.hand) else {
        return Ok(());
    };
    let logs = at.tables.work.logs;
    for t in &book.going(at.alloc)? {
        if logs > 0 && t.0 % logs as u64 == l as u64 {
            list_vouched(at.hand, *t, events)?;
        }
    }
    Ok(())
}

/// The batch comes to its actors.
fn list_formed(at: &AtHand, k: Bid, events: &mut Vec<Event>) -> Result<(), Memory> {
    match on_desk(at.hand) {
        Some(desk) => push_each(
            events,
            &desk.actors_of(at.alloc, k)?,
            |a| Event::Arrive(k, a),
        ),
        None => Ok(()),
    }
}

/// A control comes to where it goes.
fn list_control(hand: &Hand, t: Tid, events: &mut Vec<Event>) -> Result<(), Memory> {
    let Some(post) = on_post(hand) else {
        return Ok(());
    };
    match post.control_to(t) {
        Some(a) => list_comer(post, t, a, events),
        None => Ok(()),
    }
}

/// The control comes to this actor. One of an ACT asks first; where it is refused, it may have been placed there before.
fn list_comer(
    post: &Post<Control>,
    t: Tid,
    a: ActorId,
    events: &mut Vec<Event>,
) -> Result<(), Memory> {
    match post.control_who(t) {
        Some(Who::Act(_)) => push_one(events, Event::Ask(t, a)),
        Some(Who::Batch(_)) | None => push_one(events, Event::Take(t, a)),
    }
}

/// The control of an ACT that may not ask at the actor comes there.
pub fn list_refused(e: Event, events: &mut Vec<Event>) -> Result<(), Memory> {
    match e {
        Event::Ask(t, a) => push_one(events, Event::Take(t, a)),
        _ => Ok(()),
    }
}

/// The sub-batch that follows this one to the actor comes there.
fn list_follower(at: &AtHand, k: Bid, a: ActorId, events: &mut Vec<Event>) -> Result<(), Memory> {
    let Some(post) = on_post(at.hand) else {
        return Ok(());
    };
    for (j, b) in &post.subs_to(at.alloc, a)? {
        match post.sub_head(*j, *b) {
            Some(head) if head.prev == k => push_one(events, Event::Arrive(*j, *b))?,
            Some(_) | None => {}
        }
    }
    Ok(())
}

/// The controls of the batch's PACTs that go to the actor come there.
fn list_let_in(at: &AtHand, k: Bid, a: ActorId, events: &mut Vec<Event>) -> Result<(), Memory> {
    let Some(post) = on_post(at.hand) else {
        return Ok(());
    };
    let Some(cell) = on_cell(at.hand, a) else {
        return Ok(());
    };
    for t in &cell.undone_by(at.alloc, k)? {
        if post.control_to(*t) == Some(a) {
            push_one(events, Event::Take(*t, a))?;
        }
    }
    Ok(())
}

/// The controls that go to this actor come there.
pub fn list_coming(at: &AtHand, a: ActorId, events: &mut Vec<Event>) -> Result<(), Memory> {
    let Some(post) = on_post(at.hand) else {
        return Ok(());
    };
    for (t, b) in &post.controls_to(at.alloc, a)? {
        list_comer(post, *t, *b, events)?;
    }
    Ok(())
}

/// The cell of an actor, where it is at hand.
fn on_cell(hand: &Hand, a: ActorId) -> Option<&CellPart<Control>> {
    if !hand.has_actor(a) || !hand.has_cell(a) {
        return None;
    }
    Some(hand.cell(a))
}

/// Who waits at the actor and may run, and the batch that can be completed there.
fn list_wakes(at: &AtHand, a: ActorId, events: &mut Vec<Event>) -> Result<(), Memory> {
    let Some(cell) = on_cell(at.hand, a) else {
        return Ok(());
    };
    push_each(events, &cell.runnable(at.alloc)?, |t| Event::Run(t, a))?;
    match cell.completable() {
        Some(k) => push_one(events, Event::Complete(k, a)),
        None => Ok(()),
    }
}

/// The control goes on behind the slice, or the transaction ends.
fn list_left(at: &AtHand, t: Tid, a: ActorId, events: &mut Vec<Event>) -> Result<(), Memory> {
    let Some(cell) = on_cell(at.hand, a) else {
        return Ok(());
    };
    if cell.has_going(t) {
        push_one(events, Event::Send(t, a))?;
    }
    if cell.has_ended(t) {
        push_one(events, Event::End(t, a))?;
    }
    Ok(())
}

/// A PACT that ended on the actor owes it nothing more.
fn list_close(at: &AtHand, t: Tid, a: ActorId, events: &mut Vec<Event>) -> Result<(), Memory> {
    match on_book(at.hand) {
        Some(book) if book.tx_of(t).is_none() => push_one(events, Event::Close(t, a)),
        Some(_) | None => Ok(()),
    }
}

/// An ACT that gives a value is prepared on its actors.
fn list_preparing(at: &AtHand, t: Tid, events: &mut Vec<Event>) -> Result<(), Memory> {
    match on_book(at.hand) {
        Some(book) if book.has_value(t) => push_each(
            events,
            &book.actors_of(at.alloc, t)?,
            |b| Event::Prepare(t, b),
        ),
        Some(_) | None => Ok(()),
    }
}

/// How the next batch ends, where it may.
fn list_ends(at: &AtHand, events: &mut Vec<Event>) -> Result<(), Memory> {
    let Some(desk) = on_desk(at.hand) else {
        return Ok(());
    };
    let Some(k) = desk.next() else {
        return Ok(());
    };
    if desk.first_failed(k).is_some() {
        push_one(events, Event::AbortBatch(k))?;
    }
    list_commit(desk, k, events)
}

/// The batch commits, where it is noted on all its actors.
fn list_commit(desk: &Desk, k: Bid, events: &mut Vec<Event>) -> Result<(), Memory> {
    if desk.all_noted(k) && desk.all_ended_well(k) {
        push_one(events, Event::Commit(k))
    } else {
        Ok(())
    }
}

/// The batch commits, where it is noted on all its actors.
fn list_noted(hand: &Hand, k: Bid, events: &mut Vec<Event>) -> Result<(), Memory> {
    match on_desk(hand) {
        Some(desk) => list_commit(desk, k, events),
        None => Ok(()),
    }
}

/// The ACT is decided, where all its actors are prepared, or it failed.
fn list_vouched(hand: &Hand, t: Tid, events: &mut Vec<Event>) -> Result<(), Memory> {
    match on_book(hand) {
        Some(book) if book.is_to_decide(t) && book.is_ready(t) => push_one(
            events,
            Event::Decide(t),
        ),
        Some(_) | None => Ok(()),
    }
}

/// The commit record of a batch becomes durable: all behind it wait for that, so it is not put off.
fn list_committed(tables: &Tables, k: Bid, events: &mut Vec<Event>) -> Result<(), Memory> {
    let logs = tables.work.logs;
    if logs == 0 {
        return Ok(());
    }
    push_one(events, Event::Sync((k.0 % logs as u64) as u8))
}

/// The replies of a batch's transactions.
fn list_answers(at: &AtHand, k: Bid, events: &mut Vec<Event>) -> Result<(), Memory> {
    match on_desk(at.hand) {
        Some(desk) => push_each(events, &desk.txs_of(at.alloc, k)?, |n| Event::Reply(n)),
        None => Ok(()),
    }
}

/// The batch leaves its actors.
fn list_trims(at: &AtHand, k: Bid, events: &mut Vec<Event>) -> Result<(), Memory> {
    match on_desk(at.hand) {
        Some(desk) => push_each(events, &desk.actors_of(at.alloc, k)?, |a| Event::Trim(k, a)),
        None => Ok(()),
    }
}

/// Where the batch has left all its actors, the next one is formed.
fn list_gone(at: &AtHand, k: Bid, events: &mut Vec<Event>) -> Result<(), Memory> {
    let Some(desk) = on_desk(at.hand) else {
        return Ok(());
    };
    if desk.live() >= most_batches(at) {
        return Ok(());
    }
    let going = desk.going(at.alloc)?;
    match going.last() {
        Some(last) if !going.contains(&k) => {
            push_one(events, Event::Form(Bid(last.0.wrapping_add(1))))
        }
        _ => Ok(()),
    }
}

/// What lies at the actor, which has followed an abort.
fn list_back(at: &AtHand, a: ActorId, events: &mut Vec<Event>) -> Result<(), Memory> {
    if at.hand.has_actor(a) {
        list_place(at.alloc, at.hand, a, events)?;
    }
    Ok(())
}

/// The replies of this batch's transactions, of those behind it, and of the ACTs that are live.
fn list_aborted(at: &AtHand, k: Bid, events: &mut Vec<Event>) -> Result<(), Memory> {
    for i in 0..MOST_BATCHES {
        list_answers(at, Bid(k.0.wrapping_add(i)), events)?;
    }
    list_live_answers(at, events)
}

/// The reply of an ACT's transaction, where its verdict is known.
fn list_answer(hand: &Hand, t: Tid, events: &mut Vec<Event>) -> Result<(), Memory> {
    let Some(book) = on_book(hand) else {
        return Ok(());
    };
    match book.tx_of(t) {
        Some(n) if book.act_verdict(n).is_some() => push_one(events, Event::Reply(n)),
        Some(_) | None => Ok(()),
    }
}

/// The replies of the ACTs that are live: one that fell with a batch, or at another one's call, may be due.
pub fn list_live_answers(at: &AtHand, events: &mut Vec<Event>) -> Result<(), Memory> {
    let Some(book) = on_book(at.hand) else {
        return Ok(());
    };
    for t in &book.going(at.alloc)? {
        list_answer(at.hand, *t, events)?;
    }
    Ok(())
}

/// The reply of an ACT's transaction, and that it leaves its actors, where it may.
fn list_over(at: &AtHand, t: Tid, events: &mut Vec<Event>) -> Result<(), Memory> {
    list_answer(at.hand, t, events)?;
    match on_book(at.hand) {
        Some(book) if book.may_leave(t) => push_each(
            events,
            &book.actors_of(at.alloc, t)?,
            |a| Event::Finish(t, a),
        ),
        Some(_) | None => Ok(()),
    }
}
