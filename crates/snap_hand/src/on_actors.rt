//! The events by which batches and transactions come to actors, run there and leave them, on a hand.
ghost use Rattle.protocol.specs.Events as event;
ghost use Rattle.snap_hand.specs.Steps.{MayBeAsked, IsRefusalOn, IsStep};
ghost use Rattle.snap_hand.specs.Tables.{AreTables, fixed_of};

use crate::{Hand, Tables};
use aml_slice::Control;
use core_rows::{StepNo, nothing_happens_nowhere, rows_may};
use protocol_laws::{allowed_or_refused, numbers_are_in_range};
use snap_base::{ActorId, Bid, Tid};
use std::alloc::Global;

/// Which of the conditions of Arrive is the first false one, or 0.
pub(crate) fn arrive_refusal(_tables: &Tables, hand: &Hand, k: Bid, a: ActorId) -> u8
    requires tables { AreTables _tables.now }
    requires asked { MayBeAsked (fixed_of _tables.now) (event.Arrive k.0 a.0) hand.now }
    ensures { IsRefusalOn (fixed_of _tables.now) (event.Arrive k.0 a.0) hand.now result }
{
    rows_may::<Control>();
    if !hand.has_actor(a) {
        return core_rows::arrive_nowhere(hand.book(), hand.post(), k, a);
    }
    core_rows::arrive_refusal(hand.book(), hand.post(), hand.cell(a), k, a)
}

/// Arrive.
pub(crate) fn arrive(
    alloc: Global,
    tables: &Tables,
    hand: &mut Hand,
    k: Bid,
    a: ActorId,
) -> Result<(), StepNo>
    requires tables { AreTables tables.now }
    requires asked { MayBeAsked (fixed_of tables.now) (event.Arrive k.0 a.0) hand.old }
    ensures { IsStep (fixed_of tables.now) (event.Arrive k.0 a.0) hand.old hand.new result }
{
    rows_may::<Control>();
    allowed_or_refused::<Control>();
    if !hand.has_actor(a) {
        let rule = arrive_refusal(tables, hand, k, a);
        return Err(StepNo::NotNow { rule });
    }
    let mut book = hand.take_book();
    let mut post = hand.take_post();
    let mut cell = hand.take_cell(a);
    let step = core_rows::arrive(alloc, &mut book, &mut post, &mut cell, k, a);
    hand.put_book(book);
    hand.put_post(post);
    hand.put_cell(a, cell);
    step
}

/// Which of the conditions of Ask is the first false one, or 0.
pub(crate) fn ask_refusal(_tables: &Tables, hand: &Hand, t: Tid, a: ActorId) -> u8
    requires tables { AreTables _tables.now }
    requires asked { MayBeAsked (fixed_of _tables.now) (event.Ask t.0 a.0) hand.now }
    ensures { IsRefusalOn (fixed_of _tables.now) (event.Ask t.0 a.0) hand.now result }
{
    rows_may::<Control>();
    if !hand.has_actor(a) {
        return core_rows::ask_nowhere(hand.book(), hand.post(), t, a);
    }
    core_rows::ask_refusal(hand.book(), hand.post(), hand.cell(a), t, a)
}

/// Ask.
pub(crate) fn ask(
    alloc: Global,
    tables: &Tables,
    hand: &mut Hand,
    t: Tid,
    a: ActorId,
) -> Result<(), StepNo>
    requires tables { AreTables tables.now }
    requires asked { MayBeAsked (fixed_of tables.now) (event.Ask t.0 a.0) hand.old }
    ensures { IsStep (fixed_of tables.now) (event.Ask t.0 a.0) hand.old hand.new result }
{
    rows_may::<Control>();
    allowed_or_refused::<Control>();
    if !hand.has_actor(a) {
        let rule = ask_refusal(tables, hand, t, a);
        return Err(StepNo::NotNow { rule });
    }
    let mut book = hand.take_book();
    let mut post = hand.take_post();
    let mut cell = hand.take_cell(a);
    let step = core_rows::ask(alloc, &mut book, &mut post, &mut cell, t, a);
    hand.put_book(book);
    hand.put_post(post);
    hand.put_cell(a, cell);
    step
}

/// Which of the conditions of Take is the first false one, or 0.
pub(crate) fn take_refusal(_tables: &Tables, hand: &Hand, t: Tid, a: ActorId) -> u8
    requires tables { AreTables _tables.now }
    requires asked { MayBeAsked (fixed_of _tables.now) (event.Take t.0 a.0) hand.now }
    ensures { IsRefusalOn (fixed_of _tables.now) (event.Take t.0 a.0) hand.now result }
{
    rows_may::<Control>();
    if !hand.has_actor(a) {
        return core_rows::take_nowhere(hand.post(), t, a);
    }
    core_rows::take_refusal(hand.post(), hand.cell(a), t, a)
}

/// Take.
pub(crate) fn take(
    alloc: Global,
    tables: &Tables,
    hand: &mut Hand,
    t: Tid,
    a: ActorId,
) -> Result<(), StepNo>
    requires tables { AreTables tables.now }
    requires asked { MayBeAsked (fixed_of tables.now) (event.Take t.0 a.0) hand.old }
    ensures { IsStep (fixed_of tables.now) (event.Take t.0 a.0) hand.old hand.new result }
{
    rows_may::<Control>();
    allowed_or_refused::<Control>();
    if !hand.has_actor(a) {
        let rule = take_refusal(tables, hand, t, a);
        return Err(StepNo::NotNow { rule });
    }
    let mut post = hand.take_post();
    let mut cell = hand.take_cell(a);
    let step = core_rows::take(alloc, &mut post, &mut cell, t, a);
    hand.put_post(post);
    hand.put_cell(a, cell);
    step
}

/// Which of the conditions of Send is the first false one, or 0.
pub(crate) fn send_refusal(_tables: &Tables, hand: &Hand, t: Tid, a: ActorId) -> u8
    requires tables { AreTables _tables.now }
    requires asked { MayBeAsked (fixed_of _tables.now) (event.Send t.0 a.0) hand.now }
    ensures { IsRefusalOn (fixed_of _tables.now) (event.Send t.0 a.0) hand.now result }
{
    rows_may::<Control>();
    nothing_happens_nowhere::<Control>();
    if !hand.has_actor(a) {
        return 1;
    }
    core_rows::send_refusal(hand.cell(a), t, a)
}

/// Send.
pub(crate) fn send(
    alloc: Global,
    _tables: &Tables,
    hand: &mut Hand,
    t: Tid,
    a: ActorId,
) -> Result<(), StepNo>
    requires tables { AreTables _tables.now }
    requires asked { MayBeAsked (fixed_of _tables.now) (event.Send t.0 a.0) hand.old }
    ensures { IsStep (fixed_of _tables.now) (event.Send t.0 a.0) hand.old hand.new result }
{
    rows_may::<Control>();
    nothing_happens_nowhere::<Control>();
    if !hand.has_actor(a) {
        return Err(StepNo::NotNow { rule: 1 });
    }
    let mut post = hand.take_post();
    let mut cell = hand.take_cell(a);
    let step = core_rows::send(alloc, &mut post, &mut cell, t, a);
    hand.put_post(post);
    hand.put_cell(a, cell);
    step
}

/// Which of the conditions of End is the first false one, or 0.
pub(crate) fn end_refusal(_tables: &Tables, hand: &Hand, t: Tid, a: ActorId) -> u8
    requires tables { AreTables _tables.now }
    requires asked { MayBeAsked (fixed_of _tables.now) (event.End t.0 a.0) hand.now }
    ensures { IsRefusalOn (fixed_of _tables.now) (event.End t.0 a.0) hand.now result }
{
    rows_may::<Control>();
    nothing_happens_nowhere::<Control>();
    if !hand.has_actor(a) {
        return 1;
    }
    core_rows::end_refusal(hand.cell(a), t, a)
}

/// End.
pub(crate) fn end(
    alloc: Global,
    _tables: &Tables,
    hand: &mut Hand,
    t: Tid,
    a: ActorId,
) -> Result<(), StepNo>
    requires tables { AreTables _tables.now }
    requires asked { MayBeAsked (fixed_of _tables.now) (event.End t.0 a.0) hand.old }
    ensures { IsStep (fixed_of _tables.now) (event.End t.0 a.0) hand.old hand.new result }
{
    rows_may::<Control>();
    nothing_happens_nowhere::<Control>();
    if !hand.has_actor(a) {
        return Err(StepNo::NotNow { rule: 1 });
    }
    let mut book = hand.take_book();
    let mut desk = hand.take_desk();
    let mut cell = hand.take_cell(a);
    let step = core_rows::end(alloc, &mut book, &mut desk, &mut cell, t, a);
    hand.put_book(book);
    hand.put_desk(desk);
    hand.put_cell(a, cell);
    step
}

/// Which of the conditions of Close is the first false one, or 0.
pub(crate) fn close_refusal(_tables: &Tables, hand: &Hand, t: Tid, a: ActorId) -> u8
    requires tables { AreTables _tables.now }
    requires asked { MayBeAsked (fixed_of _tables.now) (event.Close t.0 a.0) hand.now }
    ensures { IsRefusalOn (fixed_of _tables.now) (event.Close t.0 a.0) hand.now result }
{
    rows_may::<Control>();
    if !hand.has_actor(a) {
        return core_rows::close_nowhere::<Control>(hand.desk(), t, a);
    }
    core_rows::close_refusal(hand.desk(), hand.cell(a), t, a)
}

/// Close.
pub(crate) fn close(tables: &Tables, hand: &mut Hand, t: Tid, a: ActorId) -> Result<(), StepNo>
    requires tables { AreTables tables.now }
    requires asked { MayBeAsked (fixed_of tables.now) (event.Close t.0 a.0) hand.old }
    ensures { IsStep (fixed_of tables.now) (event.Close t.0 a.0) hand.old hand.new result }
{
    rows_may::<Control>();
    allowed_or_refused::<Control>();
    if !hand.has_actor(a) {
        let rule = close_refusal(tables, hand, t, a);
        return Err(StepNo::NotNow { rule });
    }
    let desk = hand.take_desk();
    let mut cell = hand.take_cell(a);
    let step = core_rows::close(&desk, &mut cell, t, a);
    hand.put_desk(desk);
    hand.put_cell(a, cell);
    step
}

/// Which of the conditions of Finish is the first false one, or 0.
pub(crate) fn finish_refusal(_tables: &Tables, hand: &Hand, t: Tid, a: ActorId) -> u8
    requires tables { AreTables _tables.now }
    requires asked { MayBeAsked (fixed_of _tables.now) (event.Finish t.0 a.0) hand.now }
    ensures { IsRefusalOn (fixed_of _tables.now) (event.Finish t.0 a.0) hand.now result }
{
    core_rows::finish_refusal::<Control>(hand.book(), t, a)
}

/// Finish.
pub(crate) fn finish(tables: &Tables, hand: &mut Hand, t: Tid, a: ActorId) -> Result<(), StepNo>
    requires tables { AreTables tables.now }
    requires asked { MayBeAsked (fixed_of tables.now) (event.Finish t.0 a.0) hand.old }
    ensures { IsStep (fixed_of tables.now) (event.Finish t.0 a.0) hand.old hand.new result }
{
    numbers_are_in_range::<Control>();
    allowed_or_refused::<Control>();
    if !hand.has_actor(a) {
        let rule = finish_refusal(tables, hand, t, a);
        return Err(StepNo::NotNow { rule });
    }
    let mut book = hand.take_book();
    let mut cell = hand.take_cell(a);
    let step = core_rows::finish(&mut book, &mut cell, t, a);
    hand.put_book(book);
    hand.put_cell(a, cell);
    step
}

/// Which of the conditions of Trim is the first false one, or 0.
pub(crate) fn trim_refusal(_tables: &Tables, hand: &Hand, k: Bid, a: ActorId) -> u8
    requires tables { AreTables _tables.now }
    requires asked { MayBeAsked (fixed_of _tables.now) (event.Trim k.0 a.0) hand.now }
    ensures { IsRefusalOn (fixed_of _tables.now) (event.Trim k.0 a.0) hand.now result }
{
    core_rows::trim_refusal::<Control>(hand.desk(), k, a)
}

/// Trim.
pub(crate) fn trim(tables: &Tables, hand: &mut Hand, k: Bid, a: ActorId) -> Result<(), StepNo>
    requires tables { AreTables tables.now }
    requires asked { MayBeAsked (fixed_of tables.now) (event.Trim k.0 a.0) hand.old }
    ensures { IsStep (fixed_of tables.now) (event.Trim k.0 a.0) hand.old hand.new result }
{
    numbers_are_in_range::<Control>();
    allowed_or_refused::<Control>();
    if !hand.has_actor(a) {
        let rule = trim_refusal(tables, hand, k, a);
        return Err(StepNo::NotNow { rule });
    }
    let mut desk = hand.take_desk();
    let mut cell = hand.take_cell(a);
    let step = core_rows::trim(&mut desk, &mut cell, k, a);
    hand.put_desk(desk);
    hand.put_cell(a, cell);
    step
}
