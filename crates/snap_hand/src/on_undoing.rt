//! The events by which batches fail and what they did is given back, on a hand.
ghost use Rattle.protocol.specs.Events as event;
ghost use Rattle.snap_hand.specs.Steps.{MayBeAsked, IsRefusalOn, IsStep};
ghost use Rattle.snap_hand.specs.Tables.{AreTables, fixed_of};

use crate::{Hand, Tables};
use aml_slice::Control;
use core_rows::{StepNo, nothing_happens_nowhere, rows_may};
use snap_base::{ActorId, Bid, Tid};

/// Which of the conditions of Abort is the first false one, or 0.
pub(crate) fn abort_refusal(_tables: &Tables, hand: &Hand, k: Bid) -> u8
    requires tables { AreTables _tables.now }
    requires asked { MayBeAsked (fixed_of _tables.now) (event.Abort k.0) hand.now }
    ensures { IsRefusalOn (fixed_of _tables.now) (event.Abort k.0) hand.now result }
{
    core_rows::abort_refusal::<Control>(hand.desk(), k)
}

/// Abort.
pub(crate) fn abort(_tables: &Tables, hand: &mut Hand, k: Bid) -> Result<(), StepNo>
    requires tables { AreTables _tables.now }
    requires asked { MayBeAsked (fixed_of _tables.now) (event.Abort k.0) hand.old }
    ensures { IsStep (fixed_of _tables.now) (event.Abort k.0) hand.old hand.new result }
{
    let mut ring = hand.take_ring();
    let mut book = hand.take_book();
    let mut desk = hand.take_desk();
    let step = core_rows::abort::<Control>(&mut ring, &mut book, &mut desk, k);
    hand.put_ring(ring);
    hand.put_book(book);
    hand.put_desk(desk);
    step
}

/// Which of the conditions of Rollback is the first false one, or 0.
pub(crate) fn rollback_refusal(_tables: &Tables, hand: &Hand, a: ActorId) -> u8
    requires tables { AreTables _tables.now }
    requires asked { MayBeAsked (fixed_of _tables.now) (event.Rollback a.0) hand.now }
    ensures { IsRefusalOn (fixed_of _tables.now) (event.Rollback a.0) hand.now result }
{
    rows_may::<Control>();
    nothing_happens_nowhere::<Control>();
    if !hand.has_actor(a) {
        return 1;
    }
    core_rows::rollback_refusal(hand.book(), hand.cell(a), a)
}

/// Rollback.
pub(crate) fn rollback(_tables: &Tables, hand: &mut Hand, a: ActorId) -> Result<(), StepNo>
    requires tables { AreTables _tables.now }
    requires asked { MayBeAsked (fixed_of _tables.now) (event.Rollback a.0) hand.old }
    ensures { IsStep (fixed_of _tables.now) (event.Rollback a.0) hand.old hand.new result }
{
    rows_may::<Control>();
    nothing_happens_nowhere::<Control>();
    if !hand.has_actor(a) {
        return Err(StepNo::NotNow { rule: 1 });
    }
    let book = hand.take_book();
    let mut cell = hand.take_cell(a);
    let step = core_rows::rollback(&book, &mut cell, a);
    hand.put_book(book);
    hand.put_cell(a, cell);
    step
}

/// Which of the conditions of DropSub is the first false one, or 0.
pub(crate) fn drop_sub_refusal(_tables: &Tables, hand: &Hand, k: Bid, a: ActorId) -> u8
    requires tables { AreTables _tables.now }
    requires asked { MayBeAsked (fixed_of _tables.now) (event.DropSub k.0 a.0) hand.now }
    ensures { IsRefusalOn (fixed_of _tables.now) (event.DropSub k.0 a.0) hand.now result }
{
    core_rows::drop_sub_refusal(hand.book(), hand.post(), k, a)
}

/// DropSub.
pub(crate) fn drop_sub(_tables: &Tables, hand: &mut Hand, k: Bid, a: ActorId) -> Result<(), StepNo>
    requires tables { AreTables _tables.now }
    requires asked { MayBeAsked (fixed_of _tables.now) (event.DropSub k.0 a.0) hand.old }
    ensures { IsStep (fixed_of _tables.now) (event.DropSub k.0 a.0) hand.old hand.new result }
{
    let mut post = hand.take_post();
    let step = core_rows::drop_sub(hand.book(), &mut post, k, a);
    hand.put_post(post);
    step
}

/// Which of the conditions of DropControl is the first false one, or 0.
pub(crate) fn drop_control_refusal(_tables: &Tables, hand: &Hand, t: Tid) -> u8
    requires tables { AreTables _tables.now }
    requires asked { MayBeAsked (fixed_of _tables.now) (event.DropControl t.0) hand.now }
    ensures { IsRefusalOn (fixed_of _tables.now) (event.DropControl t.0) hand.now result }
{
    core_rows::drop_control_refusal(hand.book(), hand.post(), t)
}

/// DropControl.
pub(crate) fn drop_control(_tables: &Tables, hand: &mut Hand, t: Tid) -> Result<(), StepNo>
    requires tables { AreTables _tables.now }
    requires asked { MayBeAsked (fixed_of _tables.now) (event.DropControl t.0) hand.old }
    ensures { IsStep (fixed_of _tables.now) (event.DropControl t.0) hand.old hand.new result }
{
    let mut post = hand.take_post();
    let step = core_rows::drop_control(hand.book(), &mut post, t);
    hand.put_post(post);
    step
}
