//! The events that add records to logs, make them durable, and learn that they are, on a hand.
ghost use Rattle.protocol.specs.Events as event;
ghost use Rattle.snap_hand.specs.Steps.{MayBeAsked, IsRefusalOn, IsStep};
ghost use Rattle.snap_hand.specs.Tables.{AreTables, fixed_of};

use crate::tables::{base, log_of};
use crate::{Hand, Tables};
use aml_slice::Control;
use core_rows::{StepNo, nothing_happens_nowhere, rows_may};
use protocol_laws::{allowed_or_refused, numbers_are_in_range};
use snap_base::{ActorId, Bid, Tid};
use std::alloc::Global;

/// Which of the conditions of Complete is the first false one, or 0.
pub(crate) fn complete_refusal(_tables: &Tables, hand: &Hand, k: Bid, a: ActorId) -> u8
    requires tables { AreTables _tables.now }
    requires asked { MayBeAsked (fixed_of _tables.now) (event.Complete k.0 a.0) hand.now }
    ensures { IsRefusalOn (fixed_of _tables.now) (event.Complete k.0 a.0) hand.now result }
{
    rows_may::<Control>();
    nothing_happens_nowhere::<Control>();
    if !hand.has_actor(a) {
        return 1;
    }
    core_rows::complete_refusal(hand.cell(a), k, a)
}

/// Complete.
pub(crate) fn complete(
    alloc: Global,
    tables: &Tables,
    hand: &mut Hand,
    k: Bid,
    a: ActorId,
) -> Result<(), StepNo>
    requires tables { AreTables tables.now }
    requires asked { MayBeAsked (fixed_of tables.now) (event.Complete k.0 a.0) hand.old }
    ensures { IsStep (fixed_of tables.now) (event.Complete k.0 a.0) hand.old hand.new result }
{
    rows_may::<Control>();
    nothing_happens_nowhere::<Control>();
    if !hand.has_actor(a) {
        return Err(StepNo::NotNow { rule: 1 });
    }
    let place = log_of(tables, a.0 as u64);
    let mut log = hand.take_log(place);
    let mut cell = hand.take_cell(a);
    let step = core_rows::complete(alloc, &mut log, &mut cell, k, a);
    hand.put_log(place, log);
    hand.put_cell(a, cell);
    step
}

/// Which of the conditions of Sync is the first false one, or 0.
pub(crate) fn sync_refusal(_tables: &Tables, hand: &Hand, l: u8) -> u8
    requires tables { AreTables _tables.now }
    requires asked { MayBeAsked (fixed_of _tables.now) (event.Sync l) hand.now }
    ensures { IsRefusalOn (fixed_of _tables.now) (event.Sync l) hand.now result }
{
    rows_may::<Control>();
    if !hand.has_log(l) {
        return 1;
    }
    core_rows::sync_refusal::<Control>(hand.log(l as usize), l)
}

/// Sync.
pub(crate) fn sync(_tables: &Tables, hand: &mut Hand, l: u8) -> Result<(), StepNo>
    requires tables { AreTables _tables.now }
    requires asked { MayBeAsked (fixed_of _tables.now) (event.Sync l) hand.old }
    ensures { IsStep (fixed_of _tables.now) (event.Sync l) hand.old hand.new result }
{
    rows_may::<Control>();
    if !hand.has_log(l) {
        return Err(StepNo::NotNow { rule: 1 });
    }
    let mut log = hand.take_log(l as usize);
    let step = core_rows::sync::<Control>(&mut log, l);
    hand.put_log(l as usize, log);
    step
}

/// Which of the conditions of Note is the first false one, or 0.
pub(crate) fn note_refusal(tables: &Tables, hand: &Hand, k: Bid, a: ActorId) -> u8
    requires tables { AreTables tables.now }
    requires asked { MayBeAsked (fixed_of tables.now) (event.Note k.0 a.0) hand.now }
    ensures { IsRefusalOn (fixed_of tables.now) (event.Note k.0 a.0) hand.now result }
{
    let place = log_of(tables, a.0 as u64);
    core_rows::note_refusal::<Control>(hand.desk(), hand.log(place), k, a)
}

/// Note.
pub(crate) fn note(tables: &Tables, hand: &mut Hand, k: Bid, a: ActorId) -> Result<(), StepNo>
    requires tables { AreTables tables.now }
    requires asked { MayBeAsked (fixed_of tables.now) (event.Note k.0 a.0) hand.old }
    ensures { IsStep (fixed_of tables.now) (event.Note k.0 a.0) hand.old hand.new result }
{
    let place = log_of(tables, a.0 as u64);
    let mut desk = hand.take_desk();
    let step = core_rows::note::<Control>(&mut desk, hand.log(place), k, a);
    hand.put_desk(desk);
    step
}

/// Which of the conditions of Commit is the first false one, or 0.
pub(crate) fn commit_refusal(tables: &Tables, hand: &Hand, k: Bid) -> u8
    requires tables { AreTables tables.now }
    requires asked { MayBeAsked (fixed_of tables.now) (event.Commit k.0) hand.now }
    ensures { IsRefusalOn (fixed_of tables.now) (event.Commit k.0) hand.now result }
{
    let place = log_of(tables, k.0);
    core_rows::commit_refusal::<Control>(hand.desk(), hand.log(place), k)
}

/// Commit.
pub(crate) fn commit(alloc: Global, tables: &Tables, hand: &mut Hand, k: Bid) -> Result<(), StepNo>
    requires tables { AreTables tables.now }
    requires asked { MayBeAsked (fixed_of tables.now) (event.Commit k.0) hand.old }
    ensures { IsStep (fixed_of tables.now) (event.Commit k.0) hand.old hand.new result }
{
    let place = log_of(tables, k.0);
    let mut desk = hand.take_desk();
    let mut log = hand.take_log(place);
    let step = core_rows::commit::<Control>(alloc, &mut desk, &mut log, k);
    hand.put_desk(desk);
    hand.put_log(place, log);
    step
}

/// Which of the conditions of Settle is the first false one, or 0.
pub(crate) fn settle_refusal(tables: &Tables, hand: &Hand, k: Bid) -> u8
    requires tables { AreTables tables.now }
    requires asked { MayBeAsked (fixed_of tables.now) (event.Settle k.0) hand.now }
    ensures { IsRefusalOn (fixed_of tables.now) (event.Settle k.0) hand.now result }
{
    let place = log_of(tables, k.0);
    core_rows::settle_refusal::<Control>(hand.desk(), hand.log(place), k)
}

/// Settle.
pub(crate) fn settle(tables: &Tables, hand: &mut Hand, k: Bid) -> Result<(), StepNo>
    requires tables { AreTables tables.now }
    requires asked { MayBeAsked (fixed_of tables.now) (event.Settle k.0) hand.old }
    ensures { IsStep (fixed_of tables.now) (event.Settle k.0) hand.old hand.new result }
{
    let place = log_of(tables, k.0);
    let mut desk = hand.take_desk();
    let step = core_rows::settle::<Control>(&mut desk, hand.log(place), k);
    hand.put_desk(desk);
    step
}

/// Which of the conditions of Prepare is the first false one, or 0.
pub(crate) fn prepare_refusal(_tables: &Tables, hand: &Hand, t: Tid, a: ActorId) -> u8
    requires tables { AreTables _tables.now }
    requires asked { MayBeAsked (fixed_of _tables.now) (event.Prepare t.0 a.0) hand.now }
    ensures { IsRefusalOn (fixed_of _tables.now) (event.Prepare t.0 a.0) hand.now result }
{
    core_rows::prepare_refusal::<Control>(hand.book(), t, a)
}

/// Prepare.
pub(crate) fn prepare(
    alloc: Global,
    tables: &Tables,
    hand: &mut Hand,
    t: Tid,
    a: ActorId,
) -> Result<(), StepNo>
    requires tables { AreTables tables.now }
    requires asked { MayBeAsked (fixed_of tables.now) (event.Prepare t.0 a.0) hand.old }
    ensures { IsStep (fixed_of tables.now) (event.Prepare t.0 a.0) hand.old hand.new result }
{
    numbers_are_in_range::<Control>();
    allowed_or_refused::<Control>();
    if !hand.has_actor(a) {
        let rule = core_rows::prepare_refusal::<Control>(hand.book(), t, a);
        return Err(StepNo::NotNow { rule });
    }
    let place = log_of(tables, a.0 as u64);
    let mut book = hand.take_book();
    let mut log = hand.take_log(place);
    let step = core_rows::prepare(alloc, &mut book, &mut log, hand.cell(a), t, a);
    hand.put_book(book);
    hand.put_log(place, log);
    step
}

/// Which of the conditions of Vouch is the first false one, or 0.
pub(crate) fn vouch_refusal(tables: &Tables, hand: &Hand, t: Tid, a: ActorId) -> u8
    requires tables { AreTables tables.now }
    requires asked { MayBeAsked (fixed_of tables.now) (event.Vouch t.0 a.0) hand.now }
    ensures { IsRefusalOn (fixed_of tables.now) (event.Vouch t.0 a.0) hand.now result }
{
    let place = log_of(tables, a.0 as u64);
    core_rows::vouch_refusal::<Control>(hand.book(), hand.log(place), t, a)
}

/// Vouch.
pub(crate) fn vouch(tables: &Tables, hand: &mut Hand, t: Tid, a: ActorId) -> Result<(), StepNo>
    requires tables { AreTables tables.now }
    requires asked { MayBeAsked (fixed_of tables.now) (event.Vouch t.0 a.0) hand.old }
    ensures { IsStep (fixed_of tables.now) (event.Vouch t.0 a.0) hand.old hand.new result }
{
    let place = log_of(tables, a.0 as u64);
    let mut book = hand.take_book();
    let step = core_rows::vouch::<Control>(&mut book, hand.log(place), t, a);
    hand.put_book(book);
    step
}

/// Which of the conditions of Decide is the first false one, or 0.
pub(crate) fn decide_refusal(tables: &Tables, hand: &Hand, t: Tid) -> u8
    requires tables { AreTables tables.now }
    requires asked { MayBeAsked (fixed_of tables.now) (event.Decide t.0) hand.now }
    ensures { IsRefusalOn (fixed_of tables.now) (event.Decide t.0) hand.now result }
{
    let first = base(tables);
    core_rows::decide_refusal::<Control>(hand.book(), hand.desk(), first, t)
}

/// Decide.
pub(crate) fn decide(alloc: Global, tables: &Tables, hand: &mut Hand, t: Tid) -> Result<(), StepNo>
    requires tables { AreTables tables.now }
    requires asked { MayBeAsked (fixed_of tables.now) (event.Decide t.0) hand.old }
    ensures { IsStep (fixed_of tables.now) (event.Decide t.0) hand.old hand.new result }
{
    let first = base(tables);
    let place = log_of(tables, t.0);
    let mut book = hand.take_book();
    let mut log = hand.take_log(place);
    let step = core_rows::decide::<Control>(alloc, &mut book, hand.desk(), &mut log, first, t);
    hand.put_book(book);
    hand.put_log(place, log);
    step
}

/// Which of the conditions of Seal is the first false one, or 0.
pub(crate) fn seal_refusal(tables: &Tables, hand: &Hand, t: Tid) -> u8
    requires tables { AreTables tables.now }
    requires asked { MayBeAsked (fixed_of tables.now) (event.Seal t.0) hand.now }
    ensures { IsRefusalOn (fixed_of tables.now) (event.Seal t.0) hand.now result }
{
    let place = log_of(tables, t.0);
    core_rows::seal_refusal::<Control>(hand.book(), hand.log(place), t)
}

/// Seal.
pub(crate) fn seal(tables: &Tables, hand: &mut Hand, t: Tid) -> Result<(), StepNo>
    requires tables { AreTables tables.now }
    requires asked { MayBeAsked (fixed_of tables.now) (event.Seal t.0) hand.old }
    ensures { IsStep (fixed_of tables.now) (event.Seal t.0) hand.old hand.new result }
{
    let place = log_of(tables, t.0);
    let mut book = hand.take_book();
    let step = core_rows::seal::<Control>(&mut book, hand.log(place), t);
    hand.put_book(book);
    step
}
