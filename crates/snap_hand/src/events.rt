//! One event on a hand: the only place where the rows of the event table are taken.
ghost use Rattle.core_events.specs.Meant.{event_meant};
ghost use Rattle.snap_hand.specs.Steps.{MayBeAsked, IsRefusalOn, IsStep};
ghost use Rattle.snap_hand.specs.Tables.{AreTables, fixed_of};

use crate::{
    Hand, Tables, beginning, on_actors, on_logs, on_replies, on_ring, on_undoing, running,
};
use core_events::Event;
use core_rows::StepNo;
use std::alloc::Global;

/// Which of the event's conditions is the first false one, from 1 on, or 0 where the event is allowed. The hand has the
/// parts of the event's footprint, and shows a state that some run has come to.
pub fn refusal(tables: &Tables, hand: &Hand, e: Event) -> u8
    requires tables { AreTables tables.now }
    requires asked { MayBeAsked (fixed_of tables.now) (event_meant e) hand.now }
    ensures { IsRefusalOn (fixed_of tables.now) (event_meant e) hand.now result }
{
    match e {
        Event::Submit(n) => on_ring::submit_refusal(tables, hand, n),
        Event::Pass(c) => on_ring::pass_refusal(tables, hand, c),
        Event::Form(k) => beginning::form_refusal(tables, hand, k),
        Event::Admit(t) => beginning::admit_refusal(tables, hand, t),
        Event::Arrive(k, a) => on_actors::arrive_refusal(tables, hand, k, a),
        Event::Ask(t, a) => on_actors::ask_refusal(tables, hand, t, a),
        Event::Take(t, a) => on_actors::take_refusal(tables, hand, t, a),
        Event::Run(t, a) => running::run_refusal(tables, hand, t, a),
        Event::Send(t, a) => on_actors::send_refusal(tables, hand, t, a),
        Event::End(t, a) => on_actors::end_refusal(tables, hand, t, a),
        Event::Close(t, a) => on_actors::close_refusal(tables, hand, t, a),
        Event::Complete(k, a) => on_logs::complete_refusal(tables, hand, k, a),
        Event::Sync(l) => on_logs::sync_refusal(tables, hand, l),
        Event::Note(k, a) => on_logs::note_refusal(tables, hand, k, a),
        Event::Commit(k) => on_logs::commit_refusal(tables, hand, k),
        Event::Settle(k) => on_logs::settle_refusal(tables, hand, k),
        Event::AbortBatch(k) => on_undoing::abort_refusal(tables, hand, k),
        Event::Rollback(a) => on_undoing::rollback_refusal(tables, hand, a),
        Event::DropSub(k, a) => on_undoing::drop_sub_refusal(tables, hand, k, a),
        Event::DropControl(t) => on_undoing::drop_control_refusal(tables, hand, t),
        Event::Prepare(t, a) => on_logs::prepare_refusal(tables, hand, t, a),
        Event::Vouch(t, a) => on_logs::vouch_refusal(tables, hand, t, a),
        Event::Decide(t) => on_logs::decide_refusal(tables, hand, t),
        Event::Seal(t) => on_logs::seal_refusal(tables, hand, t),
        Event::Finish(t, a) => on_actors::finish_refusal(tables, hand, t, a),
        Event::Reply(n) => on_replies::reply_refusal(tables, hand, n),
        Event::Trim(k, a) => on_actors::trim_refusal(tables, hand, k, a),
    }
}

/// Takes the event, where it is allowed. Else, and for want of memory, the hand stays as it was. The hand has the parts of
/// the event's footprint, and shows a state that some run has come to.
pub fn apply(alloc: Global, tables: &Tables, e: Event, hand: &mut Hand) -> Result<(), StepNo>
    requires tables { AreTables tables.now }
    requires asked { MayBeAsked (fixed_of tables.now) (event_meant e) hand.old }
    ensures { IsStep (fixed_of tables.now) (event_meant e) hand.old hand.new result }
{
    match e {
        Event::Submit(n) => on_ring::submit(tables, hand, n),
        Event::Pass(c) => on_ring::pass(tables, hand, c),
        Event::Form(k) => beginning::form(alloc, tables, hand, k),
        Event::Admit(t) => beginning::admit(alloc, tables, hand, t),
        Event::Arrive(k, a) => on_actors::arrive(alloc, tables, hand, k, a),
        Event::Ask(t, a) => on_actors::ask(alloc, tables, hand, t, a),
        Event::Take(t, a) => on_actors::take(alloc, tables, hand, t, a),
        Event::Run(t, a) => running::run(tables, hand, t, a),
        Event::Send(t, a) => on_actors::send(alloc, tables, hand, t, a),
        Event::End(t, a) => on_actors::end(alloc, tables, hand, t, a),
        Event::Close(t, a) => on_actors::close(tables, hand, t, a),
        Event::Complete(k, a) => on_logs::complete(alloc, tables, hand, k, a),
        Event::Sync(l) => on_logs::sync(tables, hand, l),
        Event::Note(k, a) => on_logs::note(tables, hand, k, a),
        Event::Commit(k) => on_logs::commit(alloc, tables, hand, k),
        Event::Settle(k) => on_logs::settle(tables, hand, k),
        Event::AbortBatch(k) => on_undoing::abort(tables, hand, k),
        Event::Rollback(a) => on_undoing::rollback(tables, hand, a),
        Event::DropSub(k, a) => on_undoing::drop_sub(tables, hand, k, a),
        Event::DropControl(t) => on_undoing::drop_control(tables, hand, t),
        Event::Prepare(t, a) => on_logs::prepare(alloc, tables, hand, t, a),
        Event::Vouch(t, a) => on_logs::vouch(tables, hand, t, a),
        Event::Decide(t) => on_logs::decide(alloc, tables, hand, t),
        Event::Seal(t) => on_logs::seal(tables, hand, t),
        Event::Finish(t, a) => on_actors::finish(tables, hand, t, a),
        Event::Reply(n) => on_replies::reply(tables, hand, n),
        Event::Trim(k, a) => on_actors::trim(tables, hand, k, a),
    }
}
