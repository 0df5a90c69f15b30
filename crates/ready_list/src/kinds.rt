//! The kinds of events.

ghost use Rattle.std.specs.Prelude.{◌≡◌, ◌<◌};
ghost use Rattle.core_events.specs.Meant.{event_meant};
ghost use Rattle.ready_list.specs.Order.{kind_of};
ghost use Rattle.ready_list.specs.declared.kinds.TheConstants.{KIND_BOUND};

use core_events::Event;

// In their order.
pub(crate) const SUBMIT: u8 = 1;

pub(crate) const PASS: u8 = 2;

pub(crate) const FORM: u8 = 3;

pub(crate) const ADMIT: u8 = 4;

pub(crate) const ARRIVE: u8 = 5;

pub(crate) const ASK: u8 = 6;

pub(crate) const TAKE: u8 = 7;

pub(crate) const RUN: u8 = 8;

pub(crate) const SEND: u8 = 9;

pub(crate) const END: u8 = 10;

pub(crate) const CLOSE: u8 = 11;

pub(crate) const COMPLETE: u8 = 12;

pub(crate) const SYNC: u8 = 13;

pub(crate) const NOTE: u8 = 14;

pub(crate) const COMMIT: u8 = 15;

pub(crate) const SETTLE: u8 = 16;

pub(crate) const ABORT_BATCH: u8 = 17;

pub(crate) const ROLLBACK: u8 = 18;

pub(crate) const DROP_SUB: u8 = 19;

pub(crate) const DROP_CONTROL: u8 = 20;

pub(crate) const PREPARE: u8 = 21;

pub(crate) const VOUCH: u8 = 22;

pub(crate) const DECIDE: u8 = 23;

pub(crate) const SEAL: u8 = 24;

pub(crate) const FINISH: u8 = 25;

pub(crate) const REPLY: u8 = 26;

pub(crate) const TRIM: u8 = 27;

/// All kinds are below it.
pub(crate) const KIND_BOUND: u8 = 28;

/// Its kind: by that events are ordered first.
pub(crate) fn kind_of(e: Event) -> u8
    ensures value { result ≡ kind_of (event_meant e) }
    ensures below { result < KIND_BOUND }
{
    match e {
        Event::Submit(_) => SUBMIT,
        Event::Pass(_) => PASS,
        Event::Form(_) => FORM,
        Event::Admit(_) => ADMIT,
        Event::Arrive(_, _) => ARRIVE,
        Event::Ask(_, _) => ASK,
        Event::Take(_, _) => TAKE,
        Event::Run(_, _) => RUN,
        Event::Send(_, _) => SEND,
        Event::End(_, _) => END,
        Event::Close(_, _) => CLOSE,
        Event::Complete(_, _) => COMPLETE,
        Event::Sync(_) => SYNC,
        Event::Note(_, _) => NOTE,
        Event::Commit(_) => COMMIT,
        Event::Settle(_) => SETTLE,
        Event::AbortBatch(_) => ABORT_BATCH,
        Event::Rollback(_) => ROLLBACK,
        Event::DropSub(_, _) => DROP_SUB,
        Event::DropControl(_) => DROP_CONTROL,
        Event::Prepare(_, _) => PREPARE,
        Event::Vouch(_, _) => VOUCH,
        Event::Decide(_) => DECIDE,
        Event::Seal(_) => SEAL,
        Event::Finish(_, _) => FINISH,
        Event::Reply(_) => REPLY,
        Event::Trim(_, _) => TRIM,
    }
}
