//! The parts of an event: its name and its numbers.

ghost use Rattle.std.specs.Prelude.{◌≡◌, ◌<◌, ◌↔◌, IsTrue, IfSome};
ghost use Rattle.trace_text.specs.Lines.{IsEvent, event_parts, first_limit, AreNumbersOf};
ghost use Rattle.trace_text.specs.Reads.{with_one, with_two, with_numbers};

use crate::names::Name;
use core_events::Event;
use snap_base::{ActorId, Bid, Tid, TxNo};

/// The name of an event, its first number, and its second one if it has two.
pub(crate) fn parts_of(event: Event) -> (Name, u64, Option<u16>)
    ensures parts { result ≡ event_parts event }
    ensures types { IsEvent event }
{
    match event {
        Event::Submit(n) => (Name::Submit, n.0 as u64, None),
        Event::Pass(n) => (Name::Pass, n as u64, None),
        Event::Form(n) => (Name::Form, n.0, None),
        Event::Admit(n) => (Name::Admit, n.0, None),
        Event::Arrive(n, a) => (Name::Arrive, n.0, Some(a.0)),
        Event::Ask(n, a) => (Name::Ask, n.0, Some(a.0)),
        Event::Take(n, a) => (Name::Take, n.0, Some(a.0)),
        Event::Run(n, a) => (Name::Run, n.0, Some(a.0)),
        Event::Send(n, a) => (Name::Send, n.0, Some(a.0)),
        Event::End(n, a) => (Name::End, n.0, Some(a.0)),
        Event::Close(n, a) => (Name::Close, n.0, Some(a.0)),
        Event::Complete(n, a) => (Name::Complete, n.0, Some(a.0)),
        Event::Sync(n) => (Name::Sync, n as u64, None),
        Event::Note(n, a) => (Name::Note, n.0, Some(a.0)),
        Event::Commit(n) => (Name::Commit, n.0, None),
        Event::Settle(n) => (Name::Settle, n.0, None),
        Event::AbortBatch(n) => (Name::AbortBatch, n.0, None),
        Event::Rollback(n) => (Name::Rollback, n.0 as u64, None),
        Event::DropSub(n, a) => (Name::DropSub, n.0, Some(a.0)),
        Event::DropControl(n) => (Name::DropControl, n.0, None),
        Event::Prepare(n, a) => (Name::Prepare, n.0, Some(a.0)),
        Event::Vouch(n, a) => (Name::Vouch, n.0, Some(a.0)),
        Event::Decide(n) => (Name::Decide, n.0, None),
        Event::Seal(n) => (Name::Seal, n.0, None),
        Event::Finish(n, a) => (Name::Finish, n.0, Some(a.0)),
        Event::Reply(n) => (Name::Reply, n.0 as u64, None),
        Event::Trim(n, a) => (Name::Trim, n.0, Some(a.0)),
    }
}

// Whether the first number of an event with this name may be this one.
fn may_be_first(name: Name, n: u64) -> bool
    ensures { IsTrue result ↔ (n < first_limit name) }
{
    match name {
        Name::Submit | Name::Reply => n <= u32::MAX as u64,
        Name::Pass | Name::Sync => n <= u8::MAX as u64,
        Name::Rollback => n <= u16::MAX as u64,
        _ => true,
    }
}

// The event of this name and this number, if such an event has one number.
fn with_one(name: Name, n: u64) -> Option<Event>
    requires { n < first_limit name }
    ensures { result ≡ with_one name n }
{
    match name {
        Name::Submit => Some(Event::Submit(TxNo(n as u32))),
        Name::Pass => Some(Event::Pass(n as u8)),
        Name::Form => Some(Event::Form(Bid(n))),
        Name::Admit => Some(Event::Admit(Tid(n))),
        Name::Arrive => None,
        Name::Ask => None,
        Name::Take => None,
        Name::Run => None,
        Name::Send => None,
        Name::End => None,
        Name::Close => None,
        Name::Complete => None,
        Name::Sync => Some(Event::Sync(n as u8)),
        Name::Note => None,
        Name::Commit => Some(Event::Commit(Bid(n))),
        Name::Settle => Some(Event::Settle(Bid(n))),
        Name::AbortBatch => Some(Event::AbortBatch(Bid(n))),
        Name::Rollback => Some(Event::Rollback(ActorId(n as u16))),
        Name::DropSub => None,
        Name::DropControl => Some(Event::DropControl(Tid(n))),
        Name::Prepare => None,
        Name::Vouch => None,
        Name::Decide => Some(Event::Decide(Tid(n))),
        Name::Seal => Some(Event::Seal(Tid(n))),
        Name::Finish => None,
        Name::Reply => Some(Event::Reply(TxNo(n as u32))),
        Name::Trim => None,
    }
}

// The event of this name and numbers, if such an event has two numbers.
fn with_two(name: Name, n: u64, a: ActorId) -> Option<Event>
    ensures { result ≡ with_two name n a.0 }
{
    match name {
        Name::Submit => None,
        Name::Pass => None,
        Name::Form => None,
        Name::Admit => None,
        Name::Arrive => Some(Event::Arrive(Bid(n), a)),
        Name::Ask => Some(Event::Ask(Tid(n), a)),
        Name::Take => Some(Event::Take(Tid(n), a)),
        Name::Run => Some(Event::Run(Tid(n), a)),
        Name::Send => Some(Event::Send(Tid(n), a)),
        Name::End => Some(Event::End(Tid(n), a)),
        Name::Close => Some(Event::Close(Tid(n), a)),
        Name::Complete => Some(Event::Complete(Bid(n), a)),
        Name::Sync => None,
        Name::Note => Some(Event::Note(Bid(n), a)),
        Name::Commit => None,
        Name::Settle => None,
        Name::AbortBatch => None,
        Name::Rollback => None,
        Name::DropSub => Some(Event::DropSub(Bid(n), a)),
        Name::DropControl => None,
        Name::Prepare => Some(Event::Prepare(Tid(n), a)),
        Name::Vouch => Some(Event::Vouch(Tid(n), a)),
        Name::Decide => None,
        Name::Seal => None,
        Name::Finish => Some(Event::Finish(Tid(n), a)),
        Name::Reply => None,
        Name::Trim => Some(Event::Trim(Bid(n), a)),
    }
}

/// The event of this name and numbers, if there is one: each number is of its type.
pub(crate) fn event_with(name: Name, n: u64, second: Option<u16>) -> Option<Event>
    ensures found { IfSome result (λ e. (event_parts e ≡ (name, n, second)) × AreNumbersOf (name, n, second)) }
    ensures only { AreNumbersOf (name, n, second) → result ≡ with_numbers name n second }
{
    if !may_be_first(name, n) {
        return None;
    }
    match second {
        None => with_one(name, n),
        Some(a) => with_two(name, n, ActorId(a)),
    }
}
