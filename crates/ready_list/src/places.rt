//! Where events stand in the order.

ghost use Rattle.std.specs.Prelude.{◌≡◌};
ghost use Rattle.core_events.specs.Meant.{event_meant};
ghost use Rattle.ready_list.specs.Order.{is_lower, is_same, numbers};

use core_events::Event;

/// The numbers of an event, by which those of one kind are ordered. The second is 0 where there is none.
#[derive(Clone, Copy)]
pub(crate) struct Place {
    pub(crate) first: u64,
    pub(crate) second: u64,
}

impl Place {
    /// Whether an event with the first numbers stands before one of its kind with the others.
    pub(crate) fn is_below(&self, other: &Place) -> bool
        ensures { result ≡ is_lower self.now other.now }
    {
        self.first < other.first || (self.first == other.first && self.second < other.second)
    }

    /// Whether they are the same numbers.
    pub(crate) fn is_same(&self, other: &Place) -> bool
        ensures { result ≡ is_same self.now other.now }
    {
        self.first == other.first && self.second == other.second
    }
}

fn at(first: u64, second: u64) -> Place
    ensures { result ≡ record { first = first; second = second } }
{
    Place { first, second }
}

/// Its numbers.
pub(crate) fn place_of(e: Event) -> Place
    ensures { result ≡ numbers (event_meant e) }
{
    match e {
        Event::Submit(n) => at(n.0 as u64, 0),
        Event::Pass(c) => at(c as u64, 0),
        Event::Form(k) => at(k.0, 0),
        Event::Admit(t) => at(t.0, 0),
        Event::Arrive(k, a) => at(k.0, a.0 as u64),
        Event::Ask(t, a) => at(t.0, a.0 as u64),
        Event::Take(t, a) => at(t.0, a.0 as u64),
        Event::Run(t, a) => at(t.0, a.0 as u64),
        Event::Send(t, a) => at(t.0, a.0 as u64),
        Event::End(t, a) => at(t.0, a.0 as u64),
        Event::Close(t, a) => at(t.0, a.0 as u64),
        Event::Complete(k, a) => at(k.0, a.0 as u64),
        Event::Sync(l) => at(l as u64, 0),
        Event::Note(k, a) => at(k.0, a.0 as u64),
        Event::Commit(k) => at(k.0, 0),
        Event::Settle(k) => at(k.0, 0),
        Event::AbortBatch(k) => at(k.0, 0),
        Event::Rollback(a) => at(a.0 as u64, 0),
        Event::DropSub(k, a) => at(k.0, a.0 as u64),
        Event::DropControl(t) => at(t.0, 0),
        Event::Prepare(t, a) => at(t.0, a.0 as u64),
        Event::Vouch(t, a) => at(t.0, a.0 as u64),
        Event::Decide(t) => at(t.0, 0),
        Event::Seal(t) => at(t.0, 0),
        Event::Finish(t, a) => at(t.0, a.0 as u64),
        Event::Reply(n) => at(n.0 as u64, 0),
        Event::Trim(k, a) => at(k.0, a.0 as u64),
    }
}
