//! The table of footprints: which parts each event needs.
ghost use Rattle.std.specs.Prelude.{◌≡◌, ◌%◌, ◌≤◌};
ghost use Rattle.protocol.specs.Events as protocol;
ghost use Rattle.core_events.specs.Meant.{event_meant};

use crate::events::Event;
use crate::footprints::Footprint;
use crate::numbers::{BOOK, DESK, FIRST_LOG, POST, RING, part_of_cell, part_of_log};

/// The number of the log, of so many, to which the batch, the transaction or the actor of this number writes.
fn log_of(number: u64, logs: u8) -> usize
    requires { 1 ≤ logs }
    ensures { result ≡ protocol.log (number % logs) }
{
    FIRST_LOG + (number % logs as u64) as usize
}

/// The parts that an event needs, where there are so many logs, at least one: the numbers ascend.
pub fn footprint(e: Event, logs: u8) -> Footprint
    requires { 1 ≤ logs }
    ensures { result ≡ protocol.footprint logs (event_meant e) }
{
    match e {
        Event::Submit(_) => Footprint::one(RING),
        Event::Pass(_) => Footprint::one(RING),
        Event::Form(k) => Footprint::four(RING, POST, DESK, log_of(k.0, logs)),
        Event::Admit(_) => Footprint::three(RING, BOOK, POST),
        Event::Arrive(_, a) => Footprint::three(BOOK, POST, part_of_cell(a, logs)),
        Event::Ask(_, a) => Footprint::three(BOOK, POST, part_of_cell(a, logs)),
        Event::Take(_, a) => Footprint::two(POST, part_of_cell(a, logs)),
        Event::Run(_, a) => Footprint::one(part_of_cell(a, logs)),
        Event::Send(_, a) => Footprint::two(POST, part_of_cell(a, logs)),
        Event::End(_, a) => Footprint::three(BOOK, DESK, part_of_cell(a, logs)),
        Event::Close(_, a) => Footprint::two(DESK, part_of_cell(a, logs)),
        Event::Complete(_, a) => Footprint::two(log_of(a.0 as u64, logs), part_of_cell(a, logs)),
        Event::Sync(l) => Footprint::one(part_of_log(l)),
        Event::Note(_, a) => Footprint::two(DESK, log_of(a.0 as u64, logs)),
        Event::Commit(k) => Footprint::two(DESK, log_of(k.0, logs)),
        Event::Settle(k) => Footprint::two(DESK, log_of(k.0, logs)),
        Event::AbortBatch(_) => Footprint::three(RING, BOOK, DESK),
        Event::Rollback(a) => Footprint::two(BOOK, part_of_cell(a, logs)),
        Event::DropSub(_, _) => Footprint::two(BOOK, POST),
        Event::DropControl(_) => Footprint::two(BOOK, POST),
        Event::Prepare(_, a) => Footprint::three(
            BOOK,
            log_of(a.0 as u64, logs),
            part_of_cell(a, logs),
        ),
        Event::Vouch(_, a) => Footprint::two(BOOK, log_of(a.0 as u64, logs)),
        Event::Decide(t) => Footprint::three(BOOK, DESK, log_of(t.0, logs)),
        Event::Seal(t) => Footprint::two(BOOK, log_of(t.0, logs)),
        Event::Finish(_, a) => Footprint::two(BOOK, part_of_cell(a, logs)),
        Event::Reply(_) => Footprint::two(BOOK, DESK),
        Event::Trim(_, a) => Footprint::two(DESK, part_of_cell(a, logs)),
    }
}
