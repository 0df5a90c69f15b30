//! Calls that a fault of the outside, or want of memory, cuts off.

use crate::crashes::is_left;
use crate::failing::{Failing, NONE, Place};
use crate::ran::{Ran, call};
use snap_report::Status;
use std::alloc::Global;
use std::rt::HostRuntime;
use std::test::Fail;

/// Whether this is the front of the whole, and not all of it.
fn is_cut(whole: &str, front: &str) -> bool {
    whole.starts_with(front) && front.len() < whole.len()
}

/// Whether this is the whole trace, or its front up to a reply.
fn ends_before_a_reply(whole: &str, front: &str) -> bool {
    match whole.strip_prefix(front) {
        Some(rest) => rest.is_empty() || rest.starts_with("reply "),
        None => false,
    }
}

/// Whether a run ended as it should where a call failed at this place. A read that fails ends it before it begins. Behind a reply
/// that could not be written no event is taken, but those before it are traced. A trace that fails changes nothing else.
pub(crate) fn is_cut_off(place: Place, whole: &Ran, ran: &Ran) -> bool {
    let (output, trace) = (ran.output(), ran.trace());
    match place {
        Place::Log(log) => ran.0.status == Status::LogFault { log },
        Place::Read => {
            ran.0.status == Status::ReadFault
                && output.is_empty()
                && trace.is_empty()
                && ran.has_untouched_logs()
        }
        Place::Write => {
            ran.0.status == Status::OutFault
                && is_cut(whole.output(), output)
                && ends_before_a_reply(whole.trace(), trace)
        }
        Place::Trace => {
            ran.0.status == Status::TraceFault
                && output == whole.output()
                && is_cut(whole.trace(), trace)
        }
    }
}

/// More than the calls at any place of any run.
const MANY: u64 = 1000;

/// Each call at a place fails in turn, until there is none more and the run ends as the whole one did. Tells which of them do not
/// end as they should.
pub(crate) fn tell_failing(
    alloc: Global,
    asked: &str,
    place: Place,
    whole: &Ran,
    told: &mut String,
) -> Result<(), Fail> {
    for number in 1..MANY {
        let ran = call(alloc, asked, Failing::at(place, number))?;
        // at each place the run makes a call
        let has_ended = number > 1 && ran.is_done() && ran.output() == whole.output();
        let is_so = has_ended || is_cut_off(place, whole, &ran);
        if !is_left(alloc, place, asked, &ran)? || !is_so {
            told.push_str(&format!(in alloc; "{place:?} at call {number}; ")?)?;
        }
        if has_ended {
            return Ok(());
        }
    }
    Ok(told.push_str("no end; ")?)
}

/// The place at which the outside found no memory, where it did.
fn place_of_want(ran: &Ran) -> Option<Place> {
    for (log, number) in ran.0.logs.iter().zip(0..4) {
        if log.wanted() != 0 {
            return Some(Place::Log(number));
        }
    }
    if ran.0.out.0.wanted() != 0 {
        return Some(Place::Write);
    }
    if ran.0.trace.0.wanted() != 0 {
        return Some(Place::Trace);
    }
    None
}

/// Whether a run ended as the whole one did, with the same output, trace and logs.
fn is_whole(whole: &Ran, ran: &Ran) -> bool {
    for (log, left) in whole.0.logs.iter().zip(ran.0.logs.iter()) {
        if log.bytes() != left.bytes() {
            return false;
        }
    }
    ran.is_done() && ran.output() == whole.output() && ran.trace() == whole.trace()
}

/// Whether a run ended as it should where one request for memory was refused, or none. Where the outside made it, that call failed.
/// Else the run is the whole one, or it wants memory, and what it printed and traced are fronts.
fn is_as_refused(whole: &Ran, ran: &Ran) -> bool {
    match place_of_want(ran) {
        Some(place) => is_cut_off(place, whole, ran),
        None if ran.0.status == Status::Memory => {
            whole.output().starts_with(ran.output()) && whole.trace().starts_with(ran.trace())
        }
        None => is_whole(whole, ran),
    }
}

/// Makes the call again, of which a request for memory may be refused, and tells where it does not end as it should. What it asks
/// for stands between two writes to standard error, of which the second tells the status.
pub(crate) fn tell_refused(
    rt: &HostRuntime,
    alloc: Global,
    asked: &str,
    whole: &Ran,
    told: &mut String,
) -> Result<(), Fail> {
    eprint!(rt; "ends with ")?;
    let ran = call(alloc, asked, NONE)?;
    let status = ran.0.status;
    eprintln!(rt; "{status:?}")?;
    if !is_as_refused(whole, &ran) || !is_left(alloc, Place::Log(0), asked, &ran)? {
        told.push_str(&format!(in alloc; "{status:?} for want of memory; ")?)?;
    }
    Ok(())
}
