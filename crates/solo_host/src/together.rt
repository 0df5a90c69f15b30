//! Replies that follow one another: their lines are printed together, and then they are taken.
ghost use Rattle.std.specs.Prelude.{◌≡◌, ◌≢◌, ◌≤◌, ◌<◌, ◌+◌, ◌++◌, [], ◌∷◌, List, None, Some, true, false, length, map, take, slice_get, string_bytes, vec_len, vec_capacity, IfOk, IfSome, MatchOption, OnOk};
ghost use Rattle.protocol.specs.Conditions.{IsAllowed};
ghost use Rattle.protocol.specs.Effects.{after};
ghost use Rattle.protocol.specs.Events as machine;
ghost use Rattle.gate_log.specs.State.{LogState};
ghost use Rattle.run_effects.specs.Lines.{line_in};
ghost use Rattle.run_effects.specs.RunsOf.{RunsOf};
ghost use Rattle.snap_core.specs.core_events.Meant.{event_meant};
ghost use Rattle.snap_core.specs.Cores.{IsAt, HasTaken, state_at};
ghost use Rattle.snap_core.specs.Kept.{IsAllowedAt};
ghost use Rattle.snap_core.specs.ready_renewal.Covering.{Covers};
ghost use Rattle.snap_core.specs.snap_hand.Tables.{fixed_of};
ghost use Rattle.snap_outside.specs.Causes.{EndsAtFault};
ghost use Rattle.solo_host.specs.Outside.{Outside, outside};
ghost use Rattle.solo_host.specs.Together.{AreLeading, AreNext, HasTakenThese, IsAheadBy, IsDriving, IsOver, lines_in};
ghost use Rattle.solo_host.specs.Turns.{IsBehindWords, IsKeptFor};

use crate::fronts::write_front;
use crate::keeping::keep;
use crate::picks::draw;
use crate::tries::is_allowed;
use crate::waits::take_step;
use aml_slice::Control;
use protocol_laws::allowed_or_refused;
use protocol_ready::{events_stay_in_order, one_is_taken, ranks_are_in_order};
use rand_pcg::Pcg32;
use run_effects::Stop;
use snap_base::{Memory, TxNo};
use snap_core::{Core, Event, ReadyList};
use snap_outside::Sink;
use snap_report::reply_line;
use std::alloc::Global;

/// A reply whose line is made: its transaction, and how many bytes its line has.
#[derive(Clone, Copy)]
pub(crate) struct Line {
    pub(crate) tx: TxNo,
    pub(crate) length: usize,
}

/// The reply at a place of the list, if one stands there that is allowed.
fn reply_at(core: &Core, list: &ReadyList, place: usize) -> Option<TxNo>
    ensures there { IfSome result (λ n. slice_get list.now.events place ≡ Some (machine.Reply n.0)) }
    ensures allowed { IfSome result (λ n. IsAllowedAt core.now (machine.Reply n.0)) }
{
    match list.nth(place) {
        Some(Event::Reply(n)) => {
            if is_allowed(core, Event::Reply(n)) {
                Some(n)
            } else {
                None
            }
        }
        _ => None,
    }
}

/// Adds the line of transaction `n` to the text, where its verdict is known. How many bytes it has.
fn add_line(alloc: Global, core: &Core, n: TxNo, text: &mut String) -> Result<usize, Memory>
    ensures { IfOk result (λ count. (es : List machine.Event) → IsAt core.now es
        → (string_bytes text.new ≡ string_bytes text.old ++ line_in (state_at core.now es) n.0) × (count ≡ length (line_in (state_at core.now es) n.0))) }
{
    let Some(verdict) = core.verdict(n) else {
        return Ok(0);
    };
    let line = reply_line(alloc, n, &verdict)?;
    text.push_str(&line)?;
    Ok(line.len())
}

/// Gathers the replies with which the list begins, up to the first that is not allowed, and their lines.
fn gather(
    alloc: Global,
    core: &Core,
    list: &ReadyList,
    replies: &mut Vec<Line>,
    text: &mut String,
) -> Result<(), Memory>
    requires none { replies.old.items ≡ [] }
    requires empty { string_bytes text.old ≡ [] }
    ensures { OnOk result ((es : List machine.Event) → IsAt core.now es → AreLeading (fixed_of core.now.tables) (state_at core.now es) list.now.events replies.new.items (string_bytes text.new)) }
{
    for place in 0..list.count() {
        let Some(tx) = reply_at(core, list, place) else {
            return Ok(());
        };
        let length = add_line(alloc, core, tx, text)?;
        replies.push(Line { tx, length })?;
    }
    Ok(())
}

/// Takes the reply, which is allowed, out of the list too, and keeps it in a list that has room for it. It adds nothing, so there is
/// no want of memory. A word is drawn, as for each event.
fn take_reply(
    alloc: Global,
    core: &mut Core,
    generator: &mut Pcg32,
    list: &mut ReadyList,
    n: TxNo,
    kept: &mut Vec<Event>,
)
    requires at { IsAt core.old (map event_meant kept.old.items) }
    requires allowed { IsAllowed (fixed_of core.old.tables) (machine.Reply n.0) (state_at core.old (map event_meant kept.old.items)) }
    requires covers { Covers (fixed_of core.old.tables) (state_at core.old (map event_meant kept.old.items)) list.old.events }
    requires drawn { IsBehindWords 0 (length (map event_meant kept.old.items)) generator.old }
    requires room { vec_len kept.old < vec_capacity kept.old }
    ensures kept { map event_meant kept.new.items ≡ map event_meant kept.old.items ++ machine.Reply n.0 ∷ [] }
    ensures at { IsAt core.new (map event_meant kept.new.items) }
    ensures covers { Covers (fixed_of core.old.tables) (after (fixed_of core.old.tables) (machine.Reply n.0) (state_at core.old (map event_meant kept.old.items))) list.new.events }
    ensures drawn { IsBehindWords 0 (length (map event_meant kept.new.items)) generator.new }
    ensures room { vec_capacity kept.old ≤ vec_capacity kept.new }
    ensures many { vec_len kept.new ≡ vec_len kept.old + 1 }
    ensures tables { core.new.tables ≡ core.old.tables }
{
    events_stay_in_order();
    one_is_taken();
    match take_step(alloc, core, Event::Reply(n)) {
        Ok(()) => {}
        Err(_) => unreachable!(),
    }
    list.take(Event::Reply(n));
    let _word = draw(generator);
    keep(kept, Event::Reply(n));
}

/// Takes the replies, one after the other, up to the first whose line is not whole in the first `taken` bytes of their lines. Whether all
/// were taken.
fn take_each(
    alloc: Global,
    core: &mut Core,
    generator: &mut Pcg32,
    list: &mut ReadyList,
    replies: &[Line],
    taken: usize,
    kept: &mut Vec<Event>,
) -> bool
    requires runs { RunsOf (fixed_of core.old.tables) }
    requires at { IsAt core.old (map event_meant kept.old.items) }
    requires next { AreNext (fixed_of core.old.tables) (state_at core.old (map event_meant kept.old.items)) replies.now }
    requires covers { Covers (fixed_of core.old.tables) (state_at core.old (map event_meant kept.old.items)) list.old.events }
    requires drawn { IsBehindWords 0 (length (map event_meant kept.old.items)) generator.old }
    requires room { vec_len kept.old + length replies.now ≤ vec_capacity kept.old }
    ensures at { IsAt core.new (map event_meant kept.new.items) }
    ensures covers { Covers (fixed_of core.old.tables) (state_at core.old (map event_meant kept.new.items)) list.new.events }
    ensures drawn { IsBehindWords 0 (length (map event_meant kept.new.items)) generator.new }
    ensures all { result ≡ true → length (lines_in (state_at core.old (map event_meant kept.old.items)) replies.now) ≤ taken }
    ensures cut { result ≡ false → taken < length (lines_in (state_at core.old (map event_meant kept.old.items)) replies.now) }
    ensures goes { (start now : Outside) → IsAheadBy (fixed_of core.old.tables) 0 (map event_meant kept.old.items) (take taken (lines_in (state_at core.old (map event_meant kept.old.items)) replies.now)) start now
        → HasTakenThese (fixed_of core.old.tables) 0 (map event_meant kept.new.items) start now result }
    ensures more { length kept.old.items ≤ length kept.new.items }
    ensures tables { core.new.tables ≡ core.old.tables }
{
    let mut left = taken;
    for line in replies {
        if left < line.length {
            return false;
        }
        left -= line.length;
        take_reply(alloc, core, generator, list, line.tx, kept);
    }
    true
}

/// Prints the lines of the replies with which the list begins, together, and takes those whose lines the output took. Or it tells
/// why the host ends: there was no memory, and none is printed or taken; or the output failed at the line of the next one.
fn take_together<O: Sink>(
    alloc: Global,
    core: &mut Core,
    out: &mut O,
    generator: &mut Pcg32,
    list: &mut ReadyList,
    kept: &mut Vec<Event>,
) -> Option<Stop>
    requires runs { RunsOf (fixed_of core.old.tables) }
    requires at { IsAt core.old (map event_meant kept.old.items) }
    requires covers { Covers (fixed_of core.old.tables) (state_at core.old (map event_meant kept.old.items)) list.old.events }
    requires drawn { IsBehindWords 0 (length (map event_meant kept.old.items)) generator.old }
    ensures at { IsAt core.new (map event_meant kept.new.items) }
    ensures covers { Covers (fixed_of core.old.tables) (state_at core.old (map event_meant kept.new.items)) list.new.events }
    ensures drawn { IsBehindWords 0 (length (map event_meant kept.new.items)) generator.new }
    ensures goes { (start : Outside) (logs : List LogState) → IsDriving (fixed_of core.old.tables) 0 (map event_meant kept.old.items) start (outside logs (O.taken out.old) (O.faults out.old))
        → MatchOption result
        (IsDriving (fixed_of core.old.tables) 0 (map event_meant kept.new.items) start (outside logs (O.taken out.new) (O.faults out.new)))
        (λ stop. IsOver (fixed_of core.old.tables) 0 (map event_meant kept.new.items) stop start (outside logs (O.taken out.new) (O.faults out.new))) }
    ensures once { EndsAtFault (result ≢ Some Stop.OutFault) (O.faults out.old) (O.late out.old) (O.faults out.new) (O.late out.new) }
    ensures more { length kept.old.items ≤ length kept.new.items }
    ensures tables { core.new.tables ≡ core.old.tables }
{
    let mut replies = Vec::new(alloc);
    let mut text = String::new(alloc);
    let Ok(()) = gather(alloc, core, list, &mut replies, &mut text) else {
        return Some(Stop::Memory);
    };
    if kept.reserve(replies.len()).is_err() {
        return Some(Stop::Memory);
    }
    allowed_or_refused::<Control>();
    ranks_are_in_order();
    let taken = write_front(out, text.as_bytes());
    if take_each(
        alloc,
        core,
        generator,
        list,
        replies.as_slice(),
        taken,
        kept,
    ) {
        None
    } else {
        Some(Stop::OutFault)
    }
}

/// By seed 0 the replies with which the list begins are taken, as `take_together` does; by another seed nothing is done.
pub(crate) fn take_replies<O: Sink>(
    alloc: Global,
    core: &mut Core,
    out: &mut O,
    seed: u64,
    generator: &mut Pcg32,
    list: &mut ReadyList,
    kept: &mut Vec<Event>,
) -> Option<Stop>
    requires runs { RunsOf (fixed_of core.old.tables) }
    requires at { IsAt core.old (map event_meant kept.old.items) }
    requires keeps { IsKeptFor seed (fixed_of core.old.tables) (state_at core.old (map event_meant kept.old.items)) list.old.events }
    requires drawn { IsBehindWords seed (length (map event_meant kept.old.items)) generator.old }
    ensures at { IsAt core.new (map event_meant kept.new.items) }
    ensures keeps { IsKeptFor seed (fixed_of core.old.tables) (state_at core.old (map event_meant kept.new.items)) list.new.events }
    ensures drawn { IsBehindWords seed (length (map event_meant kept.new.items)) generator.new }
    ensures goes { (start : Outside) (logs : List LogState) → IsDriving (fixed_of core.old.tables) seed (map event_meant kept.old.items) start (outside logs (O.taken out.old) (O.faults out.old))
        → MatchOption result
        (IsDriving (fixed_of core.old.tables) seed (map event_meant kept.new.items) start (outside logs (O.taken out.new) (O.faults out.new)))
        (λ stop. IsOver (fixed_of core.old.tables) seed (map event_meant kept.new.items) stop start (outside logs (O.taken out.new) (O.faults out.new))) }
    ensures once { EndsAtFault (result ≢ Some Stop.OutFault) (O.faults out.old) (O.late out.old) (O.faults out.new) (O.late out.new) }
    ensures more { length kept.old.items ≤ length kept.new.items }
    ensures tables { core.new.tables ≡ core.old.tables }
{
    if seed == 0 {
        take_together(alloc, core, out, generator, list, kept)
    } else {
        None
    }
}
