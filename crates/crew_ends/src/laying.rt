//! Shares are made of parts, from the last one on.
ghost use Rattle.std.specs.Prelude.{◌≡◌, ◌+◌, ◌<◌, ◌≤◌, ◌∷◌, ◌++◌, [], false, map, replicate, reverse, vec_len, vec_capacity};
ghost use Rattle.std.specs.List.{AllByRecursion};
ghost use Rattle.crew_ends.specs.Ends.{AreBeside};
ghost use Rattle.crew_ends.specs.Lists.{besides_of, laid, parts_of};
ghost use Rattle.crew_parts.specs.Besides.{beside_desk, beside_log, beside_none};
ghost use Rattle.crew_parts.specs.Shares.{OutputState};
ghost use Rattle.snap_hand.specs.Shown.{shown};

use crew_parts::{Beside, Share, Slot};
use gate_log::Log;
use snap_hand::{DESK, FIRST_LOG, Part};
use snap_outside::{LogDev, Sink};

/// The shares of all parts, in the order of their numbers, in a list with room for them: beside the logs are their journals,
/// which leave their list for the slots, and beside the desk is this.
pub(crate) fn lay_out<D: LogDev + Drop, O: Sink + Drop>(
    parts: Vec<Part>,
    logs: &mut Vec<Log<D>>,
    slots: Vec<Slot<D, O>>,
    desk: Beside<D, O>,
    room: Vec<Share<D, O>>,
) -> Vec<Share<D, O>>
    requires many { 4 + vec_len logs.old ≤ vec_len parts }
    requires slots { vec_len logs.old ≤ vec_len slots }
    requires open { AllByRecursion (λ l. l.shut ≡ false) logs.old.items }
    requires format { AllByRecursion (λ l. l.format ≡ 2) logs.old.items }
    requires empty { room.items ≡ [] }
    requires room { vec_len parts ≤ vec_capacity room }
    ensures parts { parts_of result.items ≡ map shown parts.items }
    ensures beside { (out : OutputState) → desk ≡ beside_desk out → AreBeside logs.old.items out result.items }
    ensures emptied { logs.new.items ≡ [] }
    ensures room { vec_capacity logs.new ≡ vec_capacity logs.old }
{
    let mut parts = parts;
    let mut slots = slots;
    let mut shares = room;
    let cells = parts.len() - FIRST_LOG - logs.len();
    lay_bare(&mut parts, &mut shares, cells);
    lay_logs(&mut parts, &mut shares, logs, &mut slots);
    lay_last(&mut parts, &mut shares, desk);
    lay_bare(&mut parts, &mut shares, DESK);
    parts.destroy_empty();
    shares.reverse();
    shares
}

/// The last so many parts become shares, with nothing beside them.
fn lay_bare<D: LogDev, O: Sink>(parts: &mut Vec<Part>, shares: &mut Vec<Share<D, O>>, count: usize)
    requires many { count ≤ vec_len parts.old }
    requires room { vec_len shares.old + count ≤ vec_capacity shares.old }
    ensures parts { laid parts.new.items shares.new.items ≡ laid parts.old.items shares.old.items }
    ensures besides { besides_of (reverse shares.new.items) ≡ replicate count beside_none ++ besides_of (reverse shares.old.items) }
    ensures fewer { vec_len parts.new + count ≡ vec_len parts.old }
    ensures more { vec_len shares.new ≡ vec_len shares.old + count }
    ensures room { vec_capacity shares.new ≡ vec_capacity shares.old }
{
    for _laid in 0..count {
        lay_last(parts, shares, Beside::bare());
    }
}

/// The last parts become shares, with the journals of these logs beside them, each in a slot.
fn lay_logs<D: LogDev + Drop, O: Sink + Drop>(
    parts: &mut Vec<Part>,
    shares: &mut Vec<Share<D, O>>,
    logs: &mut Vec<Log<D>>,
    slots: &mut Vec<Slot<D, O>>,
)
    requires many { vec_len logs.old ≤ vec_len parts.old }
    requires slots { vec_len logs.old ≤ vec_len slots.old }
    requires open { AllByRecursion (λ l. l.shut ≡ false) logs.old.items }
    requires format { AllByRecursion (λ l. l.format ≡ 2) logs.old.items }
    requires room { vec_len shares.old + vec_len logs.old ≤ vec_capacity shares.old }
    ensures parts { laid parts.new.items shares.new.items ≡ laid parts.old.items shares.old.items }
    ensures besides { besides_of (reverse shares.new.items) ≡ map beside_log logs.old.items ++ besides_of (reverse shares.old.items) }
    ensures emptied { logs.new.items ≡ [] }
    ensures capacity { vec_capacity logs.new ≡ vec_capacity logs.old }
    ensures fewer { vec_len parts.new + vec_len logs.old ≡ vec_len parts.old }
    ensures more { vec_len shares.new ≡ vec_len shares.old + vec_len logs.old }
    ensures room { vec_capacity shares.new ≡ vec_capacity shares.old }
{
    while let Some(log) = logs.pop() {
        let Some(slot) = slots.pop() else {
            unreachable!()
        };
        lay_last(parts, shares, slot.with_journal(log));
    }
}

/// The last part becomes a share, with this beside it.
fn lay_last<D: LogDev, O: Sink>(
    parts: &mut Vec<Part>,
    shares: &mut Vec<Share<D, O>>,
    beside: Beside<D, O>,
)
    requires some { 0 < vec_len parts.old }
    requires room { vec_len shares.old < vec_capacity shares.old }
    ensures parts { laid parts.new.items shares.new.items ≡ laid parts.old.items shares.old.items }
    ensures besides { besides_of (reverse shares.new.items) ≡ beside ∷ besides_of (reverse shares.old.items) }
    ensures fewer { vec_len parts.new + 1 ≡ vec_len parts.old }
    ensures more { vec_len shares.new ≡ vec_len shares.old + 1 }
    ensures room { vec_capacity shares.new ≡ vec_capacity shares.old }
{
    let Some(part) = parts.pop() else {
        unreachable!()
    };
    shares.push_reserved(Share::new(part, beside));
}
