//! Shares are taken apart, from the last one on.
ghost use Rattle.std.specs.Prelude.{◌≡◌, ◌+◌, ◌<◌, ◌≤◌, ◌∷◌, ◌++◌, [], map, length, vec_len, vec_capacity};
ghost use Rattle.crew_ends.specs.Ends.{AreBeside};
ghost use Rattle.crew_ends.specs.Lists.{EndsWithJournal, EndsWithOutput, HaveJournals, HaveOutput, besides_of, gathered, parts_of, taken};
ghost use Rattle.snap_hand.specs.protocol_laws.OneWay.{IsFront};
ghost use Rattle.crew_parts.specs.Shares.{OutputState, output_seen};
ghost use Rattle.gate_log.specs.State.{LogState};
ghost use Rattle.snap_hand.specs.Shown.{shown};

use crate::rooms::Room;
use crew_parts::{Beside, Share};
use gate_log::Log;
use snap_hand::{DESK, FIRST_LOG, Hand, Part};
use snap_outside::{LogDev, Sink};

/// What shares are made of: the parts, with a hand for them; the journals and the output, and whether the output failed.
pub(crate) struct Apart<D: LogDev, O: Sink> {
    /// A hand for the parts.
    pub hand: Hand,
    /// The parts, in the order of their numbers.
    pub parts: Vec<Part>,
    /// The logs, in the order of their numbers.
    pub logs: Vec<Log<D>>,
    /// The output.
    pub out: O,
    /// Whether the output failed at a line.
    pub broken: bool,
}

/// Takes all shares apart, where so many are of logs, into the room for what they are made of.
pub(crate) fn take_apart<D: LogDev + Drop, O: Sink + Drop>(
    shares: Vec<Share<D, O>>,
    room: Room<D>,
    count: usize,
) -> Apart<D, O>
    requires many { 4 + count ≤ vec_len shares }
    requires journals { HaveJournals count (besides_of shares.items) }
    requires output { HaveOutput (besides_of shares.items) }
    requires room { (vec_len shares ≤ room.parts) × (count ≤ room.logs) }
    ensures hand { result.hand ≡ room.hand }
    ensures parts { map shown result.parts.items ≡ parts_of shares.items }
    ensures beside { AreBeside result.logs.items (output_seen O.taken O.faults O.late result.broken result.out) shares.items }
    ensures many { length result.logs.items ≡ count }
{
    let Room {
        hand,
        mut parts,
        mut logs,
    } = room;
    let mut shares = shares;
    let cells = shares.len() - FIRST_LOG - count;
    take_bare(&mut shares, &mut parts, cells);
    take_logs(&mut shares, &mut parts, &mut logs, count);
    let (out, broken) = take_output(&mut shares, &mut parts);
    take_bare(&mut shares, &mut parts, DESK);
    shares.destroy_empty();
    parts.reverse();
    logs.reverse();
    Apart {
        hand,
        parts,
        logs,
        out,
        broken,
    }
}

/// The last so many shares are taken apart. Nothing of worth stands beside their parts.
fn take_bare<D: LogDev + Drop, O: Sink + Drop>(
    shares: &mut Vec<Share<D, O>>,
    parts: &mut Vec<Part>,
    count: usize,
)
    requires many { count ≤ vec_len shares.old }
    requires room { vec_len parts.old + count ≤ vec_capacity parts.old }
    ensures parts { taken shares.new.items parts.new.items ≡ taken shares.old.items parts.old.items }
    ensures front { IsFront (besides_of shares.new.items) (besides_of shares.old.items) }
    ensures fewer { vec_len shares.new + count ≡ vec_len shares.old }
    ensures more { vec_len parts.new ≡ vec_len parts.old + count }
    ensures room { vec_capacity parts.new ≡ vec_capacity parts.old }
{
    for _taken in 0..count {
        let _beside = take_last(shares, parts);
    }
}

/// The last so many shares are taken apart, which are those of the logs, behind four others. Their journals go into a list with
/// room for them, the last one first.
fn take_logs<D: LogDev + Drop, O: Sink + Drop>(
    shares: &mut Vec<Share<D, O>>,
    parts: &mut Vec<Part>,
    logs: &mut Vec<Log<D>>,
    count: usize,
)
    requires many { vec_len shares.old ≡ 4 + count }
    requires journals { HaveJournals count (besides_of shares.old.items) }
    requires room { vec_len parts.old + count ≤ vec_capacity parts.old }
    requires empty { logs.old.items ≡ [] }
    requires logs { count ≤ vec_capacity logs.old }
    ensures parts { taken shares.new.items parts.new.items ≡ taken shares.old.items parts.old.items }
    ensures front { IsFront (besides_of shares.new.items) (besides_of shares.old.items) }
    ensures journals { gathered (besides_of shares.new.items) logs.new.items ≡ gathered (besides_of shares.old.items) [] }
    ensures fewer { vec_len shares.new ≡ 4 }
    ensures more { vec_len parts.new ≡ vec_len parts.old + count }
    ensures room { vec_capacity parts.new ≡ vec_capacity parts.old }
    ensures logs { vec_len logs.new ≡ count }
{
    for _taken in 0..count {
        take_log(shares, parts, logs);
    }
}

/// The last share, which is a log's, is taken apart.
fn take_log<D: LogDev + Drop, O: Sink + Drop>(
    shares: &mut Vec<Share<D, O>>,
    parts: &mut Vec<Part>,
    logs: &mut Vec<Log<D>>,
)
    requires last { (journal : LogState) × EndsWithJournal journal (besides_of shares.old.items) }
    requires room { vec_len parts.old < vec_capacity parts.old }
    requires logs { vec_len logs.old < vec_capacity logs.old }
    ensures parts { taken shares.new.items parts.new.items ≡ taken shares.old.items parts.old.items }
    ensures front { IsFront (besides_of shares.new.items) (besides_of shares.old.items) }
    ensures journals { gathered (besides_of shares.new.items) logs.new.items ≡ gathered (besides_of shares.old.items) logs.old.items }
    ensures fewer { vec_len shares.new + 1 ≡ vec_len shares.old }
    ensures more { vec_len parts.new ≡ vec_len parts.old + 1 }
    ensures room { vec_capacity parts.new ≡ vec_capacity parts.old }
    ensures log { vec_len logs.new ≡ vec_len logs.old + 1 }
    ensures logs { vec_capacity logs.new ≡ vec_capacity logs.old }
{
    let beside = take_last(shares, parts);
    let Some(log) = beside.into_journal() else {
        unreachable!()
    };
    logs.push_reserved(log);
}

/// The last share, which is the desk's, is taken apart: the output, and whether it failed.
fn take_output<D: LogDev + Drop, O: Sink + Drop>(
    shares: &mut Vec<Share<D, O>>,
    parts: &mut Vec<Part>,
) -> (O, bool)
    requires last { (output : OutputState) × EndsWithOutput output (besides_of shares.old.items) }
    requires room { vec_len parts.old < vec_capacity parts.old }
    ensures parts { taken shares.new.items parts.new.items ≡ taken shares.old.items parts.old.items }
    ensures output { EndsWithOutput (output_seen O.taken O.faults O.late result.1 result.0) (besides_of shares.old.items) }
    ensures fewer { vec_len shares.new + 1 ≡ vec_len shares.old }
    ensures more { vec_len parts.new ≡ vec_len parts.old + 1 }
    ensures room { vec_capacity parts.new ≡ vec_capacity parts.old }
{
    let beside = take_last(shares, parts);
    let Some(output) = beside.into_output() else {
        unreachable!()
    };
    output
}

/// The last share is taken apart.
fn take_last<D: LogDev, O: Sink>(
    shares: &mut Vec<Share<D, O>>,
    parts: &mut Vec<Part>,
) -> Beside<D, O>
    requires some { 0 < vec_len shares.old }
    requires room { vec_len parts.old < vec_capacity parts.old }
    ensures parts { taken shares.new.items parts.new.items ≡ taken shares.old.items parts.old.items }
    ensures beside { besides_of shares.old.items ≡ besides_of shares.new.items ++ result ∷ [] }
    ensures fewer { vec_len shares.new + 1 ≡ vec_len shares.old }
    ensures more { vec_len parts.new ≡ vec_len parts.old + 1 }
    ensures room { vec_capacity parts.new ≡ vec_capacity parts.old }
{
    let Some(share) = shares.pop() else {
        unreachable!()
    };
    let (part, beside) = share.open();
    parts.push_reserved(part);
    beside
}
