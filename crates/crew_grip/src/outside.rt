//! What stands before an event: the append of what waits before a Sync, the line of a reply before it.
ghost use Rattle.std.specs.Prelude.{◌≡◌, Some, slice_set, true};
ghost use Rattle.core_events.specs.Meant.{event_meant};
ghost use Rattle.crew_grip.specs.Acted.{AreSound, IsJustHeld, IsOuter, why_of};
ghost use Rattle.crew_grip.specs.Grips.{IsCrew};
ghost use Rattle.crew_parts.specs.Besides.{HasAppended, HasWritten, MayAppendTo, MayWriteTo};
ghost use Rattle.crew_parts.specs.Shares.{BesideState};
ghost use Rattle.protocol.specs.Events as machine;
ghost use Rattle.snap_hand.specs.Steps.{IsRefusalOn, may_want};
ghost use Rattle.snap_hand.specs.Tables.{fixed_of, text_of};
ghost use Rattle.turn_table.specs.Places.{at};
ghost use Rattle.turn_table.specs.Words.{tables_of};

use crate::Grip;
use crate::results::NotDone;
use aml_slice::Control;
use core_events::{DESK, Event, part_of_log};
use crew_parts::{Beside, Share, appends_drive, runs_of};
use gate_log::AppendNo;
use protocol_laws::allowed_or_refused;
use snap_base::{Sequence, TxNo};
use snap_hand::places_are_set;
use snap_outside::{Failed, LogDev, Sink};
use snap_report::reply_line;
use std::alloc::Global;
use turn_table::Turns;

/// Why what stands before a Sync was not done, where the append was refused.
fn why_of(no: AppendNo) -> NotDone
    ensures { result ≡ why_of no }
{
    match no {
        AppendNo::Memory => NotDone::Memory,
        AppendNo::Device | AppendNo::Shut => NotDone::Fault,
    }
}

/// Appends the pieces to the journal beside the part of this number.
fn append_at<D: LogDev + Drop, O: Sink + Drop>(
    alloc: Global,
    besides: &mut Vec<Option<Beside<D, O>>>,
    part: usize,
    pieces: &[Sequence<u8>],
) -> Result<(), AppendNo>
    requires { (b : BesideState) × ((at besides.old.items part ≡ Some b) × MayAppendTo b pieces.now) }
    ensures { (b : BesideState) → at besides.old.items part ≡ Some b → (c : BesideState) × (HasAppended b c pieces.now result × (besides.new.items ≡ slice_set besides.old.items part (Some c))) }
{
    let Some(mut beside) = besides[part].take() else {
        unreachable!()
    };
    let result = beside.append(alloc, pieces);
    let _none = besides[part].replace(beside);
    result
}

impl<D: LogDev + Drop, O: Sink + Drop> Grip<D, O> {
    /// Does what stands before the event, which is allowed and whose parts alone are held.
    pub(crate) fn go_out(
        &mut self,
        alloc: Global,
        turns: &Turns<Share<D, O>>,
        e: Event,
    ) -> Result<(), NotDone>
        requires crew { IsCrew turns.now }
        requires held { IsJustHeld turns.now (event_meant e) self.old }
        requires sound { AreSound (text_of (tables_of turns.now)).logs self.old }
        requires allowed { IsRefusalOn (fixed_of (tables_of turns.now)) (event_meant e) self.old.hand 0 }
        ensures out { IsOuter (fixed_of (tables_of turns.now)) (event_meant e) self.old self.new result }
        ensures nothing { may_want (event_meant e) ≡ true → self.new ≡ self.old }
    {
        appends_drive();
        match e {
            Event::Sync(l) => self.append_waiting(alloc, turns, l),
            Event::Reply(n) => self.print_line(alloc, turns, n),
            _ => Ok(()),
        }
    }

    /// Appends what waits on log `l` to its journal, as one group.
    fn append_waiting(
        &mut self,
        alloc: Global,
        turns: &Turns<Share<D, O>>,
        l: u8,
    ) -> Result<(), NotDone>
        requires crew { IsCrew turns.now }
        requires held { IsJustHeld turns.now (machine.Sync l) self.old }
        requires sound { AreSound (text_of (tables_of turns.now)).logs self.old }
        requires allowed { IsRefusalOn (fixed_of (tables_of turns.now)) (machine.Sync l) self.old.hand 0 }
        ensures { IsOuter (fixed_of (tables_of turns.now)) (machine.Sync l) self.old self.new result }
    {
        runs_of(turns.tables());
        appends_drive();
        allowed_or_refused::<Control>();
        places_are_set();
        let pieces = self.hand.group(l);
        match append_at(alloc, &mut self.besides, part_of_log(l), pieces) {
            Ok(()) => Ok(()),
            Err(no) => Err(why_of(no)),
        }
    }

    /// Prints the line of transaction `n`, where its verdict is known.
    fn print_line(
        &mut self,
        alloc: Global,
        turns: &Turns<Share<D, O>>,
        n: TxNo,
    ) -> Result<(), NotDone>
        requires crew { IsCrew turns.now }
        requires held { IsJustHeld turns.now (machine.Reply n.0) self.old }
        requires sound { AreSound (text_of (tables_of turns.now)).logs self.old }
        ensures { IsOuter (fixed_of (tables_of turns.now)) (machine.Reply n.0) self.old self.new result }
    {
        appends_drive();
        places_are_set();
        let Some(verdict) = self.hand.verdict(n) else {
            return Ok(());
        };
        let Ok(line) = reply_line(alloc, n, &verdict) else {
            return Err(NotDone::Memory);
        };
        match self.write_at(DESK, line.as_bytes()) {
            Ok(()) => Ok(()),
            Err(_) => Err(NotDone::Fault),
        }
    }

    /// Writes the line to the output beside this part.
    fn write_at(&mut self, part: usize, line: &[u8]) -> Result<(), Failed>
        requires { (b : BesideState) × ((at self.old.besides part ≡ Some b) × MayWriteTo b) }
        ensures { (b : BesideState) → at self.old.besides part ≡ Some b → (c : BesideState) × (HasWritten b c line.now result × (self.new ≡ record self.old { besides = slice_set self.old.besides part (Some c) })) }
    {
        let Some(mut beside) = self.take_up(part) else {
            unreachable!()
        };
        let result = beside.write(line);
        self.lay(part, beside);
        result
    }
}
