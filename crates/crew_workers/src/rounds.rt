//! A try of one event. It does not wait. What it took stays held behind it, so that the next one need not take it again; but a worker
//! that lacks a turn gives back what it holds, so that it keeps nobody waiting.
ghost use Rattle.std.specs.Prelude.{◌≡◌, ◌<◌, ℕ, None, true, false};
ghost use Rattle.core_events.specs.Meant.{event_meant};
ghost use Rattle.crew_grip.specs.Grips.{IsAtWork, IsCrew, IsHeldNow};
ghost use Rattle.crew_workers.specs.Rounds.{HasTried};
ghost use Rattle.crew_workers.specs.Workers.{IsWithin};
ghost use Rattle.protocol.specs.Events as machine;
ghost use Rattle.protocol.specs.Words.{is_among};
ghost use Rattle.snap_hand.specs.Tables.{text_of};
ghost use Rattle.turn_table.specs.Places.{at};
ghost use Rattle.turn_table.specs.Words.{HoldsNothing, knows, splits_of, tables_of};

use crate::sharing::Crew;
use crate::workers::Worker;
use core_events::{Event, Footprint, footprint};
use crew_grip::{Acted, Grip};
use crew_hints::{AtHand, Finds, Mark, follow, list_foreseen, list_refused, waiting_keys};
use snap_outside::{Gate, LogDev, Sink};

/// So many records that wait for a Sync are worth one.
const GROUP: usize = 64;

/// What came of a try.
#[derive(Clone, Copy, Debug, PartialEq, Eq)]
pub enum Round {
    /// The event was looked at with its parts at hand, and this became of it.
    Looked(Acted),
    /// A turn was held by another worker, to which the event could not be left. It is to be tried again in a while.
    Lacking,
    /// A turn was held by another worker. The event is left to whoever has it.
    OnBoard,
    /// There was no memory. Nothing was done.
    Memory,
}

impl<'a, D: LogDev + Drop, O: Sink + Drop, G: Gate> Crew<'a, D, O, G> {
    /// Tries one event: gives back what is held of other parts, takes its own that are not held, by one try each, and does it where it is
    /// allowed. What it may have made allowed is left to try, and so is what lacked one of the parts that were given back or are at
    /// hand. Where a part is not to be had, all are given back, and the event is left to the worker that has that part.
    pub fn try_event(&self, worker: &mut Worker<D, O>, e: Event) -> Round
        requires crew { IsCrew self.now.turns.now }
        requires work { IsAtWork self.now.turns.now worker.old.pass.seat worker.old.grip }
        requires within { IsWithin worker.old.held worker.old.pass.seat }
        ensures work { IsAtWork self.now.turns.now worker.new.pass.seat worker.new.grip }
        ensures within { IsWithin worker.new.held worker.new.pass.seat }
        ensures entries { HasTried e worker.old.pass.entries.items worker.new.pass.entries.items result }
        ensures splits { splits_of worker.new.pass.seat ≡ splits_of worker.old.pass.seat }
    {
        let parts = footprint(e, self.turns.tables().work.logs);
        self.keep_parts(worker, &parts);
        match self.tried(worker, &parts, e) {
            Round::Lacking => self.leave(worker, parts, e),
            round => {
                if self.board.has_left() {
                    let here = self.awaited(&worker.grip, &parts);
                    self.board.take_over_those(&parts, here, &mut worker.finds);
                }
                worker.held = parts;
                round
            }
        }
    }

    /// Gives back what is held, but for these parts. What lacked one that was given back is left to try.
    fn keep_parts(&self, worker: &mut Worker<D, O>, parts: &Footprint)
        requires crew { IsCrew self.now.turns.now }
        requires work { IsAtWork self.now.turns.now worker.old.pass.seat worker.old.grip }
        requires within { IsWithin worker.old.held worker.old.pass.seat }
        ensures work { IsAtWork self.now.turns.now worker.new.pass.seat worker.new.grip }
        ensures others { (i : ℕ) → is_among i parts.now ≡ false → at (knows worker.new.pass.seat).held i ≡ None }
        ensures rest { (worker.new.pass.entries ≡ worker.old.pass.entries) × (splits_of worker.new.pass.seat ≡ splits_of worker.old.pass.seat) }
    {
        let Worker {
            pass,
            grip,
            finds,
            held,
            hub: _,
            row: _,
        } = worker;
        let were = self.awaited(grip, held);
        grip.keep_parts(self.turns, pass, held, parts);
        if self.board.has_left() {
            self.board
                .take_over_those(held, were & !self.awaited(grip, held), finds);
        }
    }

    /// Gives back all that is held. What lacked a part of that is left to try.
    pub fn give_back(&self, worker: &mut Worker<D, O>)
        requires crew { IsCrew self.now.turns.now }
        requires work { IsAtWork self.now.turns.now worker.old.pass.seat worker.old.grip }
        requires within { IsWithin worker.old.held worker.old.pass.seat }
        ensures work { IsAtWork self.now.turns.now worker.new.pass.seat worker.new.grip }
        ensures idle { HoldsNothing worker.new.pass.seat }
        ensures rest { (worker.new.pass.entries ≡ worker.old.pass.entries) × (splits_of worker.new.pass.seat ≡ splits_of worker.old.pass.seat) }
    {
        let Worker {
            pass,
            grip,
            finds,
            held,
            hub: _,
            row,
        } = worker;
        *row = 0;
        let were = self.awaited(grip, held);
        grip.give_parts(self.turns, pass, held);
        self.board.take_over_those(held, were, finds);
    }

    /// Which of these parts are held that another worker may wait for: a bit for each, from the lowest on.
    fn awaited(&self, grip: &Grip<D, O>, parts: &Footprint) -> u32 {
        if self.board.is_alone() {
            0
        } else {
            held_among(grip, parts)
        }
    }

    /// Tries one event, which has these parts, outside of which nothing is held: takes them by one try each, and does it where it is
    /// allowed. What was taken stays held.
    fn tried(&self, worker: &mut Worker<D, O>, parts: &Footprint, e: Event) -> Round
        requires crew { IsCrew self.now.turns.now }
        requires work { IsAtWork self.now.turns.now worker.old.pass.seat worker.old.grip }
        requires others { (i : ℕ) → is_among i parts.now ≡ false → at (knows worker.old.pass.seat).held i ≡ None }
        requires parts { parts.now ≡ machine.footprint (text_of (tables_of self.now.turns.now)).logs (event_meant e) }
        ensures work { IsAtWork self.now.turns.now worker.new.pass.seat worker.new.grip }
        ensures others { (i : ℕ) → is_among i parts.now ≡ false → at (knows worker.new.pass.seat).held i ≡ None }
        ensures entries { HasTried e worker.old.pass.entries.items worker.new.pass.entries.items result }
        ensures splits { splits_of worker.new.pass.seat ≡ splits_of worker.old.pass.seat }
    {
        let Worker {
            pass,
            grip,
            finds,
            held: _,
            hub: _,
            row: _,
        } = worker;
        let Ok(()) = grip.room(self.turns, pass) else {
            return Round::Memory;
        };
        if !grip.take_parts(self.turns, pass, parts) {
            return Round::Lacking;
        }
        foresee(grip, e, &mut finds.news);
        let acted = grip.act(self.alloc, self.turns, pass, self.gate, e);
        self.follow(grip, finds, parts, e, acted);
        Round::Looked(acted)
    }

    /// An event, which lacks one of these parts, outside of which nothing is held, is left to the worker that has the part, and the others
    /// are given back.
    fn leave(&self, worker: &mut Worker<D, O>, parts: Footprint, e: Event) -> Round
        requires crew { IsCrew self.now.turns.now }
        requires work { IsAtWork self.now.turns.now worker.old.pass.seat worker.old.grip }
        requires others { (i : ℕ) → is_among i parts ≡ false → at (knows worker.old.pass.seat).held i ≡ None }
        ensures work { IsAtWork self.now.turns.now worker.new.pass.seat worker.new.grip }
        ensures within { IsWithin worker.new.held worker.new.pass.seat }
        ensures entries { HasTried e worker.old.pass.entries.items worker.new.pass.entries.items result }
        ensures splits { splits_of worker.new.pass.seat ≡ splits_of worker.old.pass.seat }
    {
        let lacking = first_lacking(&worker.grip, &parts);
        let were = self.awaited(&worker.grip, &parts);
        worker.grip.give_parts(self.turns, &mut worker.pass, &parts);
        self.board.touch(&parts);
        self.board.take_over_those(&parts, were, &mut worker.finds);
        match lacking {
            Some(part) => self.leave_at(worker, parts, part, e),
            None => {
                worker.held = parts;
                Round::Lacking
            }
        }
    }

    /// An event, which lacks this one of its parts, outside of which nothing is held, is left to the worker that has the part.
    fn leave_at(&self, worker: &mut Worker<D, O>, parts: Footprint, part: usize, e: Event) -> Round
        requires crew { IsCrew self.now.turns.now }
        requires work { IsAtWork self.now.turns.now worker.old.pass.seat worker.old.grip }
        requires others { (i : ℕ) → is_among i parts ≡ false → at (knows worker.old.pass.seat).held i ≡ None }
        ensures work { IsAtWork self.now.turns.now worker.new.pass.seat worker.new.grip }
        ensures within { IsWithin worker.new.held worker.new.pass.seat }
        ensures entries { HasTried e worker.old.pass.entries.items worker.new.pass.entries.items result }
        ensures splits { splits_of worker.new.pass.seat ≡ splits_of worker.old.pass.seat }
    {
        if !self.is_left(&parts, part, e) {
            worker.held = parts;
            return Round::Lacking;
        }
        self.try_again(worker, parts, part);
        Round::OnBoard
    }

    /// Whether the event, which lacks this one of its parts, could be left to the worker that has the part.
    fn is_left(&self, parts: &Footprint, part: usize, e: Event) -> bool
        ensures among { result ≡ true → is_among part parts.now ≡ true }
        ensures part { result ≡ true → part < self.now.turns.now.parts }
    {
        if part >= self.turns.part_count() || !parts.has(part) {
            return false;
        }
        self.board.leave(part, e)
    }

    /// The part that an event lacked is tried once more, behind the moment in which the event was left to who has it: that worker may
    /// have looked for what lacks the part before. Nothing outside of the event's parts is held.
    fn try_again(&self, worker: &mut Worker<D, O>, parts: Footprint, part: usize)
        requires crew { IsCrew self.now.turns.now }
        requires work { IsAtWork self.now.turns.now worker.old.pass.seat worker.old.grip }
        requires others { (i : ℕ) → is_among i parts ≡ false → at (knows worker.old.pass.seat).held i ≡ None }
        requires among { is_among part parts ≡ true }
        requires part { part < self.now.turns.now.parts }
        ensures work { IsAtWork self.now.turns.now worker.new.pass.seat worker.new.grip }
        ensures within { IsWithin worker.new.held worker.new.pass.seat }
        ensures rest { (worker.new.pass.entries ≡ worker.old.pass.entries) × (splits_of worker.new.pass.seat ≡ splits_of worker.old.pass.seat) }
    {
        let taken = worker.grip.take(self.turns, &mut worker.pass, part);
        self.board.take_over_if(taken, part, &mut worker.finds);
        worker.held = parts;
    }

    /// What the event, which was tried with its parts, which are held, may have made allowed is left to try.
    fn follow(
        &self,
        grip: &Grip<D, O>,
        finds: &mut Finds,
        parts: &Footprint,
        e: Event,
        acted: Acted,
    )
        requires crew { IsCrew self.now.turns.now }
        requires held { IsHeldNow self.now.turns.now grip.now }
    {
        let logs = self.turns.tables().work.logs;
        let done = matches!(acted, Acted::Done { number: _ });
        if done {
            let at = AtHand {
                alloc: self.alloc,
                tables: self.turns.tables(),
                hand: grip.hand(),
                long: self.board.is_spread(),
            };
            follow(&at, e, finds);
            self.board.touch(parts);
        } else {
            finds.news.clear();
            let _all = list_refused(e, &mut finds.news);
        }
        if let Some(l) = log_of(e, logs) {
            let waiting = waiting_keys(grip.hand(), l).len();
            self.board.set_waiting(l, waiting as u64);
            if done && waiting > 0 && waiting % GROUP == 0 {
                let _kept = finds.put(Event::Sync(l));
            }
        }
        self.keep_news(grip, finds);
    }

    /// What may be allowed of the news, as far as what is held tells, is left to try. A worker alone tries all of it, since nearly all is
    /// allowed, and nobody waits for a part meanwhile.
    fn keep_news(&self, grip: &Grip<D, O>, finds: &mut Finds)
        requires crew { IsCrew self.now.turns.now }
        requires held { IsHeldNow self.now.turns.now grip.now }
    {
        for i in 0..finds.news.len() {
            if let Some(next) = finds.news.get(i).copied() {
                if self.board.is_alone() || self.may_be_next(grip, next) {
                    let _kept = finds.put(next);
                }
            }
        }
    }

    /// Whether the event may be allowed, as far as what is held tells: not where all its parts are held and it is refused.
    fn may_be_next(&self, grip: &Grip<D, O>, e: Event) -> bool
        requires crew { IsCrew self.now.turns.now }
        requires held { IsHeldNow self.now.turns.now grip.now }
    {
        let parts = footprint(e, self.turns.tables().work.logs);
        first_lacking(grip, &parts).is_some() || grip.may_do(self.turns, e)
    }

    /// Looks at the parts that tell what a mark is for. What they tell is left to try.
    pub fn look_at(&self, worker: &mut Worker<D, O>, mark: Mark)
        requires crew { IsCrew self.now.turns.now }
        requires work { IsAtWork self.now.turns.now worker.old.pass.seat worker.old.grip }
        requires within { IsWithin worker.old.held worker.old.pass.seat }
        ensures work { IsAtWork self.now.turns.now worker.new.pass.seat worker.new.grip }
        ensures within { IsWithin worker.new.held worker.new.pass.seat }
        ensures rest { (worker.new.pass.entries ≡ worker.old.pass.entries) × (splits_of worker.new.pass.seat ≡ splits_of worker.old.pass.seat) }
    {
        let tables = self.turns.tables();
        let parts = footprint(mark.event(), tables.work.logs);
        self.keep_parts(worker, &parts);
        let Worker {
            pass,
            grip,
            finds,
            held,
            hub: _,
            row: _,
        } = worker;
        if grip.take_parts(self.turns, pass, &parts) {
            let at = AtHand {
                alloc: self.alloc,
                tables,
                hand: grip.hand(),
                long: self.board.is_spread(),
            };
            finds.news.clear();
            let _all = mark.list(&at, &mut finds.news);
            self.keep_news(grip, finds);
        }
        *held = parts;
    }
}

/// Puts in place of what was listed what the event will make allowed, as far as its parts tell that only ahead of it.
fn foresee<D: LogDev + Drop, O: Sink + Drop>(grip: &Grip<D, O>, e: Event, news: &mut Vec<Event>) {
    news.clear();
    if let Event::Sync(l) = e {
        let _all = list_foreseen(grip.hand(), l, news);
    }
}

/// The log to which the event adds a record, of so many, or which it syncs.
fn log_of(e: Event, logs: u8) -> Option<u8> {
    if logs == 0 {
        return None;
    }
    match e {
        Event::Sync(l) => Some(l),
        Event::Form(k) | Event::Commit(k) => Some((k.0 % logs as u64) as u8),
        Event::Decide(t) => Some((t.0 % logs as u64) as u8),
        Event::Complete(_, a) | Event::Prepare(_, a) => Some((a.0 % logs as u16) as u8),
        _ => None,
    }
}

/// Which of these parts are held: a bit for each, from the lowest on.
fn held_among<D: LogDev + Drop, O: Sink + Drop>(grip: &Grip<D, O>, parts: &Footprint) -> u32 {
    let mut among = 0u32;
    let mut bit = 1u32;
    for part in parts.as_slice() {
        if grip.holds(*part) {
            among |= bit;
        }
        bit = bit.wrapping_mul(2);
    }
    among
}

/// The first of these parts that is not held.
fn first_lacking<D: LogDev + Drop, O: Sink + Drop>(
    grip: &Grip<D, O>,
    parts: &Footprint,
) -> Option<usize> {
    for part in parts.as_slice() {
        if !grip.holds(*part) {
            return Some(*part);
        }
    }
    None
}
