//! A look: which events are allowed with the parts that are free. It changes nothing, does not wait, and gives back all that it took.
//! Who looks takes the ring first, so two that look are not in each other's way.
ghost use Rattle.std.specs.Prelude.{◌≡◌};
ghost use Rattle.crew_grip.specs.Grips.{IsAtWork, IsCrew, IsHeldNow};
ghost use Rattle.snap_hand.specs.Hands.{IsHandOf};
ghost use Rattle.snap_hand.specs.Tables.{AreTables, fixed_of};
ghost use Rattle.turn_table.specs.Words.{HoldsNothing, splits_of};

use crate::sharing::Crew;
use crate::workers::Worker;
use core_events::{Event, RING, first_cell};
use crew_grip::Grip;
use crew_hints::{AtHand, Finds, Scope, list_coming, list_live_answers};
use ready_listing::{actor_count, list_book, list_cells, list_desk, list_post, list_ring};
use snap_base::{ActorId, Memory};
use snap_outside::{Gate, LogDev, Sink};

/// What a look saw.
#[derive(Clone, Copy, Debug, PartialEq, Eq)]
pub enum Seen {
    /// Something to try.
    Something,
    /// Nothing. Whether it had all parts.
    Nothing { all: bool },
    /// Another worker has the ring.
    Busy,
    /// There was no memory, and nothing to try could be kept.
    Memory,
}

/// What was found.
#[derive(Clone, Copy, Debug, PartialEq, Eq)]
enum Found {
    /// Something that is left to try.
    Something,
    Nothing,
    /// Nothing is left to try, and for something there was no memory.
    Memory,
}

impl Found {
    /// Behind one event more that is allowed, which was kept, or for which there was no memory.
    fn with_one(self, kept: bool) -> Found {
        if kept || self == Found::Something {
            Found::Something
        } else {
            Found::Memory
        }
    }

    /// Where perhaps not all was listed, for want of memory.
    fn as_listed(self, all: bool) -> Found {
        if all || self == Found::Something {
            self
        } else {
            Found::Memory
        }
    }
}

impl<'a, D: LogDev + Drop, O: Sink + Drop, G: Gate> Crew<'a, D, O, G> {
    /// Looks at the parts that are free, as far as the scope goes. What it finds is left to try, and what lacked a part behind that.
    pub fn look(&self, worker: &mut Worker<D, O>, scope: Scope) -> Seen
        requires crew { IsCrew self.now.turns.now }
        requires work { IsAtWork self.now.turns.now worker.old.pass.seat worker.old.grip }
        ensures work { IsAtWork self.now.turns.now worker.new.pass.seat worker.new.grip }
        ensures idle { HoldsNothing worker.new.pass.seat }
        ensures rest { (worker.new.pass.entries ≡ worker.old.pass.entries) × (splits_of worker.new.pass.seat ≡ splits_of worker.old.pass.seat) }
    {
        let taken = self.take_free(worker, scope);
        let Worker {
            pass,
            grip,
            finds,
            held: _,
            hub: _,
            row: _,
        } = worker;
        let seen = match taken {
            Some(all) => seen_of(self.find(grip, finds, scope), all),
            None => Seen::Busy,
        };
        grip.give_all(self.turns, pass);
        self.board.take_over_each(finds);
        seen
    }

    /// Takes the parts that are free, by one try each, and of the cells only those in the scope. Whether these are all; `None` where
    /// another worker has the ring.
    fn take_free(&self, worker: &mut Worker<D, O>, scope: Scope) -> Option<bool>
        requires crew { IsCrew self.now.turns.now }
        requires work { IsAtWork self.now.turns.now worker.old.pass.seat worker.old.grip }
        ensures work { IsAtWork self.now.turns.now worker.new.pass.seat worker.new.grip }
        ensures rest { (worker.new.pass.entries ≡ worker.old.pass.entries) × (splits_of worker.new.pass.seat ≡ splits_of worker.old.pass.seat) }
    {
        let cells = first_cell(self.turns.tables().work.logs);
        let mut all = true;
        for part in 0..self.turns.part_count() {
            if part >= cells && scope == Scope::Narrow && !self.board.is_touched(part) {
                all = false;
            } else if worker.grip.take(self.turns, &mut worker.pass, part) {
                self.board.is_looked_at(part);
            } else {
                if part == RING {
                    return None;
                }
                all = false;
            }
        }
        Some(all)
    }

    /// Finds what is allowed of what the parts at hand list, as far as the scope goes; where there is nothing else, a Sync.
    fn find(&self, grip: &Grip<D, O>, finds: &mut Finds, scope: Scope) -> Found
        requires crew { IsCrew self.now.turns.now }
        requires held { IsHeldNow self.now.turns.now grip.now }
    {
        let found = match scope {
            Scope::Narrow | Scope::Full => self.find_listed(grip, finds, scope),
            Scope::Wide => self.find_all(grip, finds),
        };
        if found == Found::Nothing && scope != Scope::Narrow {
            self.find_sync(grip, finds)
        } else {
            found
        }
    }

    /// Finds what is allowed of what the parts at hand list, but Syncs and replies of PACTs.
    fn find_listed(&self, grip: &Grip<D, O>, finds: &mut Finds, scope: Scope) -> Found
        requires crew { IsCrew self.now.turns.now }
        requires held { IsHeldNow self.now.turns.now grip.now }
    {
        let at = AtHand {
            alloc: self.alloc,
            tables: self.turns.tables(),
            hand: grip.hand(),
            long: self.board.is_spread(),
        };
        let mut listed = Vec::new(self.alloc);
        let all = list_hand(&at, scope, &mut listed).is_ok();
        let mut found = Found::Nothing;
        for e in &listed {
            if grip.may_do(self.turns, *e) {
                found = found.with_one(finds.put(*e));
            }
        }
        found.as_listed(all)
    }

    /// Finds all that is allowed with the parts at hand, but Syncs.
    fn find_all(&self, grip: &Grip<D, O>, finds: &mut Finds) -> Found
        requires crew { IsCrew self.now.turns.now }
        requires held { IsHeldNow self.now.turns.now grip.now }
    {
        let Ok(list) = grip.offers(self.alloc, self.turns) else {
            return Found::Memory;
        };
        let mut found = Found::Nothing;
        for i in 0..list.count() {
            match list.nth(i) {
                None => {}
                Some(Event::Sync(_)) => {}
                Some(e) => found = found.with_one(finds.put(e)),
            }
        }
        found
    }

    /// Finds the first Sync that is allowed.
    fn find_sync(&self, grip: &Grip<D, O>, finds: &mut Finds) -> Found
        requires crew { IsCrew self.now.turns.now }
        requires held { IsHeldNow self.now.turns.now grip.now }
    {
        for l in 0..self.turns.tables().work.logs {
            if grip.may_do(self.turns, Event::Sync(l)) {
                return Found::Nothing.with_one(finds.put(Event::Sync(l)));
            }
        }
        Found::Nothing
    }
}

/// What a look saw that had all parts or not, by what it found.
fn seen_of(found: Found, all: bool) -> Seen {
    match found {
        Found::Something => Seen::Something,
        Found::Nothing => Seen::Nothing { all },
        Found::Memory => Seen::Memory,
    }
}

/// What the parts at hand list, but Syncs and replies of PACTs. Want of memory leaves some of it.
fn list_hand(at: &AtHand, scope: Scope, listed: &mut Vec<Event>) -> Result<(), Memory>
    requires tables { AreTables at.now.tables.now }
    requires places { IsHandOf (fixed_of at.now.tables.now) at.now.hand.now }
{
    list_ring(at.tables, at.hand, listed)?;
    list_cells(at.alloc, at.tables, at.hand, listed)?;
    list_book(at.alloc, at.hand, listed)?;
    if scope == Scope::Narrow {
        return list_comings(at, listed);
    }
    list_post(at.alloc, at.hand, listed)?;
    list_desk(at.alloc, at.hand, listed)?;
    list_live_answers(at, listed)
}

/// What comes to the actors whose cells are at hand.
fn list_comings(at: &AtHand, listed: &mut Vec<Event>) -> Result<(), Memory>
    requires tables { AreTables at.now.tables.now }
    requires places { IsHandOf (fixed_of at.now.tables.now) at.now.hand.now }
{
    for a in 0..actor_count(at.tables, at.hand) {
        if at.hand.has_cell(ActorId(a)) {
            list_coming(at, ActorId(a), listed)?;
        }
    }
    Ok(())
}
