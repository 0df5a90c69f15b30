//! Images of states, and an actor's cell, of which what entries did can be undone.
ghost use Rattle.std.specs.Prelude.{◌≡◌};

use crate::tables::{Stepped, differences};
use actor_cell::{Cell, MOST_IMAGES};
use image_pool::Pool;
use snap_base::{Bid, Memory, State, Tid, Who};
use std::alloc::Global;
use std::marker::Model;
use std::test::Fail;

/// A state with this in its first field.
fn state(first: i64) -> State {
    let mut fields = [0; 16];
    fields[0] = first;
    State(fields)
}

/// Two slots: both are taken, the first one is spent and taken again, and all are spent.
fn slots(alloc: Global) -> Result<String, Memory> {
    let mut pool = Pool::new(alloc, 2)?;
    let first = pool.take(state(5));
    let second = pool.take(state(6));
    let none = pool.spare();
    let five = pool.put_back(first).0[0];
    let one = pool.spare();
    let again = pool.take(state(7));
    let six = pool.state(&second).0[0];
    let back = pool.put_back(second).0[0];
    let seven = pool.put_back(again).0[0];
    let two = pool.spare();
    Ok(format!(in alloc; "{none} {five} {one} {six} {back} {seven} {two}")?)
}

/// What is done to a cell.
#[derive(Clone, Copy)]
enum Step {
    Start(Who),
    Finish(Who),
    Restore(Who),
    /// The first field is written.
    Write(i64),
    Undo(u64, bool),
    Trim(u64),
    /// By an ACT that only reads, or by another.
    Raise(u64, bool),
}

/// A cell, and how often an image of it was asked for.
#[derive(Drop)]
struct Cells {
    cell: Cell,
    started: u16,
}

impl Model for Cells {
    ghost use Rattle.std.specs.Prelude.{◌≤◌, length};
    ghost use Rattle.protocol.specs.CellParts.{Store};

    ghost Value = { Store };

    ghost view = { λ c. c.cell };

    ghost invariant = { λ c. length c.cell.images ≤ c.started };
}

impl Stepped for Cells {
    type Step = Step;

    /// It answers the first field, and the floors of who comes: of an ACT that only reads, and of another.
    fn step(&mut self, alloc: Global, step: Step) -> Result<String, Memory> {
        self.make(step);
        let first = self.cell.state().0[0];
        let (reader, writer) = (self.cell.floor(true), self.cell.floor(false));
        Ok(format!(in alloc; "{first} {reader} {writer}")?)
    }
}

impl Cells {
    fn make(&mut self, step: Step) {
        match step {
            Step::Start(who) => self.start(who),
            Step::Finish(who) => self.cell.finish_entry(who),
            Step::Restore(who) => self.cell.restore_entry(who),
            Step::Write(first) => self.cell.state_mut().0[0] = first,
            Step::Undo(bid, acts) => self.cell.undo_from(Bid(bid), acts),
            Step::Trim(bid) => self.cell.trim(Bid(bid)),
            Step::Raise(m, reader) => self.cell.raise_floor(Bid(m), reader),
        }
    }

    /// Where there is room for an image.
    fn start(&mut self, who: Who) {
        if self.started < MOST_IMAGES {
            self.started += 1;
            self.cell.start_entry(who);
        }
    }
}

fn cell_of(alloc: Global, first: i64) -> Result<Cells, Memory> {
    Ok(Cells {
        cell: Cell::new(alloc, state(first), Bid(0))?,
        started: 0,
    })
}

const FIRST: Who = Who::Batch(Bid(1));

const SECOND: Who = Who::Batch(Bid(2));

const THIRD: Who = Who::Batch(Bid(3));

const ACT: Who = Who::Act(Tid(9));

/// Batch 1 did not run here, and an ACT behind it wrote: with the batch it is undone.
const BEHIND: [(Step, &str); 4] = [
    (Step::Start(ACT), "50 0 0"),
    (Step::Write(57), "57 0 0"),
    (Step::Undo(1, false), "57 0 0"),
    (Step::Undo(1, true), "50 0 0"),
];

/// Three batches, and an ACT between the last two. Each keeps its first image.
const BATCHES: [(Step, &str); 16] = [
    (Step::Start(FIRST), "50 0 0"),
    (Step::Write(60), "60 0 0"),
    (Step::Start(FIRST), "60 0 0"),
    (Step::Write(61), "61 0 0"),
    (Step::Start(SECOND), "61 0 0"),
    (Step::Write(70), "70 0 0"),
    (Step::Start(ACT), "70 0 0"),
    (Step::Write(77), "77 0 0"),
    (Step::Restore(ACT), "70 0 0"),
    (Step::Write(78), "78 0 0"),
    (Step::Finish(ACT), "78 0 0"),
    (Step::Start(THIRD), "78 0 0"),
    (Step::Write(80), "80 0 0"),
    (Step::Trim(1), "80 0 0"),
    (Step::Undo(3, true), "78 0 0"),
    (Step::Undo(1, true), "61 0 0"),
];

/// What has no image stays.
const NOTHING: [(Step, &str); 3] = [
    (Step::Restore(ACT), "61 0 0"),
    (Step::Undo(0, true), "61 0 0"),
    (Step::Finish(SECOND), "61 0 0"),
];

/// No floor sinks. One that an ACT raised which only reads holds for others alone, and what another raised for all.
const FLOORS: [(Step, &str); 8] = [
    (Step::Raise(3, false), "61 3 3"),
    (Step::Raise(2, false), "61 3 3"),
    (Step::Raise(2, true), "61 3 3"),
    (Step::Raise(5, true), "61 3 5"),
    (Step::Raise(4, true), "61 3 5"),
    (Step::Raise(4, false), "61 4 5"),
    (Step::Raise(7, false), "61 7 7"),
    (Step::Raise(6, true), "61 7 7"),
];

#[test]
fn images_bring_states_back(rt: HostRuntime) -> Result<(), Fail> {
    let alloc = rt.alloc();
    assert_eq!(rt; slots(alloc)?.as_str(), "0 5 1 6 6 7 2");
    let mut cell = cell_of(alloc, 50)?;
    assert_eq!(rt; differences(alloc, &mut cell, &BEHIND)?.as_str(), "");
    assert_eq!(rt; differences(alloc, &mut cell, &BATCHES)?.as_str(), "");
    assert_eq!(rt; differences(alloc, &mut cell, &NOTHING)?.as_str(), "");
    assert_eq!(rt; differences(alloc, &mut cell, &FLOORS)?.as_str(), "");
    Ok(())
}
