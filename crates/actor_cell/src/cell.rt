//! The cell of an actor: its state, its images and its two floors.
ghost use Rattle.std.specs.Prelude.{◌≡◌, ◌<◌, false, [], length, not, is_some, filter, IfOk};
ghost use Rattle.protocol.specs.Meant.{who_meant};
ghost use Rattle.protocol.specs.CellParts.{without_image};
ghost use Rattle.protocol.specs.OnCell.{with_image, raised_floors, state_from};
ghost use Rattle.protocol.specs.Parts.{OfBatch};
ghost use Rattle.protocol.specs.Words.{floor_for, image_of, is_who};
ghost use Rattle.actor_cell.specs.Calls.{undone_from};

use crate::images::{Images, MOST_IMAGES};
use crate::meant::Meant;
use snap_base::{Bid, Memory, State, Who};
use std::alloc::Global;
use std::marker::Model;

/// One actor: its state, the images of it that entries have, and its two floors. Contracts see the machine's `Store`.
///
/// All memory is taken by `new`. A cell that is let go spends its images.
#[derive(Drop)]
pub struct Cell {
    state: State,
    images: Images,
    /// The greatest batch that stands before an ACT which left for good, at first `base`: here of those that write.
    write_floor: Bid,
    /// And of those that only read.
    read_floor: Bid,
}

impl Model for Cell {
    ghost use Rattle.protocol.specs.CellParts.{Store};

    ghost Value = { Store };

    ghost view = { λ c. record { state = c.state; images = c.images; floors = record { write = c.write_floor.0; read = c.read_floor.0 } } };
}

impl Cell {
    ghost use Rattle.std.specs.Borrow.{sem};
    ghost use Rattle.actor_cell.specs.Lending.{LendsState};

    /// A cell with this state, without an image, and with `base` as both its floors. `Memory` where the room for its images
    /// cannot be allocated.
    pub fn new(alloc: Global, state: State, base: Bid) -> Result<Cell, Memory>
        ensures { IfOk result (λ cell. cell ≡ record { state = state; images = []; floors = record { write = base.0; read = base.0 } }) }
    {
        Ok(Cell {
            state,
            images: Images::new(alloc)?,
            write_floor: base,
            read_floor: base,
        })
    }

    /// The actor's state.
    pub fn state(&self) -> State
        ensures { result ≡ self.now.state }
    {
        self.state
    }

    /// The actor's state, to be changed by a slice.
    pub fn state_mut(&mut self) -> &mut State
        ensures* writes_back { sem 𝓛 (LendsState self.entry result) }
        ensures value { result.now ≡ self.old.state }
    {
        &mut self.state
    }

    /// Takes an image of the state for `who`, whose entry is about to run. Where it has one already, nothing changes.
    pub fn start_entry(&mut self, who: Who)
        requires { is_some (image_of (who_meant who) self.old.images) ≡ false → length self.old.images < MOST_IMAGES }
        ensures { self.new ≡ record self.old { images = with_image (who_meant who) self.old.state self.old.images } }
    {
        if !self.images.has(who) {
            self.images.keep(who, self.state);
        }
    }

    /// The image of `who`, whose entry leaves, goes back. Where it has none, nothing changes.
    pub fn finish_entry(&mut self, who: Who)
        ensures { self.new ≡ record self.old { images = filter (λ i. not (is_who (who_meant who) i.who)) self.old.images } }
    {
        self.images.give_back(Meant::One(who), self.state);
    }

    /// The state becomes what the image of `who` keeps. Where it has none, nothing changes.
    pub fn restore_entry(&mut self, who: Who)
        ensures { self.new ≡ record self.old { state = state_from self.old.state (image_of (who_meant who) self.old.images) } }
    {
        self.state = self.images.state_of(who, self.state);
    }

    /// What the batches from `bid` on did is undone, and where `acts` is true what the ACTs did too: the state becomes
    /// what the first of their images keeps, and all their images go back. Where they have none, nothing changes.
    pub fn undo_from(&mut self, bid: Bid, acts: bool)
        ensures { self.new ≡ undone_from bid.0 acts self.old }
    {
        self.state = self.images.give_back(Meant::From { bid, acts }, self.state);
    }

    /// The image of batch `bid`, which is settled, goes back. Where it has none, nothing changes.
    pub fn trim(&mut self, bid: Bid)
        ensures { self.new ≡ without_image (OfBatch bid.0) self.old }
    {
        self.finish_entry(Who::Batch(bid));
    }

    /// The floor that counts for an ACT that comes: this batch stands before it. Behind those that wrote and left for good
    /// stands whoever comes; behind those that only read, whoever does not only read.
    pub fn floor(&self, reader: bool) -> Bid
        ensures { result.0 ≡ floor_for reader self.now.floors }
    {
        if reader {
            self.write_floor
        } else {
            Bid(self.write_floor.0.max(self.read_floor.0))
        }
    }

    /// The floor of its kind becomes the greater of itself and `m`, the batch before an ACT that leaves for good and that
    /// only reads or not. The other floor stays.
    pub fn raise_floor(&mut self, m: Bid, reader: bool)
        ensures { self.new ≡ record self.old { floors = raised_floors reader m.0 self.old.floors } }
    {
        if reader {
            self.read_floor = Bid(self.read_floor.0.max(m.0));
        } else {
            self.write_floor = Bid(self.write_floor.0.max(m.0));
        }
    }
}
