//! A pool of slots for states, and the images that stand for the states in it.
ghost use Rattle.std.specs.Prelude.{◌≡◌, ◌+◌, ◌<◌, Some, None, IfOk};
ghost use Rattle.image_pool.specs.Region.{state_in_slot, no_states, Changes, IsLive};

use slab::Slab;
use snap_base::{Memory, State};
use std::alloc::Global;
use std::marker::Model;

/// A state that a pool keeps. Contracts see the number of its slot, which no other image of the pool has.
///
/// It has to be spent, by `Pool::put_back`: its type is neither `Drop` nor `Copy` nor `Clone`.
#[must_use]
pub struct Image {
    slot: usize,
}

impl Model for Image {
    ghost use Rattle.std.specs.Prelude.{ℕ};

    ghost Value = { ℕ };

    ghost view = { λ image. image.slot };
}

/// A fixed number of slots for states. Contracts see the state in each live slot, and how many slots are spare.
#[derive(Drop)]
pub struct Pool {
    states: Slab<State>,
    spare: u16,
}

impl Model for Pool {
    ghost use Rattle.std.specs.Prelude.{◌+◌, ◌<◌, ◌≤◌, ◌^◌};
    ghost use Rattle.slab.specs.Slab.{slab_len};
    ghost use Rattle.image_pool.specs.Region.{Region};

    ghost Value = { Region };

    ghost view = { λ p. record { states = p.states.slots; spare = p.spare } };

    // All slots that are spare fit into what was allocated, and their number into its type.
    ghost invariant = { λ p. (slab_len p.states + p.spare ≤ p.states.capacity) × (slab_len p.states + p.spare < 2 ^ 16) };
}

impl Pool {
    /// A pool of `slots` slots, all spare. `Memory` where they cannot be allocated; no later call takes memory.
    pub fn new(alloc: Global, slots: u16) -> Result<Pool, Memory>
        ensures { IfOk result (λ pool. pool ≡ no_states slots) }
    {
        Ok(Pool {
            states: Slab::with_capacity(alloc, usize::from(slots))?,
            spare: slots,
        })
    }

    /// How many more images can be taken.
    pub fn spare(&self) -> u16
        ensures { result ≡ self.now.spare }
    {
        self.spare
    }

    /// Takes an image of a state, in a slot that was spare. The other slots stay as they are.
    pub fn take(&mut self, state: State) -> Image
        requires { 0 < self.old.spare }
        ensures was_spare { state_in_slot result self.old ≡ None }
        ensures states { Changes self.old self.new result (Some state) }
        ensures spare { self.new.spare + 1 ≡ self.old.spare }
    {
        let slot = self.states.insert_reserved(state);
        self.spare -= 1;
        Image { slot }
    }

    /// The state that an image of this pool was taken of.
    pub fn state(&self, image: &Image) -> State
        requires { IsLive image.now self.now }
        ensures { state_in_slot image.now self.now ≡ Some result }
    {
        self.states[image.slot]
    }

    /// Spends an image of this pool, and gives the state that it was taken of. Its slot is spare again, and the other
    /// slots stay as they are.
    pub fn put_back(&mut self, image: Image) -> State
        requires { IsLive image self.old }
        ensures state { state_in_slot image self.old ≡ Some result }
        ensures states { Changes self.old self.new image None }
        ensures spare { self.new.spare ≡ self.old.spare + 1 }
    {
        let Image { slot } = image;
        let state = self.states.remove(slot);
        self.spare += 1;
        state
    }
}
