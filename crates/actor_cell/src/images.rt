//! The images of one actor, each with the batch or the ACT that it was taken for.
ghost use Rattle.std.specs.Prelude.{◌≡◌, ◌<◌, [], ◌∷◌, ◌++◌, length, not, is_some, filter, find, slice_index_or, option_copied, IfOk};
ghost use Rattle.std.specs.List.{remove};
ghost use Rattle.protocol.specs.Meant.{who_meant};
ghost use Rattle.protocol.specs.OnCell.{state_from};
ghost use Rattle.protocol.specs.Parts.{Image as Taken};
ghost use Rattle.protocol.specs.Words.{image_of};
ghost use Rattle.actor_cell.specs.Calls.{is_meant};

use crate::meant::Meant;
use image_pool::{Image, Pool};
use snap_base::{Memory, State, Who};
use std::alloc::Global;
use std::marker::Model;

/// The most images that an actor has at one time: it has at most 32 batches that are live or not yet rolled back, and at
/// most 32 live ACTs.
pub const MOST_IMAGES: u16 = 64;

/// An image, and whose it is.
pub(crate) struct Held {
    who: Who,
    image: Image,
}

/// The images of an actor, in the order in which they were taken, over a pool of its own.
pub(crate) struct Images {
    held: Vec<Held>,
    pool: Pool,
}

impl Model for Images {
    ghost use Rattle.std.specs.Prelude.{List, vec_capacity};
    ghost use Rattle.protocol.specs.Parts.{Image as Taken};

    ghost Value = { List Taken };

    ghost use Rattle.actor_cell.specs.Keeping.{images_of, AreImagesKept};

    ghost view = { λ i. images_of i.pool i.held.items };

    ghost invariant = { λ i. AreImagesKept i.pool i.held.items (vec_capacity i.held) };
}

/// The first that is meant.
fn first_meant(held: &[Held], meant: Meant) -> Option<&Held>
    ensures { option_copied result ≡ find (λ h. is_meant meant (who_meant h.who)) held.now }
{
    held.iter().find(|h| meant.includes(h.who))
}

impl Images {
    /// No images, with room for `MOST_IMAGES`.
    pub(crate) fn new(alloc: Global) -> Result<Images, Memory>
        ensures { IfOk result (λ images. images ≡ []) }
    {
        let pool = Pool::new(alloc, MOST_IMAGES)?;
        let held = Vec::with_capacity(alloc, usize::from(MOST_IMAGES))?;
        Ok(Images { held, pool })
    }

    pub(crate) fn len(&self) -> usize
        ensures { result ≡ length self.now }
    {
        self.held.len()
    }

    /// Whose the image at this place is.
    pub(crate) fn whose(&self, at: usize) -> Who
        requires { at < length self.now }
        ensures { (d : Taken) → who_meant result ≡ (slice_index_or self.now at d).who }
    {
        self.held[at].who
    }

    pub(crate) fn has(&self, who: Who) -> bool
        ensures { result ≡ is_some (image_of (who_meant who) self.now) }
    {
        first_meant(&self.held, Meant::One(who)).is_some()
    }

    /// The state that the image of `who` keeps, or `state` where it has none.
    pub(crate) fn state_of(&self, who: Who, state: State) -> State
        ensures { result ≡ state_from state (image_of (who_meant who) self.now) }
    {
        match first_meant(&self.held, Meant::One(who)) {
            Some(held) => self.pool.state(&held.image),
            None => state,
        }
    }

    /// Keeps an image of a state for `who`.
    pub(crate) fn keep(&mut self, who: Who, state: State)
        requires { length self.old < MOST_IMAGES }
        ensures { self.new ≡ self.old ++ record { who = who_meant who; state = state } ∷ [] }
    {
        let image = self.pool.take(state);
        self.held.push_reserved(Held { who, image });
    }

    /// Gives back the image at this place, and tells the state that it kept.
    fn take_out(&mut self, at: usize) -> State
        requires { at < length self.old }
        ensures images { self.new ≡ remove self.old at }
        ensures state { (d : Taken) → result ≡ (slice_index_or self.old at d).state }
    {
        let Held { who: _, image } = self.held.remove(at);
        self.pool.put_back(image)
    }

    /// Gives back all images that are meant, and tells the state that the first of them kept, or `state` where there is
    /// none.
    pub(crate) fn give_back(&mut self, meant: Meant, state: State) -> State
        ensures images { self.new ≡ filter (λ i. not (is_meant meant i.who)) self.old }
        ensures state { result ≡ state_from state (find (λ i. is_meant meant i.who) self.old) }
    {
        let mut first = None;
        // From the last to the first, so that the first one is told, and places ahead do not move.
        for at in (0..self.len()).rev() {
            if meant.includes(self.whose(at)) {
                let kept = self.take_out(at);
                first = Some(kept);
            }
        }
        first.unwrap_or(state)
    }
}

impl Drop for Images {
    fn drop(self) {
        let Images { mut held, mut pool } = self;
        // An image can't be let go: each is spent.
        while let Some(Held { who: _, image }) = held.pop() {
            pool.put_back(image);
        }
        held.destroy_empty();
    }
}
