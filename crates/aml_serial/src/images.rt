//! The states that a transaction came upon, which its failure puts back.

ghost use Rattle.std.specs.Prelude.{◌≡◌, ◌<◌, ◌==◌, length, slice_set, IfOk, OnErr};
ghost use Rattle.std.specs.List.{list_any};
ghost use Rattle.aml_serial.specs.declared.images.BeforeImage.{BeforeImage};
ghost use Rattle.snap_base.specs.declared.transactions.State.{State};
ghost use Rattle.aml_serial.specs.Images.{AreImagesWithin, put_back};

use snap_base::{Memory, State};

/// An actor's state from before the first slice of a transaction on it.
#[derive(Clone, Copy)]
pub(crate) struct BeforeImage {
    pub(crate) actor: u16,
    pub(crate) state: State,
}

/// Keeps the state of an actor, unless an earlier one is kept: from then on, whatever becomes of that
/// state, the images put the same world back. Without memory nothing is changed.
pub(crate) fn keep(images: &mut Vec<BeforeImage>, world: &[State], actor: u16) -> Result<(), Memory>
    requires actor { actor < length world.now }
    requires within { AreImagesWithin (length world.now) images.old.items }
    ensures kept { IfOk result (λ _. (t : State) → put_back images.new.items (slice_set world.now actor t) ≡ put_back images.old.items world.now) }
    ensures within { AreImagesWithin (length world.now) images.new.items }
    ensures memory { OnErr result (images.new.items ≡ images.old.items) }
{
    if is_kept(images, actor) {
        return Ok(());
    }
    images.push(BeforeImage {
        actor,
        state: world[actor as usize],
    })?;
    Ok(())
}

/// Whether a state of the actor is kept.
fn is_kept(images: &[BeforeImage], actor: u16) -> bool
    ensures { result ≡ list_any (λ (image : BeforeImage). image.actor == actor) images.now }
{
    images.iter().any(|image| image.actor == actor)
}

/// Puts the states back that were kept.
pub(crate) fn put_back(world: &mut Vec<State>, images: &[BeforeImage])
    requires { AreImagesWithin (length world.old.items) images.now }
    ensures { world.new.items ≡ put_back images.now world.old.items }
{
    for image in images {
        world[image.actor as usize] = image.state;
    }
}
