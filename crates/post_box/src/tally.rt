//! How many of the sub-batches under way go to each actor.
ghost use Rattle.std.specs.Prelude.{◌≡◌, [], ◌∷◌, ◌++◌, List, IfOk, IsTrue};
ghost use Rattle.post_box.specs.Tally.{IsLeftOf, IsTally, count_to};

use crate::kept::SubRest;
use crate::keys::SubKey;
use snap_base::{ActorId, Memory};
use std::alloc::Global;

/// For so many actors, from 0 on, sub-batches are counted.
const COUNTED: usize = 256;

/// Of each actor that is counted, no sub-batch.
pub(crate) fn no_counts(alloc: Global) -> Result<Vec<u64>, Memory>
    ensures { IfOk result (λ counts. IsTally counts.items []) }
{
    let counts = vec![in alloc; 0; COUNTED]?;
    Ok(counts)
}

/// One more goes to the actor.
pub(crate) fn count_in(counts: &mut Vec<u64>, a: ActorId)
    ensures { (es : List (SubKey × SubRest)) → (e : SubKey × SubRest) → e.0.actor ≡ a → IsTally counts.old.items es → IsTally counts.new.items (es ++ e ∷ []) }
{
    let at = a.0 as usize;
    if at < counts.len() {
        if counts[at] < u64::MAX {
            counts[at] += 1;
        } else {
            // A count that can grow no more ends the counting: once in 2^64 sub-batches.
            counts.clear();
        }
    }
}

/// One that went to the actor is gone.
pub(crate) fn count_out(counts: &mut Vec<u64>, a: ActorId)
    ensures { (es : List (SubKey × SubRest)) → (left : List (SubKey × SubRest)) → IsLeftOf a.0 es left → IsTally counts.old.items es → IsTally counts.new.items left }
{
    let at = a.0 as usize;
    if at < counts.len() {
        counts[at] = counts[at].saturating_sub(1);
    }
}

/// Whether it is known that none goes to the actor.
pub(crate) fn has_none(counts: &[u64], a: ActorId) -> bool
    ensures { IsTrue result → (es : List (SubKey × SubRest)) → IsTally counts.now es → count_to a.0 es ≡ 0 }
{
    let at = a.0 as usize;
    at < counts.len() && counts[at] == 0
}
