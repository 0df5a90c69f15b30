//! Events at an actor that does not exist: which of their conditions is the first false one.
ghost use Rattle.std.specs.Prelude.{◌≡◌, ℕ, None, slice_get};
ghost use Rattle.protocol.specs.Events.{Arrive, Ask, Take, Run, Send, End, Close, Complete, Rollback};
ghost use Rattle.protocol.specs.Fixed.{Fixed};
ghost use Rattle.protocol.specs.Parts.{Machine};
ghost use Rattle.protocol.specs.Conditions.{refusal};
ghost use Rattle.core_rows.specs.Showing.{ShowsBook, ShowsDesk, ShowsPost};
ghost use Rattle.core_rows.specs.Taken.{IsRefusal};

use crate::asking::first_no;
use crate::messages::goes_to;
use batch_table::Desk;
use book_part::BookPart;
use post_box::Post;
use snap_base::{ActorId, Bid, Tid};

/// Arrive, at an actor that does not exist.
pub fn arrive_nowhere<C: Drop>(book: &BookPart, post: &Post<C>, k: Bid, a: ActorId) -> u8
    ensures { IsRefusal {C = C} (Arrive k.0 a.0) (λ w s. (slice_get s.cells a.0 ≡ None) × ShowsBook book.now s × ShowsPost post.now s) result }
{
    let under_way = post.has_sub(k, a);
    let aborted = book.is_aborted(k);
    first_no(&[under_way, !aborted, false, false])
}

/// Ask, at an actor that does not exist.
pub fn ask_nowhere<C: Drop>(book: &BookPart, post: &Post<C>, t: Tid, a: ActorId) -> u8
    ensures { IsRefusal {C = C} (Ask t.0 a.0) (λ w s. (slice_get s.cells a.0 ≡ None) × ShowsBook book.now s × ShowsPost post.now s) result }
{
    let under_way = goes_to(post, t, a);
    let undoomed = book.is_undoomed(t);
    first_no(&[under_way, undoomed, false, false])
}

/// Take, at an actor that does not exist.
pub fn take_nowhere<C: Drop>(post: &Post<C>, t: Tid, a: ActorId) -> u8
    ensures { IsRefusal {C = C} (Take t.0 a.0) (λ w s. (slice_get s.cells a.0 ≡ None) × ShowsPost post.now s) result }
{
    let under_way = goes_to(post, t, a);
    first_no(&[under_way, false])
}

/// Close, at an actor that does not exist.
pub fn close_nowhere<C>(desk: &Desk, t: Tid, a: ActorId) -> u8
    ensures { IsRefusal {C = C} (Close t.0 a.0) (λ w s. (slice_get s.cells a.0 ≡ None) × ShowsDesk desk.now s) result }
{
    let ended = desk.result(t).is_some();
    first_no(&[ended, false])
}

/// The events whose first condition is of the actor itself: it is false where the actor does not exist.
pub fn nothing_happens_nowhere<C>()
    ensures run { (w : Fixed C) (s : Machine C) (t a : ℕ) → slice_get s.cells a ≡ None → refusal w (Run t a) s ≡ 1 }
    ensures send { (w : Fixed C) (s : Machine C) (t a : ℕ) → slice_get s.cells a ≡ None → refusal w (Send t a) s ≡ 1 }
    ensures end { (w : Fixed C) (s : Machine C) (t a : ℕ) → slice_get s.cells a ≡ None → refusal w (End t a) s ≡ 1 }
    ensures complete { (w : Fixed C) (s : Machine C) (k a : ℕ) → slice_get s.cells a ≡ None → refusal w (Complete k a) s ≡ 1 }
    ensures rollback { (w : Fixed C) (s : Machine C) (a : ℕ) → slice_get s.cells a ≡ None → refusal w (Rollback a) s ≡ 1 }
{}
