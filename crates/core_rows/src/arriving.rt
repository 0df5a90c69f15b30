//! The row by which a batch is placed on an actor.
ghost use Rattle.std.specs.Prelude.{◌≡◌, ◌==◌, ◌&&◌, OnOk, OnErr, IfErr};
ghost use Rattle.protocol.specs.Events.{Arrive};
ghost use Rattle.protocol.specs.Words.{holds, sub_of};
ghost use Rattle.core_rows.specs.Showing.{ShowsBook, ShowsCell, ShowsPost};
ghost use Rattle.core_rows.specs.Taken.{IsOfRun, IsTaken, IsRefusal, IsNo};

use crate::StepNo;
use crate::asking::first_no;
use crate::laws::books_go_on;
use book_part::BookPart;
use cell_part::{CellPart, what_is_found_has_its_number};
use post_box::Post;
use snap_base::{ActorId, Bid};
use std::alloc::Global;

/// Whether the sub-batch is under way, and it and the actor, which has seen so many cascades, are of this epoch.
fn is_of_epoch<C: Drop>(post: &Post<C>, k: Bid, a: ActorId, seen: u64, epoch: u64) -> bool
    ensures { result ≡ holds (λ m. (m.epoch == epoch) && (seen == epoch)) (sub_of k.0 a.0 post.now.messages.subs) }
{
    match post.sub_head(k, a) {
        Some(head) => head.epoch == epoch && seen == epoch,
        None => false,
    }
}

/// Whether the sub-batch is under way, and its batch comes next behind this one on the actor.
fn is_next_behind<C: Drop>(post: &Post<C>, k: Bid, a: ActorId, tail: Bid) -> bool
    ensures { result ≡ holds (λ m. m.prev == tail.0) (sub_of k.0 a.0 post.now.messages.subs) }
{
    match post.sub_head(k, a) {
        Some(head) => head.prev.0 == tail.0,
        None => false,
    }
}

/// Arrive: which of its conditions is the first false one, or 0.
pub fn arrive_refusal<C: Drop>(
    book: &BookPart,
    post: &Post<C>,
    cell: &CellPart<C>,
    k: Bid,
    a: ActorId,
) -> u8
    ensures { IsRefusal {C = C} (Arrive k.0 a.0) (λ w s. ShowsBook book.now s × ShowsPost post.now s × ShowsCell a.0 cell.now s) result }
{
    let under_way = post.has_sub(k, a);
    let aborted = book.is_aborted(k);
    let seen = cell.epoch();
    let epoch = book.epoch();
    let of_epoch = is_of_epoch(post, k, a, seen, epoch);
    let tail = cell.last_in_epoch();
    let next = is_next_behind(post, k, a, tail);
    first_no(&[under_way, !aborted, of_epoch, next])
}

/// Arrive: the sub-batch is placed on the actor, behind all that stands there. The ACTs that stand there have the batch behind
/// them, and an ACT whose numbers cross is given up.
pub fn arrive<C: Drop>(
    alloc: Global,
    book: &mut BookPart,
    post: &mut Post<C>,
    cell: &mut CellPart<C>,
    k: Bid,
    a: ActorId,
) -> Result<(), StepNo>
    requires { IsOfRun {C = C} (λ w s. ShowsBook book.old s × ShowsPost post.old s × ShowsCell a.0 cell.old s) }
    ensures ok { OnOk result (IsTaken {C = C} (Arrive k.0 a.0) (λ w s. ShowsBook book.old s × ShowsPost post.old s × ShowsCell a.0 cell.old s) (λ w s. ShowsBook book.new s × ShowsPost post.new s × ShowsCell a.0 cell.new s)) }
    ensures room { book.new.most ≡ book.old.most }
    ensures no { IfErr result (IsNo {C = C} (Arrive k.0 a.0) (λ w s. ShowsBook book.old s × ShowsPost post.old s × ShowsCell a.0 cell.old s)) }
    ensures book { OnErr result (book.new ≡ book.old) }
    ensures post { OnErr result (post.new ≡ post.old) }
    ensures cell { OnErr result (cell.new.cell ≡ cell.old.cell) }
{
    books_go_on::<C>();
    what_is_found_has_its_number::<C>();
    let rule = arrive_refusal(book, post, cell, k, a);
    if rule != 0 {
        return Err(StepNo::NotNow { rule });
    }
    let head = post.sub_head(k, a).unwrap();
    cell.room(alloc, head.tids)?;
    let acts = cell.acts(alloc)?;
    let sub = post.take_sub(k, a).unwrap();
    book.arrive(&acts, k, a);
    cell.arrive(alloc, sub);
    Ok(())
}
