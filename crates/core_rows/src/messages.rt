//! The rows that take messages out of the post.
ghost use Rattle.std.specs.Prelude.{◌≡◌, OnOk, OnErr, IfErr};
ghost use Rattle.protocol.specs.Events.{DropSub, Take};
ghost use Rattle.protocol.specs.Words.{has_control_to};
ghost use Rattle.core_rows.specs.Showing.{ShowsBook, ShowsCell, ShowsPost};
ghost use Rattle.core_rows.specs.Taken.{IsOfRun, IsTaken, IsRefusal, IsNo, IsRule};

use crate::StepNo;
use crate::asking::first_no;
use book_part::BookPart;
use cell_part::{CellPart, what_is_found_has_its_number};
use post_box::Post;
use snap_base::{ActorId, Bid, Tid};
use std::alloc::Global;

/// DropSub: which of its conditions is the first false one, or 0.
pub fn drop_sub_refusal<C: Drop>(book: &BookPart, post: &Post<C>, k: Bid, a: ActorId) -> u8
    ensures { IsRefusal {C = C} (DropSub k.0 a.0) (λ w s. ShowsBook book.now s × ShowsPost post.now s) result }
{
    let under_way = post.has_sub(k, a);
    let aborted = book.is_aborted(k);
    first_no(&[under_way, aborted])
}

/// DropSub: the sub-batch of an aborted batch leaves the post.
pub fn drop_sub<C: Drop>(
    book: &BookPart,
    post: &mut Post<C>,
    k: Bid,
    a: ActorId,
) -> Result<(), StepNo>
    ensures ok { OnOk result (IsTaken {C = C} (DropSub k.0 a.0) (λ w s. ShowsBook book.now s × ShowsPost post.old s) (λ w s. ShowsBook book.now s × ShowsPost post.new s)) }
    ensures no { IfErr result (IsNo {C = C} (DropSub k.0 a.0) (λ w s. ShowsBook book.now s × ShowsPost post.old s)) }
    ensures rule { IfErr result IsRule }
    ensures unchanged { OnErr result (post.new ≡ post.old) }
{
    let rule = drop_sub_refusal(book, post, k, a);
    if rule != 0 {
        return Err(StepNo::NotNow { rule });
    }
    let _dropped = post.take_sub(k, a);
    Ok(())
}

/// Whether a control of the transaction is under way to the actor.
pub(crate) fn goes_to<C: Drop>(post: &Post<C>, t: Tid, a: ActorId) -> bool
    ensures { result ≡ has_control_to t.0 a.0 post.now.messages.controls }
{
    match post.control_to(t) {
        Some(to) => to == a,
        None => false,
    }
}

/// Take: which of its conditions is the first false one, or 0.
pub fn take_refusal<C: Drop>(post: &Post<C>, cell: &CellPart<C>, t: Tid, a: ActorId) -> u8
    ensures { IsRefusal {C = C} (Take t.0 a.0) (λ w s. ShowsPost post.now s × ShowsCell a.0 cell.now s) result }
{
    let under_way = goes_to(post, t, a);
    let has_entry = cell.has_entry(t);
    first_no(&[under_way, has_entry])
}

/// Take: the control of a transaction that has its entry comes to the actor.
pub fn take<C: Drop>(
    alloc: Global,
    post: &mut Post<C>,
    cell: &mut CellPart<C>,
    t: Tid,
    a: ActorId,
) -> Result<(), StepNo>
    requires { IsOfRun {C = C} (λ w s. ShowsPost post.old s × ShowsCell a.0 cell.old s) }
    ensures ok { OnOk result (IsTaken {C = C} (Take t.0 a.0) (λ w s. ShowsPost post.old s × ShowsCell a.0 cell.old s) (λ w s. ShowsPost post.new s × ShowsCell a.0 cell.new s)) }
    ensures no { IfErr result (IsNo {C = C} (Take t.0 a.0) (λ w s. ShowsPost post.old s × ShowsCell a.0 cell.old s)) }
    ensures post { OnErr result (post.new ≡ post.old) }
    ensures cell { OnErr result (cell.new.cell ≡ cell.old.cell) }
{
    what_is_found_has_its_number::<C>();
    let rule = take_refusal(post, cell, t, a);
    if rule != 0 {
        return Err(StepNo::NotNow { rule });
    }
    cell.room(alloc, 0)?;
    let control = post.take_control(t).unwrap();
    cell.take(t, control);
    Ok(())
}
