//! The row by which an ACT is placed on an actor.
ghost use Rattle.std.specs.Prelude.{◌≡◌, OnOk, OnErr, IfErr};
ghost use Rattle.protocol.specs.Events.{Ask};
ghost use Rattle.core_rows.specs.Showing.{ShowsBook, ShowsCell, ShowsPost};
ghost use Rattle.core_rows.specs.Taken.{IsOfRun, IsTaken, IsRefusal, IsNo};

use crate::StepNo;
use crate::asking::first_no;
use crate::laws::books_go_on;
use crate::messages::goes_to;
use book_part::{BookPart, conditions_are_met_in_halves};
use cell_part::{CellPart, what_is_found_has_its_number, who_gives_way_is_not_placed};
use post_box::Post;
use snap_base::{ActorId, Tid};
use std::alloc::Global;

/// Ask: which of its conditions is the first false one, or 0.
pub fn ask_refusal<C: Drop>(
    book: &BookPart,
    post: &Post<C>,
    cell: &CellPart<C>,
    t: Tid,
    a: ActorId,
) -> u8
    ensures { IsRefusal {C = C} (Ask t.0 a.0) (λ w s. ShowsBook book.now s × ShowsPost post.now s × ShowsCell a.0 cell.now s) result }
{
    let under_way = goes_to(post, t, a);
    let undoomed = book.is_undoomed(t);
    let placed = cell.has_act(t);
    let seen = cell.epoch();
    let epoch = book.epoch();
    first_no(&[under_way, undoomed, !placed, seen == epoch])
}

/// Ask: the ACT is placed on the actor with its control, or gives way to an older one there that it can't stand beside: two
/// that only read stand beside one another.
pub fn ask<C: Drop>(
    alloc: Global,
    book: &mut BookPart,
    post: &mut Post<C>,
    cell: &mut CellPart<C>,
    t: Tid,
    a: ActorId,
) -> Result<(), StepNo>
    requires { IsOfRun {C = C} (λ w s. ShowsBook book.old s × ShowsPost post.old s × ShowsCell a.0 cell.old s) }
    ensures ok { OnOk result (IsTaken {C = C} (Ask t.0 a.0) (λ w s. ShowsBook book.old s × ShowsPost post.old s × ShowsCell a.0 cell.old s) (λ w s. ShowsBook book.new s × ShowsPost post.new s × ShowsCell a.0 cell.new s)) }
    ensures room { book.new.most ≡ book.old.most }
    ensures no { IfErr result (IsNo {C = C} (Ask t.0 a.0) (λ w s. ShowsBook book.old s × ShowsPost post.old s × ShowsCell a.0 cell.old s)) }
    ensures book { OnErr result (book.new ≡ book.old) }
    ensures post { OnErr result (post.new ≡ post.old) }
    ensures cell { OnErr result (cell.new.cell ≡ cell.old.cell) }
{
    books_go_on::<C>();
    conditions_are_met_in_halves();
    what_is_found_has_its_number::<C>();
    who_gives_way_is_not_placed::<C>();
    let rule = ask_refusal(book, post, cell, t, a);
    if rule != 0 {
        return Err(StepNo::NotNow { rule });
    }
    let reader = book.is_reader(t);
    cell.room(alloc, 0)?;
    let last = cell.last();
    let floor = cell.floor(reader);
    let older = {
        let rivals = cell.rivals(alloc, reader)?;
        book.ask(alloc, t, &rivals, last, floor, a)?
    };
    let control = post.take_control(t).unwrap();
    if older.is_none() {
        cell.ask(alloc, t, reader, control);
    }
    Ok(())
}
