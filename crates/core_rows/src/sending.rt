//! The row by which a control goes on to another actor.
ghost use Rattle.std.specs.Prelude.{◌≡◌, ◌≤◌, None, Some, OnOk, OnErr, IfErr};
ghost use Rattle.protocol.specs.Events.{Send};
ghost use Rattle.protocol.specs.Parts.{Outcome};
ghost use Rattle.protocol.specs.OnPost.{sent};
ghost use Rattle.protocol.specs.Words.{control_of};
ghost use Rattle.protocol.specs.Meant.{who_meant, next_meant};
ghost use Rattle.core_rows.specs.Showing.{ShowsCell, ShowsPost};
ghost use Rattle.core_rows.specs.Taken.{IsOfRun, IsTaken, IsRefusal, IsNo};

use crate::StepNo;
use crate::asking::first_no;
use crate::laws::rows_may;
use cell_part::{CellPart, what_is_found_has_its_number};
use post_box::Post;
use snap_base::{ActorId, Next, Tid, Who};
use std::alloc::Global;

/// Send: 1 where its condition is false, or 0.
pub fn send_refusal<C: Drop>(cell: &CellPart<C>, t: Tid, a: ActorId) -> u8
    ensures { IsRefusal {C = C} (Send t.0 a.0) (λ w s. ShowsCell a.0 cell.now s) result }
{
    let going = cell.has_going(t);
    first_no(&[going])
}

/// Send: the control goes to another actor.
pub fn send<C: Drop>(
    alloc: Global,
    post: &mut Post<C>,
    cell: &mut CellPart<C>,
    t: Tid,
    a: ActorId,
) -> Result<(), StepNo>
    requires { IsOfRun {C = C} (λ w s. ShowsPost post.old s × ShowsCell a.0 cell.old s) }
    ensures ok { OnOk result (IsTaken {C = C} (Send t.0 a.0) (λ w s. ShowsPost post.old s × ShowsCell a.0 cell.old s) (λ w s. ShowsPost post.new s × ShowsCell a.0 cell.new s)) }
    ensures no { IfErr result (IsNo {C = C} (Send t.0 a.0) (λ w s. ShowsPost post.old s × ShowsCell a.0 cell.old s)) }
    ensures post { OnErr result (post.new.messages ≡ post.old.messages) }
    ensures cell { OnErr result (cell.new ≡ cell.old) }
{
    rows_may::<C>();
    what_is_found_has_its_number::<C>();
    let rule = send_refusal(cell, t, a);
    if rule != 0 {
        return Err(StepNo::NotNow { rule });
    }
    post.room(alloc, 0, 1)?;
    let who = cell.who_on(t);
    let next = cell.take_outcome(t).unwrap();
    put_next(alloc, post, t, who, next);
    Ok(())
}

/// A control that goes on is posted, for which there is room; where its transaction has ended, none is.
fn put_next<C: Drop>(alloc: Global, post: &mut Post<C>, t: Tid, who: Who, next: Next<C>)
    requires room { 1 ≤ post.old.spare_controls }
    requires fresh { control_of t.0 post.old.messages.controls ≡ None }
    ensures { (x : Outcome C) → x.tid ≡ t.0 → next_meant next ≡ x.next → post.new.messages ≡ sent (who_meant who) (Some x) post.old.messages }
{
    if let Next::Go(to, control) = next {
        // There is room for it.
        let _posted = post.put_control(alloc, t, who, to, control);
    }
}
