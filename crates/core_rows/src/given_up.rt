//! The row by which controls that nobody will take are dropped.
ghost use Rattle.std.specs.Prelude.{◌≡◌, OnOk, OnErr, IfErr};
ghost use Rattle.protocol.specs.Conditions.{is_given_up};
ghost use Rattle.protocol.specs.Events.{DropControl};
ghost use Rattle.protocol.specs.Parts.{Book};
ghost use Rattle.protocol.specs.Words.{control_of, holds};
ghost use Rattle.book_part.specs.Halves.{Shows};
ghost use Rattle.core_rows.specs.Showing.{ShowsBook, ShowsPost};
ghost use Rattle.core_rows.specs.Taken.{IsTaken, IsRefusal, IsNo, IsRule};

use crate::StepNo;
use crate::asking::first_no;
use book_part::BookPart;
use post_box::Post;
use snap_base::Tid;

/// DropControl: which of its conditions is the first false one, or 0.
pub fn drop_control_refusal<C: Drop>(book: &BookPart, post: &Post<C>, t: Tid) -> u8
    ensures { IsRefusal {C = C} (DropControl t.0) (λ w s. ShowsBook book.now s × ShowsPost post.now s) result }
{
    let under_way = post.control_to(t).is_some();
    let given_up = is_of_given_up(book, post, t);
    first_no(&[under_way, given_up])
}

/// Whether a control of the transaction is under way, of one that is given up.
fn is_of_given_up<C: Drop>(book: &BookPart, post: &Post<C>, t: Tid) -> bool
    ensures { (b : Book) → Shows book.now b → result ≡ holds (λ m. is_given_up m.who b) (control_of t.0 post.now.messages.controls) }
{
    match post.control_who(t) {
        Some(who) => book.is_given_up(who),
        None => false,
    }
}

/// DropControl: the control of a transaction that is given up leaves the post.
pub fn drop_control<C: Drop>(book: &BookPart, post: &mut Post<C>, t: Tid) -> Result<(), StepNo>
    ensures ok { OnOk result (IsTaken {C = C} (DropControl t.0) (λ w s. ShowsBook book.now s × ShowsPost post.old s) (λ w s. ShowsBook book.now s × ShowsPost post.new s)) }
    ensures no { IfErr result (IsNo {C = C} (DropControl t.0) (λ w s. ShowsBook book.now s × ShowsPost post.old s)) }
    ensures rule { IfErr result IsRule }
    ensures unchanged { OnErr result (post.new ≡ post.old) }
{
    let rule = drop_control_refusal(book, post, t);
    if rule != 0 {
        return Err(StepNo::NotNow { rule });
    }
    let _dropped = post.take_control(t);
    Ok(())
}
