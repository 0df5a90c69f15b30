//! The row by which an ACT begins.
ghost use Rattle.std.specs.Prelude.{◌≡◌, ◌<◌, ℕ, length, OnOk, OnErr, IfErr};
ghost use Rattle.protocol.specs.Conditions.{IsAllowed};
ghost use Rattle.protocol.specs.Events.{Admit};
ghost use Rattle.protocol.specs.Fixed.{Fixed, base};
ghost use Rattle.protocol.specs.OnPost.{next_act};
ghost use Rattle.protocol.specs.Parts.{Machine};
ghost use Rattle.core_rows.specs.OnRuns.{HasRun};
ghost use Rattle.core_rows.specs.Showing.{ShowsBook, ShowsPost, ShowsRing, ShowsTxs};
ghost use Rattle.core_rows.specs.Starts.{MayStart, Starts, TellsReader};
ghost use Rattle.core_rows.specs.Taken.{IsOfRun, IsTaken, IsRefusal, IsNo};

use crate::StepNo;
use crate::asking::first_no;
use crate::laws::{books_go_on, rows_may};
use crate::starts::{first_control, post_first};
use book_part::BookPart;
use post_box::Post;
use protocol_laws::transactions_are_in_one_place;
use protocol_theorems::sizes_hold;
use snap_base::{Bid, Memory, Tid, Tx, Who};
use std::alloc::Global;
use token_ring::Ring;

/// Admit: which of its conditions is the first false one, or 0. So many ACTs may be live at one time.
pub fn admit_refusal<C>(ring: &Ring, book: &BookPart, acts: u32, t: Tid) -> u8
    ensures { IsRefusal {C = C} (Admit t.0) (λ w s. (w.text.acts ≡ acts) × ShowsRing ring.now s × ShowsBook book.now s) result }
{
    let next = ring.next_tid();
    let waits = ring.has_act();
    let live = book.live();
    let most = acts as usize;
    first_no(&[t.0 == next.0, waits, live < most])
}

/// The ACT that is admitted next is a transaction of the text.
fn next_act_is_of_the_text<C>()
    ensures { (w : Fixed C) (s : Machine C) (t : ℕ) → HasRun w s → IsAllowed w (Admit t) s → next_act s.ring < length w.text.txs }
{
    sizes_hold::<C>();
    transactions_are_in_one_place::<C>();
}

/// Admit: the ACT that waits first at the holder begins as ACT `t`, behind batch `first`, the last one of earlier runs. The
/// book has it, and its first control, as `start` gives it, is posted. So many ACTs may be live at one time. `reader` tells
/// whether the ACT only reads, and where none waits it may be either.
pub fn admit<C: Drop, F: Fn(Tid, &Tx) -> Result<C, Memory>>(
    alloc: Global,
    txs: &[Tx],
    start: &F,
    ring: &mut Ring,
    book: &mut BookPart,
    post: &mut Post<C>,
    acts: u32,
    first: Bid,
    t: Tid,
    reader: bool,
) -> Result<(), StepNo>
    requires may { MayStart (F.pre start.now) txs.now }
    requires run { IsOfRun {C = C} (λ w s. ShowsTxs txs.now w × Starts (F.post start.now) w × (w.text.acts ≡ acts) × (base w.text ≡ first.0) × ShowsRing ring.old s × ShowsBook book.old s × ShowsPost post.old s) }
    ensures ok { OnOk result (IsTaken {C = C} (Admit t.0) (λ w s. ShowsTxs txs.now w × Starts (F.post start.entry.now) w × TellsReader reader ring.old w × (w.text.acts ≡ acts) × (base w.text ≡ first.0) × ShowsRing ring.old s × ShowsBook book.old s × ShowsPost post.old s) (λ w s. ShowsRing ring.new s × ShowsBook book.new s × ShowsPost post.new s)) }
    ensures room { book.new.most ≡ book.old.most }
    ensures no { IfErr result (IsNo {C = C} (Admit t.0) (λ w s. ShowsTxs txs.now w × Starts (F.post start.entry.now) w × (w.text.acts ≡ acts) × (base w.text ≡ first.0) × ShowsRing ring.old s × ShowsBook book.old s × ShowsPost post.old s)) }
    ensures ring { OnErr result (ring.new ≡ ring.old) }
    ensures book { OnErr result (book.new ≡ book.old) }
    ensures post { OnErr result (post.new.messages ≡ post.old.messages) }
{
    rows_may::<C>();
    books_go_on::<C>();
    next_act_is_of_the_text::<C>();
    let rule = admit_refusal::<C>(ring, book, acts, t);
    if rule != 0 {
        return Err(StepNo::NotNow { rule });
    }
    let (tid, n) = ring.next_act().unwrap();
    let control = first_control(start, txs, tid, n)?;
    post.room(alloc, 0, 1)?;
    book.admit(alloc, tid, n, reader, first)?;
    let _admitted = ring.admit();
    post_first(alloc, post, Who::Act(tid), control);
    Ok(())
}
