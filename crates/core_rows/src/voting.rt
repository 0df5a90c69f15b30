//! The rows by which the book learns that what an ACT wrote down is durable.
ghost use Rattle.std.specs.Prelude.{◌≡◌, ◌%◌, OnOk, OnErr, IfErr};
ghost use Rattle.protocol.specs.Events.{Seal, Vouch};
ghost use Rattle.core_rows.specs.Showing.{ShowsBook, ShowsLogAt};
ghost use Rattle.core_rows.specs.Taken.{IsTaken, IsRefusal, IsNo, IsRule};

use crate::StepNo;
use crate::asking::first_no;
use crate::laws::books_go_on;
use book_part::BookPart;
use log_set::LogPart;
use snap_base::{ActorId, Tid};

/// Vouch: which of its conditions is the first false one, or 0.
pub fn vouch_refusal<C>(book: &BookPart, log: &LogPart, t: Tid, a: ActorId) -> u8
    ensures { IsRefusal {C = C} (Vouch t.0 a.0) (λ w s. ShowsBook book.now s × ShowsLogAt (a.0 % w.text.logs) log.now s) result }
{
    let to_vouch = book.is_to_vouch(t, a);
    let durable = log.has_prepare(t, a);
    first_no(&[to_vouch, durable])
}

/// Vouch: the state that the ACT left on the actor is durable.
pub fn vouch<C>(book: &mut BookPart, log: &LogPart, t: Tid, a: ActorId) -> Result<(), StepNo>
    ensures ok { OnOk result (IsTaken {C = C} (Vouch t.0 a.0) (λ w s. ShowsBook book.old s × ShowsLogAt (a.0 % w.text.logs) log.now s) (λ w s. ShowsBook book.new s × ShowsLogAt (a.0 % w.text.logs) log.now s)) }
    ensures room { book.new.most ≡ book.old.most }
    ensures no { IfErr result (IsNo {C = C} (Vouch t.0 a.0) (λ w s. ShowsBook book.old s × ShowsLogAt (a.0 % w.text.logs) log.now s)) }
    ensures rule { IfErr result IsRule }
    ensures unchanged { OnErr result (book.new ≡ book.old) }
{
    books_go_on::<C>();
    let rule = vouch_refusal::<C>(book, log, t, a);
    if rule != 0 {
        return Err(StepNo::NotNow { rule });
    }
    book.vouch(t, a);
    Ok(())
}

/// Seal: which of its conditions is the first false one, or 0.
pub fn seal_refusal<C>(book: &BookPart, log: &LogPart, t: Tid) -> u8
    ensures { IsRefusal {C = C} (Seal t.0) (λ w s. ShowsBook book.now s × ShowsLogAt (t.0 % w.text.logs) log.now s) result }
{
    let decided = book.is_decided(t);
    let durable = log.has_act_commit(t);
    first_no(&[decided, durable])
}

/// Seal: the commit of the ACT is durable.
pub fn seal<C>(book: &mut BookPart, log: &LogPart, t: Tid) -> Result<(), StepNo>
    ensures ok { OnOk result (IsTaken {C = C} (Seal t.0) (λ w s. ShowsBook book.old s × ShowsLogAt (t.0 % w.text.logs) log.now s) (λ w s. ShowsBook book.new s × ShowsLogAt (t.0 % w.text.logs) log.now s)) }
    ensures room { book.new.most ≡ book.old.most }
    ensures no { IfErr result (IsNo {C = C} (Seal t.0) (λ w s. ShowsBook book.old s × ShowsLogAt (t.0 % w.text.logs) log.now s)) }
    ensures rule { IfErr result IsRule }
    ensures unchanged { OnErr result (book.new ≡ book.old) }
{
    books_go_on::<C>();
    let rule = seal_refusal::<C>(book, log, t);
    if rule != 0 {
        return Err(StepNo::NotNow { rule });
    }
    book.seal(t);
    Ok(())
}
