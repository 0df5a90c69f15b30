//! The row by which an ACT gets its place in the serial order.
ghost use Rattle.std.specs.Prelude.{◌≡◌, ◌%◌, max, OnOk, OnErr, IfErr};
ghost use Rattle.protocol.specs.Effects.{added};
ghost use Rattle.protocol.specs.Events.{Decide};
ghost use Rattle.protocol.specs.Fixed.{base};
ghost use Rattle.protocol.specs.Parts.{Log};
ghost use Rattle.book_part.specs.Commits.{records_of};
ghost use Rattle.log_set.specs.Shown.{ShowsLog};
ghost use Rattle.core_rows.specs.Commits.{HasSpelling};
ghost use Rattle.core_rows.specs.Showing.{ShowsBook, ShowsDesk, ShowsLogAt};
ghost use Rattle.core_rows.specs.Taken.{IsOfRun, IsTaken, IsRefusal, IsNo};

use crate::StepNo;
use crate::asking::first_no;
use crate::laws::{books_go_on, rows_may};
use batch_table::Desk;
use book_part::{BookPart, Commit, conditions_are_met_in_halves};
use log_set::LogPart;
use snap_base::{Bid, Memory, Tid};
use std::alloc::Global;
use txn_records::Record;

/// Decide: which of its conditions is the first false one, or 0. `first` is the last batch of earlier runs.
pub fn decide_refusal<C>(book: &BookPart, desk: &Desk, first: Bid, t: Tid) -> u8
    ensures { IsRefusal {C = C} (Decide t.0) (λ w s. (base w.text ≡ first.0) × ShowsBook book.now s × ShowsDesk desk.now s) result }
{
    let to_decide = book.is_to_decide(t);
    let ready = book.is_ready(t);
    let settled = later(desk.settled(), first);
    let behind = book.is_behind(t, settled);
    first_no(&[to_decide, ready, behind])
}

/// The later one of two batches.
fn later(one: Bid, other: Bid) -> Bid
    ensures { result.0 ≡ max one.0 other.0 }
{
    if one.0 < other.0 { other } else { one }
}

/// Decide: the ACT gets its place. With a value its commit record is added to the log; one that failed by its own code is
/// sealed at once, and has no record. `first` is the last batch of earlier runs.
pub fn decide<C>(
    alloc: Global,
    book: &mut BookPart,
    desk: &Desk,
    log: &mut LogPart,
    first: Bid,
    t: Tid,
) -> Result<(), StepNo>
    requires { IsOfRun {C = C} (λ w s. (base w.text ≡ first.0) × ShowsBook book.old s × ShowsDesk desk.now s × ShowsLogAt (t.0 % w.text.logs) log.old s) }
    ensures ok { OnOk result (IsTaken {C = C} (Decide t.0) (λ w s. (base w.text ≡ first.0) × ShowsBook book.old s × ShowsDesk desk.now s × ShowsLogAt (t.0 % w.text.logs) log.old s) (λ w s. ShowsBook book.new s × ShowsDesk desk.now s × ShowsLogAt (t.0 % w.text.logs) log.new s)) }
    ensures room { book.new.most ≡ book.old.most }
    ensures no { IfErr result (IsNo {C = C} (Decide t.0) (λ w s. (base w.text ≡ first.0) × ShowsBook book.old s × ShowsDesk desk.now s × ShowsLogAt (t.0 % w.text.logs) log.old s)) }
    ensures book { OnErr result (book.new ≡ book.old) }
    ensures log { OnErr result (log.new.log ≡ log.old.log) }
{
    rows_may::<C>();
    books_go_on::<C>();
    conditions_are_met_in_halves();
    let rule = decide_refusal::<C>(book, desk, first, t);
    if rule != 0 {
        return Err(StepNo::NotNow { rule });
    }
    let commit = book.commit(alloc, t)?;
    add_commit(alloc, log, commit)?;
    let _number = book.decide(t);
    Ok(())
}

/// The commit record, where there is one, is added to the log. For want of memory it is not.
fn add_commit(alloc: Global, log: &mut LogPart, commit: Option<Commit>) -> Result<(), Memory>
    requires { HasSpelling commit }
    ensures err { OnErr result (log.new.log ≡ log.old.log) }
    ensures shows { OnOk result ((l : Log) → ShowsLog log.old.log l → ShowsLog log.new.log (added (records_of commit) l)) }
{
    match commit {
        Some(
            Commit {
                tid,
                before,
                number,
                value,
                actors,
            },
        ) => {
            let record = Record::ActDone {
                tid,
                m: before,
                c: number,
                value,
                actors,
            };
            log.add(alloc, &record)?;
            Ok(())
        }
        None => Ok(()),
    }
}
