//! The ACTs behind the last batch on an actor: which of them another one can't stand beside, and which of these are older.
ghost use Rattle.std.specs.Prelude.{◌≡◌, nat_lt, not, ◌&&◌, true, if◌then◌else◌, Some, [], ◌∷◌, ◌++◌, map, filter, IfOk, OnOk};
ghost use Rattle.std.specs.List.{AllByRecursion};
ghost use Rattle.std.specs.Option.{option_map};
ghost use Rattle.protocol.specs.Fixed.{Text};
ghost use Rattle.protocol.specs.History.{sets_of};
ghost use Rattle.protocol.specs.Meant.{tid_number, who_meant};
ghost use Rattle.protocol.specs.Parts.{OfAct};
ghost use Rattle.protocol.specs.Words as words;
ghost use Rattle.audit_words.specs.Seen as seen;
ghost use Rattle.audit_words.specs.Seen.{Seen, was_admitted, is_one_of_these, lock_in, tail_behind};
ghost use Rattle.audit_tale.specs.Knows.{Knows};
ghost use Rattle.audit_tale.specs.Risen.{tids};
ghost use Rattle.audit_tale.specs.Rivalry.{locks, tail_step};

use crate::rising::later;
use crate::tales::Tale;
use crate::telling::act_at;
use snap_base::{Bid, Memory, Tid, Who};
use std::alloc::Global;

/// Whether ACT t stands among these.
pub(crate) fn stands(entries: &[Who], t: Tid) -> bool
    ensures { result ≡ is_one_of_these (OfAct t.0) (map who_meant entries.now) }
{
    for who in entries {
        if is_of(*who, t) {
            return true;
        }
    }
    false
}

/// Whether this is ACT t.
fn is_of(who: Who, t: Tid) -> bool
    ensures { result ≡ words.is_who (OfAct t.0) (who_meant who) }
{
    match who {
        Who::Batch(_bid) => false,
        Who::Act(u) => t.0 == u.0,
    }
}

/// The tids of the ACTs behind the last batch, in order; all of them where no batch stands there. `Memory` where they find no
/// room.
pub(crate) fn tail_group(alloc: Global, entries: &[Who]) -> Result<Vec<Tid>, Memory>
    ensures { IfOk result (λ tail. tids tail.items ≡ tail_behind [] (map who_meant entries.now)) }
{
    let mut tail = Vec::new(alloc);
    for who in entries {
        stand_next(&mut tail, *who)?;
    }
    Ok(tail)
}

/// One more stands there: behind a batch nobody yet.
fn stand_next(tail: &mut Vec<Tid>, who: Who) -> Result<(), Memory>
    ensures { OnOk result (tids tail.new.items ≡ tail_step (tids tail.old.items) (who_meant who)) }
{
    match who {
        Who::Batch(_bid) => {
            tail.clear();
            Ok(())
        }
        Who::Act(t) => {
            tail.push(t)?;
            Ok(())
        }
    }
}

/// Those of these that an ACT can't stand beside: one that only reads can't stand beside those that don't, any other one beside
/// none. `Memory` where they find no room.
pub(crate) fn rivals_in(
    alloc: Global,
    tale: &Tale,
    tail: &[Tid],
    reader: bool,
) -> Result<Vec<Tid>, Memory>
    ensures { IfOk result (λ met. (w : Text) (s : Seen) → Knows w tale.now s → locks s met.items ≡ filter (λ x. not (reader && x.reader)) (locks s tail.now)) }
{
    let mut met = Vec::new(alloc);
    for t in tail {
        let beside = is_beside(tale, *t, reader);
        keep_unless(&mut met, *t, beside)?;
    }
    Ok(met)
}

/// One more, but where it is left out.
fn keep_unless(kept: &mut Vec<Tid>, t: Tid, out: bool) -> Result<(), Memory>
    ensures { OnOk result (kept.new.items ≡ (if out then kept.old.items else kept.old.items ++ t ∷ [])) }
{
    if out {
        return Ok(());
    }
    kept.push(t)?;
    Ok(())
}

/// Whether an ACT may stand beside ACT t: both only read.
fn is_beside(tale: &Tale, t: Tid, reader: bool) -> bool
    ensures { (w : Text) (s : Seen) → Knows w tale.now s → result ≡ (reader && (lock_in s.acts t.0).reader) }
{
    if !reader {
        return false;
    }
    let Some(at) = act_at(tale, t) else {
        return false;
    };
    tale.acts[at].reader
}

/// Those of these ACTs that are not given up. `Memory` where they find no room.
pub(crate) fn not_given_up(alloc: Global, tale: &Tale, met: &[Tid]) -> Result<Vec<Tid>, Memory>
    ensures { IfOk result (λ ahead. (w : Text) (s : Seen) → Knows w tale.now s → AllByRecursion (λ x. was_admitted x.tid s ≡ true) (locks s met.now) → locks s ahead.items ≡ filter (λ x. not (seen.was_given_up s.dooms x.tid)) (locks s met.now)) }
{
    let mut ahead = Vec::new(alloc);
    for t in met {
        let over = is_given_up(tale, *t);
        keep_unless(&mut ahead, *t, over)?;
    }
    Ok(ahead)
}

/// Whether ACT t is given up.
fn is_given_up(tale: &Tale, t: Tid) -> bool
    ensures { (w : Text) (s : Seen) → Knows w tale.now s → was_admitted t.0 s ≡ true → result ≡ seen.was_given_up s.dooms t.0 }
{
    let Some(at) = act_at(tale, t) else {
        return false;
    };
    tale.acts[at].given_up.is_some()
}

/// The least of these that is below t; `None` where none is.
pub(crate) fn least_older(t: Tid, met: &[Tid]) -> Option<Tid>
    ensures { (s : Seen) → option_map tid_number result ≡ words.least_older t.0 (locks s met.now) }
{
    let mut least = None;
    let mut left = met.len();
    while left > 0 {
        left -= 1;
        least = older_of(least, met[left], t);
    }
    least
}

/// The less of the least one so far and this one, if it is below `me`.
fn older_of(least: Option<Tid>, t: Tid, me: Tid) -> Option<Tid>
    ensures { option_map tid_number result ≡ (if nat_lt t.0 me.0 then Some (words.least_of t.0 (option_map tid_number least)) else option_map tid_number least) }
{
    if t.0 < me.0 {
        match least {
            Some(first) if first.0 <= t.0 => Some(first),
            _ => Some(t),
        }
    } else {
        least
    }
}

/// The greatest batch before any of these ACTs; 0 where there is none.
pub(crate) fn greatest_before(tale: &Tale, ts: &[Tid]) -> Bid
    ensures { (w : Text) (s : Seen) → Knows w tale.now s → AllByRecursion (λ x. was_admitted x.tid s ≡ true) (locks s ts.now) → result.0 ≡ words.greatest (sets_of s.before (locks s ts.now)) }
{
    let mut most = Bid(0);
    let mut left = ts.len();
    while left > 0 {
        left -= 1;
        most = later(before_of(tale, ts[left]), most);
    }
    most
}

/// The greatest batch before ACT t.
fn before_of(tale: &Tale, t: Tid) -> Bid
    ensures { (w : Text) (s : Seen) → Knows w tale.now s → was_admitted t.0 s ≡ true → result.0 ≡ words.greatest (s.before t.0) }
{
    let Some(at) = act_at(tale, t) else {
        return Bid(0);
    };
    tale.acts[at].before
}
