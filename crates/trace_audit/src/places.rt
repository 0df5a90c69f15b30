//! The third clause: who is told a place has it, and no smaller batch committed after its own.
ghost use Rattle.std.specs.Prelude.{◌≡◌, ℕ, ◌==◌, ◌&&◌, ◌||◌, [], List, map, IfOk, OnOk, MatchOption};
ghost use Rattle.snap_base.specs.declared.verdicts.Place as place;
ghost use Rattle.audit_words.specs.Audited.{EachLine, IsFirstOff};
ghost use Rattle.audit_words.specs.Clauses.{TellsPlace};
ghost use Rattle.audit_words.specs.Seen.{Seen};
ghost use Rattle.audit_tale.specs.Knows.{member_of};
ghost use Rattle.audit_tale.specs.declared.tales.MemberTale as tale;
ghost use Rattle.audit_papers.specs.ReportLines.{line_of, lines_of};
ghost use Rattle.trace_audit.specs.Grouped.{group_at};
ghost use Rattle.trace_audit.specs.Placed.{ArePlaced, is_least, is_place, is_placed, lesser, line_placed, stands_at, verdict_placed};

use crate::groups::put;
use audit_papers::ReportLine;
use audit_tale::MemberTale;
use snap_base::{Bid, Memory, Place, TxNo, Verdict, Who};
use std::alloc::Global;

/// Whether they are one place.
fn is_place(a: Place, b: Place) -> bool
    ensures { result ≡ is_place a b }
{
    a.batch.0 == b.batch.0 && a.side == b.side && a.order == b.order
}

/// Whether this is an ACT, or a batch that is not above the least one.
fn is_least(who: Who, least: Option<Bid>) -> bool
    ensures { result ≡ is_least who least }
{
    match who {
        Who::Batch(k) => match least {
            Some(j) => k.0 <= j.0,
            None => true,
        },
        Who::Act(_tid) => true,
    }
}

/// The least batch, with this one.
fn lesser(least: Option<Bid>, who: Who) -> Option<Bid>
    ensures { result ≡ lesser least who }
{
    match who {
        Who::Act(_tid) => least,
        Who::Batch(k) => match least {
            None => Some(k),
            Some(j) => { if k.0 < j.0 { Some(k) } else { Some(j) } },
        },
    }
}

/// Puts a member into the group of its transaction, unless it is of a batch above the least one. After `Memory` nothing is said
/// of the groups.
fn keep(
    alloc: Global,
    groups: &mut Vec<Vec<MemberTale>>,
    member: &MemberTale,
    least: Option<Bid>,
) -> Result<(), Memory>
    ensures { OnOk result ((n : ℕ) (p : place.Place) → stands_at p (group_at groups.new.items n) ≡ (stands_at p (group_at groups.old.items n) || (is_least member.now.who least && ((n == member.now.tx.0) && is_place member.now.place p)))) }
{
    if !is_least(member.who, least) {
        return Ok(());
    }
    put(alloc, groups, member.tx.0 as usize, member)
}

/// By transaction the members behind which no smaller batch than their own committed. `Memory` where they cannot be allocated.
fn placed(alloc: Global, members: &[MemberTale]) -> Result<Vec<Vec<MemberTale>>, Memory>
    ensures { IfOk result (λ groups. ArePlaced members.now groups.items) }
{
    let mut groups = Vec::new(alloc);
    let mut least = None;
    let mut left = members.len();
    while left > 0 {
        left -= 1;
        keep(alloc, &mut groups, &members[left], least)?;
        least = lesser(least, members[left].who);
    }
    Ok(groups)
}

/// Whether one of the members has this place.
fn stands_at(group: &[MemberTale], place: Place) -> bool
    ensures { result ≡ stands_at place group.now }
{
    for member in group {
        if is_place(member.place, place) {
            return true;
        }
    }
    false
}

/// Whether the transaction has this place, and no smaller batch behind its own.
fn is_placed(groups: &Vec<Vec<MemberTale>>, tx: TxNo, place: Place) -> bool
    ensures { (ms : List tale.MemberTale) → ArePlaced ms groups.now.items → result ≡ is_placed tx.0 place ms }
{
    let n = tx.0 as usize;
    if n >= groups.len() {
        return false;
    }
    stands_at(&groups[n], place)
}

/// Whether the verdict of a transaction tells its place, where it tells one.
fn verdict_placed(groups: &Vec<Vec<MemberTale>>, tx: TxNo, verdict: &Verdict) -> bool
    ensures { (ms : List tale.MemberTale) → ArePlaced ms groups.now.items → result ≡ verdict_placed ms tx.0 verdict.now }
{
    match *verdict {
        Verdict::Committed { place, .. } => is_placed(groups, tx, place),
        Verdict::Code { place, .. } => place.side == 1 && is_placed(groups, tx, place),
        _ => true,
    }
}

/// Whether a line tells the place of its transaction, where it tells one.
fn line_placed(groups: &Vec<Vec<MemberTale>>, line: &ReportLine) -> bool
    ensures { (ms : List tale.MemberTale) → ArePlaced ms groups.now.items → result ≡ line_placed ms (line_of line.now) }
{
    match line {
        ReportLine::Reply { tx, verdict } => verdict_placed(groups, *tx, verdict),
        _ => true,
    }
}

/// The number, from 1 on, of the first line that tells a place which its transaction has not, by these members, or behind
/// which a smaller batch than its own committed. `None` exactly where there is none. `Memory` where the members cannot be
/// grouped by transaction. Linear in the members and the lines.
pub fn first_off_place(
    alloc: Global,
    members: &[MemberTale],
    lines: &[ReportLine],
) -> Result<Option<u64>, Memory>
    ensures { IfOk result (λ at. (s : Seen) → map member_of members.now ≡ s.members → MatchOption at (EachLine (TellsPlace s) [] (lines_of lines.now)) (λ i. IsFirstOff (TellsPlace s) (lines_of lines.now) i)) }
{
    let groups = placed(alloc, members)?;
    for (at, line) in lines.iter().enumerate() {
        if !line_placed(&groups, line) {
            return Ok(Some(at as u64 + 1));
        }
    }
    Ok(None)
}
