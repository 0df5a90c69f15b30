//! The fifth clause: whoever was placed on an actor before another one has its place below the other's, but for two readers.
ghost use Rattle.std.specs.Prelude.{◌≡◌, ℕ, ◌+◌, ◌==◌, ◌<◌, ◌≤◌, ◌&&◌, ◌||◌, not, true, None, [], ◌∷◌, ◌++◌, List, filter, map, length, IfOk, OnOk, MatchOption};
ghost use Rattle.std.specs.List.{AllByRecursion, flat_map};
ghost use Rattle.protocol.specs.Chains.{is_place_below};
ghost use Rattle.protocol.specs.Meant.{tid_number};
ghost use Rattle.protocol.specs.Words.{is_among};
ghost use Rattle.audit_words.specs.Audited.{EachLine, IsFirstOff};
ghost use Rattle.audit_words.specs.Clauses.{TellsOrder};
ghost use Rattle.audit_words.specs.Seen.{Seen};
ghost use Rattle.audit_tale.specs.declared.tales.MemberTale as tale;
ghost use Rattle.audit_papers.specs.ReportLines.{line_of, lines_of};
ghost use Rattle.trace_audit.specs.Risen.{AreGrouped, TellsChains, above_top, all_rise, chain_of, has_stamp, is_above, line_rises, mark_of, readers_top, rises_to, stamped, still_rises, topped, writers_top};

use crate::groups::put;
use audit_papers::ReportLine;
use audit_tale::{ActorTale, MemberTale};
use snap_base::{Memory, Place, Tid, TxNo, Who};
use std::alloc::Global;

/// Whether the first place is below the second one: by batch, then side, then order.
fn is_place_below(p: Place, q: Place) -> bool
    ensures { result ≡ is_place_below p q }
{
    p.batch.0 < q.batch.0
        || p.batch.0 == q.batch.0 && (p.side < q.side || p.side == q.side && p.order < q.order)
}

/// Whether the place is above the greatest one, if there is one.
fn above_top(top: Option<Place>, place: Place) -> bool
    ensures { result ≡ above_top top place }
{
    match top {
        None => true,
        Some(greatest) => is_place_below(greatest, place),
    }
}

/// The greatest place, with this one.
fn topped(top: Option<Place>, place: Place) -> Option<Place>
    ensures { result ≡ topped top place }
{
    match top {
        None => Some(place),
        Some(greatest) => {
            if is_place_below(greatest, place) {
                Some(place)
            } else {
                Some(greatest)
            }
        },
    }
}

/// The greatest place of those that don't only read, with this member.
fn writers_top(top: Option<Place>, member: &MemberTale) -> Option<Place>
    ensures { result ≡ writers_top top member.now }
{
    if member.reader {
        return top;
    }
    topped(top, member.place)
}

/// The greatest place of those that only read, with this member.
fn readers_top(top: Option<Place>, member: &MemberTale) -> Option<Place>
    ensures { result ≡ readers_top top member.now }
{
    if !member.reader {
        return top;
    }
    topped(top, member.place)
}

/// Whether a member's place is above those of all that it can't pass.
fn is_above(writers: Option<Place>, readers: Option<Place>, member: &MemberTale) -> bool
    ensures { result ≡ is_above writers readers member.now }
{
    if !above_top(writers, member.place) {
        return false;
    }
    member.reader || above_top(readers, member.place)
}

/// What the chains walked so far tell: for each transaction whether places rise to it, and on the last one the greatest place of
/// those that don't only read, and of those that do.
#[derive(Drop)]
struct Walk {
    rises: Vec<bool>,
    writers: Option<Place>,
    readers: Option<Place>,
}

/// Clears the mark of a transaction, unless its member is above. A transaction without a mark is left out.
fn mark(rises: &mut Vec<bool>, tx: TxNo, above: bool)
    ensures many { length rises.new.items ≡ length rises.old.items }
    ensures marks { (n : ℕ) → n < length rises.old.items → mark_of rises.new.items n ≡ (mark_of rises.old.items n && (not (tx.0 == n) || above)) }
{
    let n = tx.0 as usize;
    if above || n >= rises.len() {
        return;
    }
    rises[n] = false;
}

/// One step along a chain.
fn step(walk: &mut Walk, member: &MemberTale)
    ensures many { length walk.new.rises.items ≡ length walk.old.rises.items }
    ensures still_rises { (n : ℕ) (rest : List tale.MemberTale) → n < length walk.old.rises.items
        → still_rises n walk.new.rises.items walk.new.writers walk.new.readers rest ≡ still_rises n walk.old.rises.items walk.old.writers walk.old.readers (member.now ∷ rest) }
{
    let above = is_above(walk.writers, walk.readers, member);
    mark(&mut walk.rises, member.tx, above);
    walk.writers = writers_top(walk.writers, member);
    walk.readers = readers_top(walk.readers, member);
}

/// Whether the actor with this stamp was the last on which the transaction ran.
fn has_stamp(stamps: &[u64], stamp: u64, tid: Tid) -> bool
    requires { 1 ≤ stamp }
    ensures { result ≡ has_stamp stamps.now stamp tid.0 }
{
    let t = tid.0 as usize;
    t < stamps.len() && stamps[t] == stamp
}

/// One step along a chain, if the member ran there.
fn step_if_ran(walk: &mut Walk, stamps: &[u64], stamp: u64, member: &MemberTale)
    requires { 1 ≤ stamp }
    ensures many { length walk.new.rises.items ≡ length walk.old.rises.items }
    ensures still_rises { (n : ℕ) (rest : List tale.MemberTale) → n < length walk.old.rises.items
        → still_rises n walk.new.rises.items walk.new.writers walk.new.readers rest ≡ still_rises n walk.old.rises.items walk.old.writers walk.old.readers (filter (λ m. has_stamp stamps.now stamp m.tid.0) (member.now ∷ []) ++ rest) }
{
    if !has_stamp(stamps, stamp, member.tid) {
        return;
    }
    step(walk, member);
}

/// The steps of an ACT.
fn walk_act(walk: &mut Walk, group: &[MemberTale])
    ensures many { length walk.new.rises.items ≡ length walk.old.rises.items }
    ensures still_rises { (n : ℕ) (rest : List tale.MemberTale) → n < length walk.old.rises.items
        → still_rises n walk.new.rises.items walk.new.writers walk.new.readers rest ≡ still_rises n walk.old.rises.items walk.old.writers walk.old.readers (group.now ++ rest) }
{
    for member in group {
        step(walk, member);
    }
}

/// The steps of a batch: those of its PACTs that ran there.
fn walk_batch(walk: &mut Walk, stamps: &[u64], stamp: u64, group: &[MemberTale])
    requires { 1 ≤ stamp }
    ensures many { length walk.new.rises.items ≡ length walk.old.rises.items }
    ensures still_rises { (n : ℕ) (rest : List tale.MemberTale) → n < length walk.old.rises.items
        → still_rises n walk.new.rises.items walk.new.writers walk.new.readers rest ≡ still_rises n walk.old.rises.items walk.old.writers walk.old.readers (filter (λ m. has_stamp stamps.now stamp m.tid.0) group.now ++ rest) }
{
    for member in group {
        step_if_ran(walk, stamps, stamp, member);
    }
}

/// Members by batch and by tid.
#[derive(Drop)]
struct Groups {
    batches: Vec<Vec<MemberTale>>,
    acts: Vec<Vec<MemberTale>>,
}

/// The steps of one that was placed.
fn walk_who(walk: &mut Walk, groups: &Groups, stamps: &[u64], stamp: u64, who: Who)
    requires { 1 ≤ stamp }
    ensures many { length walk.new.rises.items ≡ length walk.old.rises.items }
    ensures still_rises { (n : ℕ) (rest : List tale.MemberTale) → n < length walk.old.rises.items
        → still_rises n walk.new.rises.items walk.new.writers walk.new.readers rest ≡ still_rises n walk.old.rises.items walk.old.writers walk.old.readers (stamped groups.now.batches.items groups.now.acts.items stamps.now stamp who ++ rest) }
{
    match who {
        Who::Batch(bid) => {
            let k = bid.0 as usize;
            if k >= groups.batches.len() {
                return;
            }
            walk_batch(walk, stamps, stamp, &groups.batches[k]);
        },
        Who::Act(tid) => {
            let t = tid.0 as usize;
            if t >= groups.acts.len() {
                return;
            }
            walk_act(walk, &groups.acts[t]);
        },
    }
}

/// The steps of all that were placed.
fn walk_placed(walk: &mut Walk, groups: &Groups, stamps: &[u64], stamp: u64, placed: &[Who])
    requires { 1 ≤ stamp }
    ensures many { length walk.new.rises.items ≡ length walk.old.rises.items }
    ensures still_rises { (n : ℕ) (rest : List tale.MemberTale) → n < length walk.old.rises.items
        → still_rises n walk.new.rises.items walk.new.writers walk.new.readers rest ≡ still_rises n walk.old.rises.items walk.old.writers walk.old.readers (flat_map (stamped groups.now.batches.items groups.now.acts.items stamps.now stamp) placed.now ++ rest) }
{
    for who in placed {
        walk_who(walk, groups, stamps, stamp, *who);
    }
}

/// Stamps one that ran. A tid without a stamp is left out.
fn put_stamp(stamps: &mut Vec<u64>, stamp: u64, tid: Tid)
    ensures many { length stamps.new.items ≡ length stamps.old.items }
    ensures few { AllByRecursion (λ x. x ≤ stamp) stamps.old.items → AllByRecursion (λ x. x ≤ stamp) stamps.new.items }
    ensures stamped { (t : ℕ) → t < length stamps.old.items → has_stamp stamps.new.items stamp t ≡ (has_stamp stamps.old.items stamp t || (tid.0 == t)) }
{
    let t = tid.0 as usize;
    if t >= stamps.len() {
        return;
    }
    stamps[t] = stamp;
}

/// Stamps each that ran. A tid without a stamp is left out.
fn put_stamps(stamps: &mut Vec<u64>, stamp: u64, ran: &[Tid])
    ensures many { length stamps.new.items ≡ length stamps.old.items }
    ensures few { AllByRecursion (λ x. x ≤ stamp) stamps.old.items → AllByRecursion (λ x. x ≤ stamp) stamps.new.items }
    ensures stamped { (t : ℕ) → t < length stamps.old.items → has_stamp stamps.new.items stamp t ≡ (has_stamp stamps.old.items stamp t || is_among t (map tid_number ran.now)) }
{
    for tid in ran {
        put_stamp(stamps, stamp, *tid);
    }
}

/// Walks along the chain of an actor, whose stamp is above all that were put before.
fn walk_actor(
    walk: &mut Walk,
    stamps: &mut Vec<u64>,
    groups: &Groups,
    stamp: u64,
    actor: &ActorTale,
)
    requires { 1 ≤ stamp }
    ensures many { length walk.new.rises.items ≡ length walk.old.rises.items }
    ensures long { length stamps.new.items ≡ length stamps.old.items }
    ensures few { AllByRecursion (λ x. x < stamp) stamps.old.items → AllByRecursion (λ x. x < stamp + 1) stamps.new.items }
    ensures rises { (ms : List tale.MemberTale) → AreGrouped ms groups.now.batches.items groups.now.acts.items → AllByRecursion (λ m. m.tid.0 < length stamps.old.items) ms → AllByRecursion (λ x. x < stamp) stamps.old.items
        → (n : ℕ) → n < length walk.old.rises.items → mark_of walk.new.rises.items n ≡ (mark_of walk.old.rises.items n && rises_to n None None (chain_of ms actor.now)) }
{
    walk.writers = None;
    walk.readers = None;
    put_stamps(stamps, stamp, &actor.ran);
    walk_placed(walk, groups, stamps, stamp, &actor.placed);
}

/// Members by batch and by tid. `Memory` where they cannot be allocated.
fn grouped(alloc: Global, members: &[MemberTale]) -> Result<Groups, Memory>
    ensures { IfOk result (λ groups. AreGrouped members.now groups.batches.items groups.acts.items) }
{
    let mut groups = Groups {
        batches: Vec::new(alloc),
        acts: Vec::new(alloc),
    };
    for member in members {
        group(alloc, &mut groups, member)?;
    }
    Ok(groups)
}

/// Puts a member last into its group. After `Memory` nothing is said of the groups.
fn group(alloc: Global, groups: &mut Groups, member: &MemberTale) -> Result<(), Memory>
    ensures { OnOk result ((ms : List tale.MemberTale) → AreGrouped ms groups.old.batches.items groups.old.acts.items → AreGrouped (ms ++ member.now ∷ []) groups.new.batches.items groups.new.acts.items) }
{
    match member.who {
        Who::Batch(bid) => put(alloc, &mut groups.batches, bid.0 as usize, member),
        Who::Act(tid) => put(alloc, &mut groups.acts, tid.0 as usize, member),
    }
}

/// The greatest transaction among the members; 0 of none.
fn greatest_tx(members: &[MemberTale]) -> u32
    ensures { AllByRecursion (λ m. m.tx.0 ≤ result) members.now }
{
    let mut greatest = 0;
    for member in members {
        greatest = member.tx.0.max(greatest);
    }
    greatest
}

/// The greatest tid among the members; 0 of none.
fn greatest_tid(members: &[MemberTale]) -> u64
    ensures { AllByRecursion (λ m. m.tid.0 ≤ result) members.now }
{
    let mut greatest = 0;
    for member in members {
        greatest = member.tid.0.max(greatest);
    }
    greatest
}

/// A mark for each transaction up to the greatest one, all true. `Memory` where they cannot be allocated.
fn marks_for(alloc: Global, members: &[MemberTale]) -> Result<Vec<bool>, Memory>
    ensures many { IfOk result (λ marks. AllByRecursion (λ m. m.tx.0 < length marks.items) members.now) }
    ensures marks { IfOk result (λ marks. (n : ℕ) → mark_of marks.items n ≡ true) }
{
    let greatest = greatest_tx(members);
    let marks = vec![in alloc; true; greatest as usize + 1]?;
    Ok(marks)
}

/// A stamp for each tid up to the greatest one, all 0. `Memory` where they cannot be allocated.
fn stamps_for(alloc: Global, members: &[MemberTale]) -> Result<Vec<u64>, Memory>
    ensures many { IfOk result (λ stamps. AllByRecursion (λ m. m.tid.0 < length stamps.items) members.now) }
    ensures few { IfOk result (λ stamps. AllByRecursion (λ x. x < 1) stamps.items) }
{
    let greatest = greatest_tid(members);
    let Some(many) = (greatest as usize).checked_add(1) else {
        return Err(Memory);
    };
    let stamps = vec![in alloc; 0; many]?;
    Ok(stamps)
}

/// For each transaction whether places rise to it along each actor's chain; a transaction behind the last mark is none of the
/// members'. `Memory` where what the walk needs cannot be allocated.
fn risen(alloc: Global, members: &[MemberTale], actors: &[ActorTale]) -> Result<Vec<bool>, Memory>
    ensures many { IfOk result (λ rises. AllByRecursion (λ m. m.tx.0 < length rises.items) members.now) }
    ensures rises { IfOk result (λ rises. (n : ℕ) → n < length rises.items → mark_of rises.items n ≡ all_rise n members.now actors.now) }
{
    let groups = grouped(alloc, members)?;
    let mut stamps = stamps_for(alloc, members)?;
    let mut walk = Walk {
        rises: marks_for(alloc, members)?,
        writers: None,
        readers: None,
    };
    for (a, actor) in actors.iter().enumerate() {
        walk_actor(&mut walk, &mut stamps, &groups, a as u64 + 1, actor);
    }
    Ok(walk.rises)
}

/// Whether the transaction's mark is true, or it has none.
fn mark_of(rises: &[bool], tx: TxNo) -> bool
    ensures { result ≡ mark_of rises.now tx.0 }
{
    let n = tx.0 as usize;
    if n >= rises.len() {
        return true;
    }
    rises[n]
}

/// Whether places rise to the transaction that a line replies to.
fn line_rises(rises: &[bool], line: &ReportLine) -> bool
    ensures { result ≡ line_rises rises.now (line_of line.now) }
{
    match line {
        ReportLine::Reply { tx, .. } => mark_of(rises, *tx),
        _ => true,
    }
}

/// The number, from 1 on, of the first reply to a transaction before which another one was placed on some actor whose place is
/// not below its own, where not both only read. `None` exactly where there is none. `Memory` where what the walk along the chains
/// needs cannot be allocated. Linear in the members, in what was placed and ran, and in the lines.
pub fn first_off_order(
    alloc: Global,
    members: &[MemberTale],
    actors: &[ActorTale],
    lines: &[ReportLine],
) -> Result<Option<u64>, Memory>
    ensures { IfOk result (λ at. (s : Seen) → TellsChains s members.now actors.now → MatchOption at (EachLine (TellsOrder s) [] (lines_of lines.now)) (λ i. IsFirstOff (TellsOrder s) (lines_of lines.now) i)) }
{
    let rises = risen(alloc, members, actors)?;
    for (at, line) in lines.iter().enumerate() {
        if !line_rises(&rises, line) {
            return Ok(Some(at as u64 + 1));
        }
    }
    Ok(None)
}
