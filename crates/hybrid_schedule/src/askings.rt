//! What a list of entries is asked. Each walks it once.
ghost use Rattle.std.specs.Prelude.{◌≡◌, ℕ, max, not, find, take_while, length, map, option_copied};
ghost use Rattle.std.specs.List.{list_any, list_all};
ghost use Rattle.std.specs.Option.{option_map};
ghost use Rattle.protocol.specs.Parts.{ActEntry};
ghost use Rattle.protocol.specs.Words.{is_batch_entry, is_act_entry, is_entry_of, is_clear, is_turn_of, has_undone, has_act, has_entry, who_on, is_complete_batch, is_all_done, ahead, batches_on, greatest, tail_group};
ghost use Rattle.protocol.specs.OnCell.{reads_on};
ghost use Rattle.protocol.specs.Meant.{who_meant};
ghost use Rattle.hybrid_schedule.specs.Listed.{completable_on, first_open};
ghost use Rattle.hybrid_schedule.specs.Schedules.{has_turn, is_any_act, is_incomplete, is_next_here, is_done_here, is_behind_no_act};
ghost use Rattle.hybrid_schedule.specs.Cuts.{staying_below, is_cut_off};

use crate::entries::Entry;
use snap_base::{Bid, Tid, Who};

/// The entry by which the transaction runs.
fn entry_of(entries: &[Entry], t: Tid) -> Option<&Entry>
    ensures { option_copied result ≡ find (is_entry_of t.0) entries.now }
{
    entries.iter().find(|e| e.is_entry_of(t))
}

/// The entry of the batch.
fn batch_of(entries: &[Entry], k: Bid) -> Option<&Entry>
    ensures { option_copied result ≡ find (is_batch_entry k.0) entries.now }
{
    entries.iter().find(|e| e.is_batch(k))
}

/// Whether the transaction runs by one of the entries.
pub fn has_entry(entries: &[Entry], t: Tid) -> bool
    ensures { result ≡ has_entry t.0 entries.now }
{
    entries.iter().any(|e| e.is_entry_of(t))
}

/// Whether one of the entries is the ACT's.
pub fn has_act(entries: &[Entry], t: Tid) -> bool
    ensures { result ≡ has_act t.0 entries.now }
{
    entries.iter().any(|e| e.is_act_of(t))
}

/// Whether an entry names the PACT, which is not done.
pub fn has_undone(entries: &[Entry], t: Tid) -> bool
    ensures { result ≡ has_undone t.0 entries.now }
{
    entries.iter().any(|e| e.is_undone(t))
}

/// Whose the transaction is: of the batch whose entry names it, else an ACT.
#[tactic(auto, using(crate::proofs::Reaching::who_is_found))]
pub fn who_on(entries: &[Entry], t: Tid) -> Who
    ensures { who_meant result ≡ who_on t.0 entries.now }
{
    match entry_of(entries, t) {
        Some(own) => own.owner(),
        None => Who::Act(t),
    }
}

/// Whether the transaction has an entry, and nothing ahead of it is in its way: all there is complete, or of ACTs that
/// only read, where it is of one itself.
pub fn is_clear(entries: &[Entry], t: Tid) -> bool
    ensures { result ≡ is_clear t.0 entries.now }
{
    let mut behind_reader = false;
    for place in entries {
        if place.is_entry_of(t) {
            return !behind_reader || place.is_reader();
        }
        if place.is_reader() {
            behind_reader = true;
        } else if !place.is_complete() {
            return false;
        }
    }
    false
}

/// Whether the transaction's entry is of an ACT that only reads.
pub fn is_reader(entries: &[Entry], t: Tid) -> bool
    ensures { result ≡ reads_on t.0 entries.now }
{
    match entry_of(entries, t) {
        Some(own) => own.is_reader(),
        None => false,
    }
}

/// Whether the transaction has an entry, in which no PACT has to run before it.
pub fn has_turn(entries: &[Entry], t: Tid) -> bool
    ensures { result ≡ has_turn t.0 entries.now }
{
    match entry_of(entries, t) {
        Some(own) => own.is_turn_of(t),
        None => false,
    }
}

/// Whether the batch has an entry, and is not complete.
pub fn is_incomplete(entries: &[Entry], k: Bid) -> bool
    ensures { result ≡ is_incomplete k.0 entries.now }
{
    match batch_of(entries, k) {
        Some(own) => !own.is_complete(),
        None => false,
    }
}

/// Whether all that stands ahead of the batch is complete.
pub fn is_next(entries: &[Entry], k: Bid) -> bool
    ensures { result ≡ is_next_here k.0 entries.now }
{
    for e in entries {
        if e.is_batch(k) {
            return true;
        }
        if !e.is_complete() {
            return false;
        }
    }
    true
}

/// Whether the batch has an entry, and all its PACTs are done.
pub fn is_done(entries: &[Entry], k: Bid) -> bool
    ensures { result ≡ is_done_here k.0 entries.now }
{
    match batch_of(entries, k) {
        Some(own) => own.is_all_done(),
        None => false,
    }
}

/// The first entry that is not of a complete batch.
fn first_open(entries: &[Entry]) -> Option<&Entry>
    ensures { option_copied result ≡ first_open entries.now }
{
    entries.iter().find(|e| !e.is_complete())
}

/// The batch that can be completed: the first that is not, where nothing stands ahead of it but complete batches, and all its
/// PACTs are done.
pub fn completable(entries: &[Entry]) -> Option<Bid>
    ensures { option_map (λ k. k.0) result ≡ completable_on entries.now }
{
    match first_open(entries) {
        Some(open) => open.done_batch(),
        None => None,
    }
}

/// Whether an ACT stands there.
pub fn has_acts(entries: &[Entry]) -> bool
    ensures { result ≡ list_any is_any_act entries.now }
{
    entries.iter().any(|e| e.is_act())
}

/// Whether no ACT stands ahead of the batch.
pub fn is_behind_no_act(entries: &[Entry], k: Bid) -> bool
    ensures { result ≡ is_behind_no_act k.0 entries.now }
{
    for e in entries {
        if e.is_batch(k) {
            return true;
        }
        if e.is_act() {
            return false;
        }
    }
    true
}

/// How many ACTs stand behind the last batch.
#[tactic(auto, using(crate::proofs::Counting::tail_counted))]
fn tail_length(entries: &[Entry]) -> usize
    ensures { result ≡ length (tail_group entries.now) }
{
    let mut count = 0;
    for e in entries {
        if e.is_act() {
            count += 1;
        } else {
            count = 0;
        }
    }
    count
}

/// The ACTs behind the last batch.
#[tactic(auto, using(crate::proofs::OfActs::tail_fits))]
pub fn tail(entries: &[Entry]) -> &[Entry]
    ensures { result.now ≡ map ActEntry (tail_group entries.now) }
{
    let length = tail_length(entries);
    &entries[entries.len() - length..]
}

/// How many entries stand ahead of the first batch that is not below this one.
pub fn count_below(entries: &[Entry], k: Bid) -> usize
    ensures { result ≡ length (staying_below k.0 entries.now) }
{
    for (at, e) in entries.iter().enumerate() {
        if e.is_from(k) {
            return at;
        }
    }
    entries.len()
}

/// Whether the transaction's entry stands at or behind the first batch that is not below this one.
#[tactic(auto, using(crate::proofs::Cutting::staying_fits))]
pub fn is_cut_off(entries: &[Entry], t: Tid, k: Bid) -> bool
    ensures { result ≡ is_cut_off t.0 k.0 entries.now }
{
    let staying = count_below(entries, k);
    has_entry(&entries[staying..], t)
}

/// The greatest batch, or this number where it is greater.
#[tactic(auto, using(crate::proofs::Counting::greatest_more))]
pub fn greatest_batch(entries: &[Entry], number: u64) -> u64
    ensures { result ≡ max number (greatest (batches_on entries.now)) }
{
    let mut greatest = number;
    for e in entries {
        greatest = e.batch_or(greatest);
    }
    greatest
}
