//! Functions over the table of all batches: each reaches one by its number, by a tid or by a spot, and touches no
//! other. Batches are numbered one after another, from the one that follows the base on.

ghost use Rattle.std.specs.Prelude.{◌≡◌, ◌+◌, ◌<◌, ◌≤◌, ◌^◌, ◌&&◌, ◌++◌, map, take, drop, length, MatchOption, option_copied, slice_get, nat_le};
ghost use Rattle.std.specs.Option.{option_and_then, option_map};
ghost use Rattle.protocol.specs.Words as words;
ghost use Rattle.protocol.specs.OnDesk as desk;
ghost use Rattle.protocol.specs.Numbers.{from};
ghost use Rattle.batch_table.specs.Askings as askings;
ghost use Rattle.batch_table.specs.Found.{found_if};
ghost use Rattle.batch_table.specs.Joining.{bids_of, batch_tids};
ghost use Rattle.batch_table.specs.Listed.{pact_tx};
ghost use Rattle.batch_table.specs.Places.{IsPlaceOfBatch, IsNowhere, IsPlaceOfTid, IsTidNowhere, gone, is_live_with_trim};
ghost use Rattle.batch_table.specs.Sound.{TidsAscend, IsFrontCount, standings_of};
ghost use Rattle.batch_table.specs.Stages.{stage_meant};

use crate::batches::BatchEntry;
use crate::spots::Spot;
use crate::{FoundPact, Stage};
use snap_base::{ActorId, Bid, Tid, TxNo, TxResult};

/// So many batches are looked at one by one, the last first, before all are searched.
const LAST_FEW: usize = 16;

/// The place of the batch with this number.
pub(crate) fn place_of(batches: &[BatchEntry], base: u64, bid: Bid) -> Option<usize>
    requires { bids_of batches.now ≡ from (base + 1) (length batches.now) }
    ensures { MatchOption result (IsNowhere bid.0 batches.now) (λ i. IsPlaceOfBatch bid.0 i batches.now × (bid.0 ≡ base + 1 + i)) }
{
    if bid.0 <= base {
        return None;
    }
    let place = (bid.0 - base - 1) as usize;
    if place < batches.len() {
        Some(place)
    } else {
        None
    }
}

/// The batch with this number.
pub(crate) fn batch_of(batches: &[BatchEntry], base: u64, bid: Bid) -> Option<&BatchEntry>
    requires { bids_of batches.now ≡ from (base + 1) (length batches.now) }
    ensures { option_copied result ≡ words.batch_of bid.0 batches.now }
{
    match place_of(batches, base, bid) {
        Some(place) => batches.get(place),
        None => None,
    }
}

/// Whether the batch with this number is open, and all smaller ones are over, where so many are over as the front says.
pub(crate) fn is_next(batches: &[BatchEntry], base: u64, front: usize, bid: Bid) -> bool
    requires numbered { bids_of batches.now ≡ from (base + 1) (length batches.now) }
    requires parted { IsFrontCount front (standings_of batches.now) }
    ensures { result ≡ askings.is_next_open bid.0 batches.now }
{
    match place_of(batches, base, bid) {
        Some(place) => batches[place].is_open() && place <= front,
        None => false,
    }
}

/// Marks the batch with this number as noted on the actor.
pub(crate) fn note(batches: &mut [BatchEntry], base: u64, bid: Bid, actor: ActorId)
    requires { bids_of batches.old ≡ from (base + 1) (length batches.old) }
    ensures { batches.new ≡ desk.changed_batch bid.0 (desk.marked actor.0 desk.is_noted) batches.old }
{
    if let Some(place) = place_of(batches, base, bid) {
        batches[place].note(actor);
    }
}

/// Marks the batch with this number as trimmed on the actor, and tells whether it is live after that.
pub(crate) fn trim(batches: &mut [BatchEntry], base: u64, bid: Bid, actor: ActorId) -> bool
    requires { bids_of batches.old ≡ from (base + 1) (length batches.old) }
    ensures trimmed { batches.new ≡ desk.changed_batch bid.0 (desk.marked actor.0 desk.is_trimmed) batches.old }
    ensures live { result ≡ is_live_with_trim bid.0 actor.0 batches.old }
{
    match place_of(batches, base, bid) {
        Some(place) => {
            let batch = &mut batches[place];
            batch.trim(actor);
            batch.is_live()
        }
        None => false,
    }
}

/// The batch with this number is as far as this.
pub(crate) fn set_stage(batches: &mut [BatchEntry], base: u64, bid: Bid, stage: Stage)
    requires { bids_of batches.old ≡ from (base + 1) (length batches.old) }
    ensures { batches.new ≡ desk.changed_batch bid.0 (desk.with_stage (stage_meant stage)) batches.old }
{
    if let Some(place) = place_of(batches, base, bid) {
        batches[place].set_stage(stage);
    }
}

/// Marks the batches from this place on as aborted, and tells how many of them were live.
pub(crate) fn abort_from(batches: &mut [BatchEntry], place: usize) -> u32
    requires within { place ≤ length batches.old }
    requires few { words.count words.is_live_batch (drop place batches.old) < 2 ^ 32 }
    ensures aborted { batches.new ≡ take place batches.old ++ map gone (drop place batches.old) }
    ensures live { result ≡ words.count words.is_live_batch (drop place batches.old) }
{
    abort_all(&mut batches[place..])
}

fn abort_all(batches: &mut [BatchEntry]) -> u32
    requires { words.count words.is_live_batch batches.old < 2 ^ 32 }
    ensures aborted { batches.new ≡ map gone batches.old }
    ensures live { result ≡ words.count words.is_live_batch batches.old }
{
    let mut live: u32 = 0;
    for batch in batches.iter_mut() {
        live += u32::from(batch.is_live());
        batch.abort();
    }
    live
}

/// The place of the only batch that may have this tid: the last one whose first tid is not above it. Mostly it is one of the last, as
/// that of a live batch.
fn place_of_tid(batches: &[BatchEntry], tid: Tid) -> Option<usize>
    requires { TidsAscend 0 (batch_tids batches.now) }
    ensures { MatchOption result (IsTidNowhere tid.0 batches.now) (λ i. IsPlaceOfTid tid.0 i batches.now) }
{
    let mut at = batches.len();
    let first = at.saturating_sub(LAST_FEW);
    while at > first {
        at -= 1;
        if batches[at].first_tid() <= tid.0 {
            return Some(at);
        }
    }
    place_among_all(batches, tid)
}

fn place_among_all(batches: &[BatchEntry], tid: Tid) -> Option<usize>
    requires { TidsAscend 0 (batch_tids batches.now) }
    ensures { MatchOption result (IsTidNowhere tid.0 batches.now) (λ i. IsPlaceOfTid tid.0 i batches.now) }
{
    let count = batches.partition_point(|batch| batch.first_tid() <= tid.0);
    if count == 0 { None } else { Some(count - 1) }
}

/// How the PACT with this tid ended, if that was noted.
pub(crate) fn result_of(batches: &[BatchEntry], tid: Tid) -> Option<TxResult>
    requires { TidsAscend 0 (batch_tids batches.now) }
    ensures { result ≡ words.pact_result tid.0 batches.now }
{
    match place_of_tid(batches, tid) {
        Some(place) => batches[place].result_of(tid),
        None => None,
    }
}

/// The transaction of the PACT with this tid, if a batch has it.
pub(crate) fn tx_of(batches: &[BatchEntry], tid: Tid) -> Option<TxNo>
    requires { TidsAscend 0 (batch_tids batches.now) }
    ensures { option_map (λ n. n.0) result ≡ pact_tx tid.0 batches.now }
{
    match place_of_tid(batches, tid) {
        Some(place) => batches[place].tx_of(tid),
        None => None,
    }
}

/// Notes how the PACT with this tid ended, if its batch is not aborted.
pub(crate) fn note_end(batches: &mut [BatchEntry], tid: Tid, r: TxResult)
    requires { TidsAscend 0 (batch_tids batches.old) }
    ensures { batches.new ≡ map (desk.with_results tid.0 r) batches.old }
{
    if let Some(place) = place_of_tid(batches, tid) {
        batches[place].note_end(tid, r);
    }
}

/// What is found at this spot, if its transaction is the one.
pub(crate) fn found_at(batches: &[BatchEntry], spot: Spot, tx: TxNo) -> Option<FoundPact>
    ensures { result ≡ option_and_then (λ b. found_if tx.0 b (slice_get b.pacts spot.place)) (slice_get batches.now spot.batch) }
{
    match batches.get(spot.batch) {
        Some(batch) => batch.found_if(spot.place, tx),
        None => None,
    }
}
