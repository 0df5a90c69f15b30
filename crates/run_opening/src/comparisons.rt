//! What of an opening is too large to begin with, and what of two texts' states differs first.
ghost use Rattle.std.specs.Prelude.{◌≡◌, ◌≤◌, length, MatchOption};
ghost use Rattle.txn_records.specs.declared.limits.TheConstants.{MOST_LISTED};
ghost use Rattle.run_opening.specs.Begins.{IsUnspent, IsFirstSpent, IsDifference, IsFieldDifference};

use snap_base::{ActorId, FIELDS, State};
use snap_recover::{GREATEST_NUMBER, Opening, What};

/// How many transactions, batches or commits a run may number, whatever the next number is that it begins with.
pub const ROOM_TO_BEGIN: u64 = 1 << 20;

/// The greatest number with which a run begins.
pub const GREATEST_TO_BEGIN: u64 = GREATEST_NUMBER - ROOM_TO_BEGIN;

/// What two texts differ in, and its values.
#[derive(Clone, Copy, Debug, PartialEq, Eq)]
pub(crate) struct Difference {
    pub what: What,
    pub kept: i64,
    pub text: i64,
}

/// The first field that differs, and its values.
#[derive(Clone, Copy, Debug, PartialEq, Eq)]
struct FieldDifference {
    field: u8,
    kept: i64,
    text: i64,
}

/// The next number of transactions, batches or commits that is too large to begin with, the first in this order.
pub(crate) fn spent(opening: &Opening) -> Option<u64>
    ensures { MatchOption result (IsUnspent opening.now) (IsFirstSpent opening.now) }
{
    if opening.next_tid.0 > GREATEST_TO_BEGIN {
        return Some(opening.next_tid.0);
    }
    if opening.next_bid.0 > GREATEST_TO_BEGIN {
        return Some(opening.next_bid.0);
    }
    if opening.next_c > GREATEST_TO_BEGIN {
        return Some(opening.next_c);
    }
    None
}

/// What differs first between the states that a log began with and the text's.
pub(crate) fn compare_states(kept: &[State], text: &[State]) -> Option<Difference>
    requires { length text.now ≤ MOST_LISTED }
    ensures { MatchOption result (kept.now ≡ text.now) (λ d. IsDifference kept.now text.now d.what d.kept d.text) }
{
    if kept.len() != text.len() {
        return Some(Difference {
            what: What::Actors,
            kept: kept.len() as i64,
            text: text.len() as i64,
        });
    }
    for actor in 0..kept.len() {
        if let Some(d) = compare_fields(&kept[actor].0, &text[actor].0) {
            return Some(Difference {
                what: What::Field {
                    actor: ActorId(actor as u16),
                    field: d.field,
                },
                kept: d.kept,
                text: d.text,
            });
        }
    }
    None
}

/// The first field that differs.
fn compare_fields(kept: &[i64; FIELDS], text: &[i64; FIELDS]) -> Option<FieldDifference>
    ensures { MatchOption result (kept.now ≡ text.now) (λ d. IsFieldDifference kept.now text.now d.field d.kept d.text) }
{
    for field in 0..FIELDS {
        if kept[field] != text[field] {
            return Some(FieldDifference {
                field: field as u8,
                kept: kept[field],
                text: text[field],
            });
        }
    }
    None
}
