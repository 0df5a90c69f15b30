//! Events of one kind with one first number: they stand together.
ghost use Rattle.std.specs.Prelude.{◌≡◌, ◌==◌, ◌<◌, ◌≤◌, false, filter, length, map, nat_le, nat_lt, slice_index_or};
ghost use Rattle.std.specs.List.Sorted.{IsNonDecreasingBy, IsPartitionPoint};
ghost use Rattle.core_events.specs.Meant.{event_meant};
ghost use Rattle.ready_list.specs.Order.{first_of};

use crate::places::place_of;
use core_events::Event;

/// Of events whose first numbers do not fall, those with this one. They are found by halves.
pub(crate) fn with_number(events: &[Event], number: u64) -> &[Event]
    requires { IsNonDecreasingBy (λ f. first_of (event_meant f)) events.now }
    ensures { map event_meant result.now ≡ filter (λ f. first_of f == number) (map event_meant events.now) }
{
    let start = count_below(events, number);
    if !stands_at(events, start, number) {
        return &[];
    }
    let end = count_up_to(events, number);
    &events[start..end]
}

// Whether the first number of the one at this place is this.
fn stands_at(events: &[Event], at: usize, number: u64) -> bool
    ensures { result ≡ false → (d : Event) → at < length events.now → first_of (event_meant (slice_index_or events.now at d)) ≡ number → ⊥ }
{
    match events.get(at) {
        Some(f) => place_of(*f).first == number,
        None => false,
    }
}

// How many of them have a lower one.
fn count_below(events: &[Event], number: u64) -> usize
    requires { IsNonDecreasingBy (λ f. first_of (event_meant f)) events.now }
    ensures bound { result ≤ length events.now }
    ensures point { IsPartitionPoint (λ f. first_of (event_meant f) < number) (λ f. number ≤ first_of (event_meant f)) events.now result }
{
    events.partition_point(
        |f: &Event| -> bool
            ensures { result ≡ nat_lt (first_of (event_meant f.now)) number }
        { place_of(*f).first < number },
    )
}

// How many of them have no higher one.
fn count_up_to(events: &[Event], number: u64) -> usize
    requires { IsNonDecreasingBy (λ f. first_of (event_meant f)) events.now }
    ensures bound { result ≤ length events.now }
    ensures point { IsPartitionPoint (λ f. first_of (event_meant f) ≤ number) (λ f. number < first_of (event_meant f)) events.now result }
{
    events.partition_point(
        |f: &Event| -> bool
            ensures { result ≡ nat_le (first_of (event_meant f.now)) number }
        { place_of(*f).first <= number },
    )
}
