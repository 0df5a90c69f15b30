//! What a worker has of a table: a pass.
ghost use Rattle.std.specs.Prelude.{◌≡◌, ◌≤◌, [], vec_len};
ghost use Rattle.turn_table.specs.Places.{Ascending};
ghost use Rattle.turn_table.specs.declared.limits.TheConstants.{MOST_ENTRIES};

use crate::pieces::Piece;
use crate::views::View;
use atomic_table::Seat;

/// The right to take turns and to record events, with the events that were recorded by it, at most `MOST_ENTRIES`, in the order
/// of their numbers. Contracts see what it knows: the parts that it holds, with their values, and its entries.
#[derive(Drop)]
pub struct Pass<P: Piece> {
    pub(crate) seat: Seat<Option<P>, View<P, P::Event>>,
    pub(crate) entries: Vec<(u64, P::Event)>,
    ghost same: { entries.items ≡ seat.me.0.entries },
    ghost at_rest: { (seat.me.1 ≡ []) × (seat.me.0.hand ≡ 0) },
    ghost light: { seat.me.0.weight ≡ 1 },
    ghost few: { vec_len entries ≤ MOST_ENTRIES },
    ghost ascending: { Ascending entries.items },
}
