//! The table that workers share.
ghost use Rattle.std.specs.Prelude.{◌≡◌, ◌+◌, ◌<◌, ◌≤◌, [], length, vec_len, IfOk, IfErr};
ghost use Rattle.turn_table.specs.declared.limits.TheConstants.{MOST_PARTS};

use crate::pieces::Piece;
use crate::rule::{Law, Start};
use crate::views::View;
use atomic_table::Table;
use std::alloc::Global;

/// Parts that several workers share, 1 to `MOST_PARTS`, numbered from 0, each under a turn; and the count of the events that
/// they recorded.
#[derive(Drop)]
pub struct Turns<P: Piece> {
    pub(crate) tables: P::Tables,
    pub(crate) parts: usize,
    pub(crate) alloc: Global,
    pub(crate) table: Table<Option<P>, View<P, P::Event>, Start<P, P::Tables>, Law<P>, Global>,
    ghost told: { table.shared.key.tables.value ≡ tables },
    ghost counted: { length table.shared.key.parts.value.items ≡ parts },
    ghost sized: { (table.shared.table_id.words ≡ parts + 1) × (table.shared.table_id.slots ≡ parts) },
    ghost small: { parts ≤ MOST_PARTS },
}
