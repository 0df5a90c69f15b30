//! What the workers of a crew have in common.
use crew_hints::Board;
use crew_parts::Share;
use snap_outside::{Gate, LogDev, Sink};
use std::alloc::Global;
use turn_table::{Piece, Turns};

/// What each worker of a crew works with: the parts under their turns, the gate that a Run passes, and the board.
#[derive(Drop)]
pub struct Crew<'a, D: LogDev + Drop, O: Sink + Drop, G: Gate>
where
    Share<D, O>: Piece,
{
    pub alloc: Global,
    pub turns: &'a Turns<Share<D, O>>,
    pub gate: &'a G,
    pub board: &'a Board,
}
