//! Shares under turns.
use crate::{Act, Share};
use snap_hand::Tables;
use snap_outside::{LogDev, Sink};
use turn_table::Piece;

impl<D: LogDev + Drop, O: Sink + Drop> Piece for Share<D, O> {
    type Tables = Tables;

    type Event = Act;

    ghost use Rattle.crew_parts.specs.Acts.{MayDo, touched};

    ghost footprint = { touched };

    ghost happens = { MayDo };
}
