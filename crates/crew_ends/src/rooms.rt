//! What a crew begins with, and the room that its end needs.
use crew_parts::Share;
use gate_log::Log;
use snap_hand::{Hand, Part, Tables};
use snap_outside::{LogDev, Sink};
use std::marker::Model;

/// What a crew begins with: the tables, the shares in the order of their numbers, and the room that its end needs.
pub struct Beginning<D: LogDev, O: Sink> {
    /// The work and the opening that the core was made for.
    pub tables: Tables,
    /// A share for each part of the machine, in the order of the parts' numbers.
    pub shares: Vec<Share<D, O>>,
    /// The room in which the end of the crew puts parts and logs together again.
    pub room: Room<D>,
}

/// The hand that the parts came from, and empty lists with room for the parts and the logs that a crew's end gives back, so that
/// the end needs no memory. Contracts see the hand, and for how many parts and logs there is room.
pub struct Room<D: LogDev> {
    pub(crate) hand: Hand,
    pub(crate) parts: Vec<Part>,
    pub(crate) logs: Vec<Log<D>>,
}

impl<D: LogDev> Model for Room<D> {
    ghost use Rattle.std.specs.Prelude.{◌≡◌, [], vec_capacity};
    ghost use Rattle.crew_ends.specs.Rooms.{RoomState};

    ghost Value = { RoomState };

    ghost view = { λ r. record { hand = r.hand; parts = vec_capacity r.parts; logs = vec_capacity r.logs } };

    ghost invariant = { λ r. (r.parts.items ≡ []) × (r.logs.items ≡ []) };
}
