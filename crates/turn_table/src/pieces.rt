//! What a table asks of its parts and of their events.
ghost use Rattle.std.specs.Prelude.{ℕ, List};

/// A part of what the workers share, as one turn guards it.
pub trait Piece: Drop {
    /// The fixed data that events are read with.
    type Tables;

    /// What a worker does to the parts of one footprint at once.
    type Event: Copy;

    // The numbers of the parts that an event touches.
    ghost footprint: { Self.Tables → Self.Event → List ℕ };

    // Whether the event may happen where its footprint has the first values, and make the second of them.
    ghost happens: { Self.Tables → Self.Event → List Self → List Self → Type 0 };
}

/// What tells which values an event made of the parts of its footprint, in the footprint's order.
pub trait Makes<P, E> {
    ghost made: { Self → E → List P };
}
