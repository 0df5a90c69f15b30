//! A held turn: the number of its part, with the value or without it.
/// A turn that a pass holds: the number of its part, and the part's value.
#[derive(Drop)]
pub struct Held<P> {
    pub(crate) part: usize,
    pub(crate) value: P,
}

/// A held turn whose value was taken out. It keeps the number of the part.
#[derive(Drop)]
pub struct Lease {
    part: usize,
}

impl<P> Held<P> {
    ghost use Rattle.std.specs.Prelude.{◌≡◌};
    ghost use Rattle.turn_table.specs.Words.{part_of, value_of, leased};

    /// Takes the value out. The turn stays held.
    pub fn open(self) -> (Lease, P)
        ensures { (leased result.0 ≡ part_of self) × (result.1 ≡ value_of self) }
    {
        let Held { part, value } = self;
        (Lease { part }, value)
    }
}

impl Lease {
    ghost use Rattle.std.specs.Prelude.{◌≡◌};
    ghost use Rattle.turn_table.specs.Words.{part_of, value_of, leased};

    /// Puts a value in. What it may be is asked when the turn is given back.
    pub fn shut<P>(self, value: P) -> Held<P>
        ensures { (part_of result ≡ leased self) × (value_of result ≡ value) }
    {
        let Lease { part } = self;
        Held { part, value }
    }
}
