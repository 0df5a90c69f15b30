//! Footprints: the numbers of an event's parts.
ghost use Rattle.std.specs.Prelude.{◌≡◌, ◌<◌, ◌≤◌, Some, [], ◌∷◌, length, slice_get};
ghost use Rattle.protocol.specs.Words.{is_among};

use std::marker::Model;

/// The numbers of the parts that an event reads and changes, at most four. Contracts see them as a list.
#[derive(Drop)]
pub struct Footprint {
    parts: [usize; 4],
    count: usize,
}

impl Model for Footprint {
    ghost use Rattle.std.specs.Prelude.{List, ℕ, ◌≤◌, take};

    ghost Value = { List ℕ };

    ghost view = { λ f. take f.count f.parts };

    ghost invariant = { λ f. f.count ≤ 4 };
}

impl Footprint {
    /// How many parts there are.
    pub fn len(&self) -> usize
        ensures count { result ≡ length self.now }
        ensures few { result ≤ 4 }
    {
        self.count
    }

    /// The number at a place, from 0 on.
    pub fn part(&self, i: usize) -> usize
        requires { i < length self.now }
        ensures { slice_get self.now i ≡ Some result }
    {
        self.as_slice()[i]
    }

    /// The numbers, in their order.
    pub fn as_slice(&self) -> &[usize]
        ensures { result.now ≡ self.now }
    {
        &self.parts[..self.count]
    }

    /// Whether the part of this number is one of them.
    pub fn has(&self, part: usize) -> bool
        ensures { result ≡ is_among part self.now }
    {
        self.as_slice().iter().any(|number| *number == part)
    }

    pub(crate) fn one(a: usize) -> Self
        ensures { result ≡ a ∷ [] }
    {
        Footprint {
            parts: [a, 0, 0, 0],
            count: 1,
        }
    }

    pub(crate) fn two(a: usize, b: usize) -> Self
        ensures { result ≡ a ∷ b ∷ [] }
    {
        Footprint {
            parts: [a, b, 0, 0],
            count: 2,
        }
    }

    pub(crate) fn three(a: usize, b: usize, c: usize) -> Self
        ensures { result ≡ a ∷ b ∷ c ∷ [] }
    {
        Footprint {
            parts: [a, b, c, 0],
            count: 3,
        }
    }

    pub(crate) fn four(a: usize, b: usize, c: usize, d: usize) -> Self
        ensures { result ≡ a ∷ b ∷ c ∷ d ∷ [] }
    {
        Footprint {
            parts: [a, b, c, d],
            count: 4,
        }
    }
}
