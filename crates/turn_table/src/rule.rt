//! The rule of the table, and what its steps tell.
ghost use Rattle.std.specs.Prelude.{ℕ, ⊤};

use crate::pieces::Piece;
use crate::views::View;
use atomic_table::{Join, Play, Split, TableRule};
use std::marker::{Brand, PhantomData};
use std::snapshot::Snapshot;

/// What the table is told once: the fixed data, and the parts that it begins with. It has no bytes.
#[derive(Drop)]
pub struct Start<P, T> {
    pub tables: Snapshot<T>,
    pub parts: Snapshot<Vec<P>>,
}

/// The rule that holds of a table's words, slots and views between any two steps. It is a type alone: no value of it is made.
pub struct Law<P> {
    part: PhantomData<P>,
}

impl<P: Piece> TableRule<Option<P>, View<P, P::Event>, Start<P, P::Tables>> for Law<P> {
    ghost use Rattle.turn_table.specs.Rule.{Kept};
    ghost use Rattle.turn_table.specs.Views.{whole};

    ghost holds = { λ key. Kept (P.footprint key.tables.value) (P.happens key.tables.value) key.parts.value.items };

    ghost first = { λ key. whole };
}

/// What a caller tells a step that the step cannot see for itself, since it knows neither the table's data nor the event: what
/// holds of the view behind the step, and what a record makes of it.
pub trait Told<P, E> {
    ghost use Rattle.turn_table.specs.declared.views.View.{View};

    // What holds of the view afterwards.
    ghost facts: { View P E → Type 0 };
    // The view after a record, by the view before and the number.
    ghost after: { View P E → ℕ → View P E };
}

impl<P, E> Told<P, E> for Brand {
    ghost facts = { λ v. ⊤ };

    ghost after = { λ v n. v };
}

/// The step that takes a turn: the turn's word goes from 0 to 1, where it was 0. The view then holds the part, with the value
/// in its slot; or it has one refusal more. What is told of the view holds of it where it got the turn.
pub struct Take<W> {
    told: PhantomData<W>,
}

impl<P, E, W: Told<P, E>> Play<Option<P>, View<P, E>> for Take<W> {
    ghost use Rattle.turn_table.specs.Steps.{took};

    ghost then = { took W.facts };
}

/// The step by which the slot that the view has out counts as back in its place. It reads the turn's word and changes nothing else.
pub struct LayDown;

impl<P, E> Play<Option<P>, View<P, E>> for LayDown {
    ghost use Rattle.turn_table.specs.Steps.{laid_down};

    ghost then = { laid_down };
}

/// The step that records an event: the count goes up by 1, and the number found is the event's. What is told says how the view is
/// then.
pub struct Record<W> {
    told: PhantomData<W>,
}

impl<P, E, W: Told<P, E>> Play<Option<P>, View<P, E>> for Record<W> {
    ghost use Rattle.turn_table.specs.Steps.{recorded};

    ghost then = { recorded W.facts W.after };
}

/// The step by which the view has the slot of a part that it holds out. It reads the turn's word and changes nothing else.
pub struct PickUp;

impl<P, E> Play<Option<P>, View<P, E>> for PickUp {
    ghost use Rattle.turn_table.specs.Steps.{picked_up};

    ghost then = { picked_up };
}

/// The step that gives a turn back: its word goes to 0, and the view holds the part no more.
pub struct GiveBack;

impl<P, E> Play<Option<P>, View<P, E>> for GiveBack {
    ghost use Rattle.turn_table.specs.Steps.{gave};

    ghost then = { gave };
}

/// How views are split and joined. A view that is cut off has weight 1 and no splits; of two that are joined the one has what
/// both had, and the other nothing.
pub struct Shares;

impl<P, E> Split<View<P, E>> for Shares {
    ghost use Rattle.turn_table.specs.Views.{cut, fresh};

    ghost left = { cut };

    ghost right = { λ v. fresh 1 0 };
}

impl<P, E> Join<View<P, E>> for Shares {
    ghost use Rattle.turn_table.specs.Views.{joined, fresh};

    ghost both = { joined };

    ghost spent = { fresh 0 0 };
}
