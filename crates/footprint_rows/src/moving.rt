//! Parts that go from one hand to another.
ghost use Rattle.std.specs.Prelude.{◌≡◌, None};
ghost use Rattle.std.specs.List.{AllByRecursion};
ghost use Rattle.aml_slice.specs.Controls.{Rest};
ghost use Rattle.footprint_rows.specs.Footprints.{AreBoth};
ghost use Rattle.protocol.specs.Fixed.{Fixed};
ghost use Rattle.protocol.specs.Parts.{Machine};
ghost use Rattle.snap_hand.specs.Hands.{Fits, IsHandOf};
ghost use Rattle.snap_hand.specs.Shown.{Belongs, IsPartOf, part_at, shown, without};
ghost use Rattle.snap_hand.specs.Tables.{fixed_of};

use core_events::Footprint;
use snap_hand::{Hand, Part, Tables, places_are_set, putting_fits, taking_fits};

/// Puts a part of the machine in the place of its number, where there is none.
fn put_free(hand: &mut Hand, i: usize, part: Part)
    requires { Belongs hand.old i (shown part) }
    ensures places { (w : Fixed Rest) (s : Machine Rest) → IsHandOf w hand.old → IsPartOf w s i (shown part) → IsHandOf w hand.new }
    ensures fits { (w : Fixed Rest) (s : Machine Rest) → IsHandOf w hand.old → Fits hand.old s → IsPartOf w s i (shown part) → Fits hand.new s }
{
    places_are_set();
    putting_fits();
    if hand.has(i) {
        return;
    }
    hand.put(i, part);
}

/// The part of this number goes from one hand, if it is there, to another one, which has none there.
fn move_part(tables: &Tables, from: &mut Hand, to: &mut Hand, i: usize)
    requires from { IsHandOf (fixed_of tables.now) from.old }
    requires to { IsHandOf (fixed_of tables.now) to.old }
    requires both { AreBoth (fixed_of tables.now) from.old to.old }
    ensures gone { from.new ≡ without i from.old }
    ensures places { IsHandOf (fixed_of tables.now) to.new }
    ensures fits { (s : Machine Rest) → Fits from.old s → Fits to.old s → Fits to.new s }
{
    taking_fits();
    putting_fits();
    let _work = &tables.work;
    match from.take(i) {
        Some(part) => put_free(to, i, part),
        None => {}
    }
}

/// The parts of a footprint go from one hand to another one, which has none of them.
pub(crate) fn move_parts(tables: &Tables, parts: &Footprint, from: &mut Hand, to: &mut Hand)
    requires from { IsHandOf (fixed_of tables.now) from.old }
    requires to { IsHandOf (fixed_of tables.now) to.old }
    requires both { AreBoth (fixed_of tables.now) from.old to.old }
    ensures gone { AllByRecursion (λ i. part_at from.new i ≡ None) parts.now }
    ensures from { IsHandOf (fixed_of tables.now) from.new }
    ensures to { IsHandOf (fixed_of tables.now) to.new }
    ensures fits { (s : Machine Rest) → Fits from.old s → Fits to.old s → Fits from.new s × Fits to.new s }
{
    places_are_set();
    taking_fits();
    for n in 0..parts.len() {
        move_part(tables, from, to, parts.part(n));
    }
}
