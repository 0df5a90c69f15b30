//! What single parts taken out of a hand, and put into one, leave. Each is called to cite it.
ghost use Rattle.std.specs.Prelude.{◌≡◌, ℕ, Some, None, is_some, length, map, slice_set};
ghost use Rattle.aml_slice.specs.Controls.{Rest};
ghost use Rattle.protocol.specs.Fixed.{Fixed};
ghost use Rattle.protocol.specs.Parts.{Machine};
ghost use Rattle.snap_hand.specs.Hands.{Parts, Fits, IsHandOf, are_there};
ghost use Rattle.snap_hand.specs.Shown.{Shown, Belongs, IsPartOf, part_at, places, with_part, without};

/// A part that was taken out of a hand and is put back in its place leaves the hand as it was.
pub fn taken_is_put_back()
    ensures { (h : Parts) (i : ℕ) (p : Shown) → part_at h i ≡ Some p → with_part i p (without i h) ≡ h }
{}

/// A part taken out of a hand is the part of that number of each state that the hand fits. The hand without it still fits each of
/// them, and has places for all parts of the text.
pub fn taking_fits()
    ensures is { (w : Fixed Rest) (h : Parts) (s : Machine Rest) (i : ℕ) (p : Shown) → IsHandOf w h → Fits h s → part_at h i ≡ Some p → IsPartOf w s i p }
    ensures fits { (h : Parts) (s : Machine Rest) (i : ℕ) → Fits h s → Fits (without i h) s }
    ensures stays { (w : Fixed Rest) (h : Parts) (i : ℕ) → IsHandOf w h → IsHandOf w (without i h) }
{}

/// A part of a state belongs in the place of its number of a hand for the text. A hand that fits the state still fits it with the
/// part put in, and has places for all parts of the text.
pub fn putting_fits()
    ensures belongs { (w : Fixed Rest) (h : Parts) (s : Machine Rest) (i : ℕ) (p : Shown) → IsHandOf w h → IsPartOf w s i p → Belongs h i p }
    ensures fits { (w : Fixed Rest) (h : Parts) (s : Machine Rest) (i : ℕ) (p : Shown) → IsHandOf w h → Fits h s → IsPartOf w s i p → Fits (with_part i p h) s }
    ensures stays { (w : Fixed Rest) (h : Parts) (s : Machine Rest) (i : ℕ) (p : Shown) → IsHandOf w h → IsPartOf w s i p → IsHandOf w (with_part i p h) }
{}

/// Of the places of a hand only that of the part changes where a part is put in or taken out; and the places tell which parts are
/// there.
pub fn places_are_set()
    ensures with { (h : Parts) (i : ℕ) (p : Shown) → Belongs h i p → places (with_part i p h) ≡ slice_set (places h) i (Some p) }
    ensures without { (h : Parts) (i : ℕ) → places (without i h) ≡ slice_set (places h) i None }
    ensures told { (h : Parts) → map is_some (places h) ≡ are_there h }
{}

/// Two hands with equal places, as many of them for logs, are equal.
pub fn places_tell_the_hand()
    ensures { (g h : Parts) → length g.logs ≡ length h.logs → places g ≡ places h → g ≡ h }
{}
