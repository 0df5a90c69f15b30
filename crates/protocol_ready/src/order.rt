//! The order of events, and what putting one in and taking one out leave. Each law is called to cite it.

ghost use Rattle.std.specs.Prelude.{◌≡◌, ◌↔◌, ◌⊎◌, true, false, Contains, List};
ghost use Rattle.protocol.specs.Events.{Event};
ghost use Rattle.protocol.specs.Schedule.{AscendByRank, Rank, is_rank_below};
ghost use Rattle.protocol_ready.specs.Ready.{put, without};

/// No rank is below itself; what is below one that is below a third is below the third; and of two ranks one is below the
/// other, or they are the same.
pub fn ranks_are_in_order()
    ensures apart { (x : Rank) → is_rank_below x x ≡ false }
    ensures through { (x y z : Rank) → is_rank_below x y ≡ true → is_rank_below y z ≡ true → is_rank_below x z ≡ true }
    ensures same { (x y : Rank) → is_rank_below x y ≡ false → is_rank_below y x ≡ false → x ≡ y }
{}

/// Ascending events ascend with an event put in, and without one.
pub fn events_stay_in_order()
    ensures put { (e : Event) (es : List Event) → AscendByRank es → AscendByRank (put e es) }
    ensures without { (e : Event) (es : List Event) → AscendByRank es → AscendByRank (without e es) }
{}

/// A list into which an event is put has just that one more.
pub fn one_is_put()
    ensures { (e : Event) (es : List Event) (f : Event) → Contains (put e es) f ↔ ((f ≡ e) ⊎ Contains es f) }
{}

/// A list out of which an event is taken has just the others.
pub fn one_is_taken()
    ensures others { (e : Event) (es : List Event) (f : Event) → Contains (without e es) f → Contains es f × (f ≡ e → ⊥) }
    ensures kept { (e : Event) (es : List Event) (f : Event) → Contains es f → Contains (without e es) f ⊎ (f ≡ e) }
{}
