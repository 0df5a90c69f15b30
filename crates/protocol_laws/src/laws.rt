//! Laws over every state, event and run: public functions with empty bodies, whose contracts are the laws.
//! `C` is the type of controls.

ghost use Rattle.std.specs.Prelude.{◌≡◌, ℕ, ◌≤◌, false, List, length, ◌↔◌};
ghost use Rattle.protocol.specs.Conditions.{IsAllowed, refusal};
ghost use Rattle.protocol.specs.Contents.{Content, IsSame, is_changed};
ghost use Rattle.protocol.specs.Effects.{after};
ghost use Rattle.protocol.specs.Epochs.{CellsAgree, EpochsAgree};
ghost use Rattle.protocol.specs.Events.{Event, footprint};
ghost use Rattle.protocol.specs.Fixed.{Fixed, IsText};
ghost use Rattle.protocol.specs.Footprints.{HasLogs, IsFootprint, SameOn, LeavesOthers, ReadsItsParts};
ghost use Rattle.protocol.specs.Laws.{AfterEveryRun};
ghost use Rattle.protocol.specs.Numbers.{from, tids_along, bids_along, NumbersDrawnOnce, TransactionsInOnePlace, ControlsInOnePlace};
ghost use Rattle.protocol.specs.Parts.{Machine};
ghost use Rattle.protocol.specs.Runs.{IsRun, opening};
ghost use Rattle.protocol.specs.Settling.{BatchesSettleInOrder};
ghost use Rattle.protocol.specs.Standing.{PairsStand};

/// An event is allowed, or a rule refuses it, the first whose condition is false.
pub fn allowed_or_refused<C>()
    ensures { (w : Fixed C) (e : Event) (s : Machine C) → (refusal w e s ≡ 0) ↔ IsAllowed w e s }
{}

/// What is not listed among an event's changes is the same after it, allowed or not.
pub fn frame<C>()
    ensures { (w : Fixed C) (e : Event) (s : Machine C) (q : Content) → is_changed q e ≡ false → IsSame q s (after w e s) }
{}

/// The tids that the events of a run draw are, in order, consecutive from the opening's.
pub fn tids_are_consecutive<C>()
    ensures { (w : Fixed C) (es : List Event) → IsRun w es → tids_along w es (opening w) ≡ from w.text.opening.next_tid (length (tids_along w es (opening w))) }
{}

/// The batch numbers that the events of a run draw are, in order, consecutive from the opening's.
pub fn bids_are_consecutive<C>()
    ensures { (w : Fixed C) (es : List Event) → IsRun w es → bids_along es ≡ from w.text.opening.next_bid (length (bids_along es)) }
{}

/// The desk's batches have the numbers that were drawn, in order, and each tid that was drawn is of one
/// transaction of one batch or of one ACT.
pub fn numbers_are_drawn_once<C>()
    ensures { AfterEveryRun (NumbersDrawnOnce {C = C}) }
{}

/// A submitted transaction is in one queue, one batch or the book, and in one place there.
pub fn transactions_are_in_one_place<C>()
    ensures { AfterEveryRun (TransactionsInOnePlace {C = C}) }
{}

/// No transaction has two controls in the post, the inboxes and the outboxes, and only who has a tid has one.
pub fn controls_are_in_one_place<C>()
    ensures { AfterEveryRun (ControlsInOnePlace {C = C}) }
{}

/// Each message of a batch tells the batch's epoch and the batch before it in this epoch on its actor, and the
/// ring knows the last one.
pub fn sub_batches_name_the_one_before<C>()
    ensures { AfterEveryRun (EpochsAgree {C = C}) }
{}

/// No batch on an actor is of a later epoch than the actor's cell; an aborted one is of just that epoch, and a
/// cell of the present epoch has no aborted one.
pub fn cells_agree_with_the_cascades<C>()
    ensures { AfterEveryRun (CellsAgree {C = C}) }
{}

/// Batches settle in the order of their numbers. A batch is marked aborted exactly where a cascade covers it, and
/// is then no further than formed; below a cascade all is settled or aborted; cascades ascend.
pub fn batches_settle_in_order<C>()
    ensures { AfterEveryRun (BatchesSettleInOrder {C = C}) }
{}

/// Of a pair the one behind is older, and where the one ahead is not doomed its before number is at least as
/// great.
pub fn pairs_carry_before_numbers<C>()
    ensures { AfterEveryRun (PairsStand {C = C}) }
{}

/// A footprint has at most four parts, in ascending order.
pub fn footprints_are_small()
    ensures { (logs : ℕ) (e : Event) → 1 ≤ logs → IsFootprint logs e }
{}

/// An event leaves every part outside its footprint.
pub fn events_leave_other_parts<C>()
    ensures { (w : Fixed C) (e : Event) (s : Machine C) → HasLogs w s → LeavesOthers w e s }
{}

/// An event reads its parts alone: two states with the same parts in its footprint agree on its conditions,
/// and on these parts after it.
pub fn events_read_their_parts<C>()
    ensures { (w : Fixed C) (e : Event) (s t : Machine C) → HasLogs w s → HasLogs w t → 1 ≤ w.text.logs → SameOn (footprint w.text.logs e) s t → ReadsItsParts w e s t }
{}

/// The machine keeps as many logs as the text says.
pub fn logs_stay<C>()
    ensures { AfterEveryRun (HasLogs {C = C}) }
{}
