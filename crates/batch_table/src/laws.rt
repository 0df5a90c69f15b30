//! Laws of the desk over every state of the machine: public functions with empty bodies, whose contracts are the laws.
//! `C` is the type of controls.

ghost use Rattle.protocol.specs.Fixed.{Fixed};
ghost use Rattle.protocol.specs.Parts.{Machine};
ghost use Rattle.batch_table.specs.Laws.{AsksTheTable, PlannedMayJoin};

/// What the desk is asked is what the event table asks of it, condition by condition.
pub fn askings_are_conditions<C>()
    ensures { (w : Fixed C) (s : Machine C) → AsksTheTable w s }
{}

/// The batch that the ring plans may join the desk, wherever the event table lets it be formed.
pub fn planned_batch_may_join<C>()
    ensures { (w : Fixed C) (s : Machine C) → PlannedMayJoin w s }
{}
