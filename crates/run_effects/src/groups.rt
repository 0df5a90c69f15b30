//! Laws on the groups that each log gets and on the batches that settle. `C` is the type of controls.
ghost use Rattle.protocol.specs.Fixed.{Fixed};
ghost use Rattle.run_effects.specs.Laws.{BatchesAreCounted, GroupsAreDurable, GroupsGrow};

use protocol_laws::frame;

/// A law of every run, cited by a call: an event that is a Sync of a log gives that log one group, and any other event gives it
/// none; and the groups that a log got hold just the records that are synced there.
pub fn groups_grow<C>()
    ensures grow { (w : Fixed C) → GroupsGrow w }
    ensures durable { (w : Fixed C) → GroupsAreDurable w }
{}

/// A law of every run, cited by a call: the report counts as many batches as the run has Settle events.
pub fn batches_are_counted<C>()
    ensures { (w : Fixed C) → BatchesAreCounted w }
{
    frame::<C>();
}
