//! The laws over what happens outside while a body runs, in one order.
ghost use Rattle.durable_replies.specs.Durable.{ToldOnlyWhenDurable};
ghost use Rattle.durable_replies.specs.Promised.{PlaysKeepPromises};

use command_words::one_command;

/// What may happen at a call of a play is what the traits of devices, sinks and sources promise of it. So each play is one with objects
/// of these traits, and what a function that is generic in them promises holds of it.
pub fn plays_keep_promises()
    ensures { PlaysKeepPromises }
{}

/// Of every body that does not see what will be answered, and whatever is answered: where it meets the contract of the top call, each
/// line that it has printed at any point of its calls and that tells that a transaction committed is the line of one that recovers
/// from whatever a crash leaves at that point. The reason is that from there on each call may fail; then the body ends, and by the
/// contract what it has printed are replies of events whose records its devices have got.
pub fn told_only_when_durable()
    ensures { ToldOnlyWhenDurable }
{
    one_command();
}
