//! The laws. `C` is the type of controls.

ghost use Rattle.std.specs.Prelude.{ℕ, Bool, List};
ghost use Rattle.protocol.specs.Events.{Event};
ghost use Rattle.protocol.specs.Laws.{AfterEveryRun, AfterEveryRunWithHistory};
ghost use Rattle.protocol.specs.Parts.{Cell, Desk, Post};
ghost use Rattle.protocol_ready.specs.Telling.{CellTells, DeskTells, PostTells};
ghost use Rattle.listing_facts.specs.Owing.{UndoneHaveDeclared};
ghost use Rattle.listing_facts.specs.Listing.{CellLists, DeskLists, ListsAreEnough, PostLists};

use protocol_laws::{frame, transactions_are_in_one_place};
use protocol_records::acts_end_whole;

/// In every state: what the post, an actor and the desk list is what they have to tell.
pub fn parts_list_all<C>()
    ensures post { (asked : Event → Bool) (p : Post C) (es : List Event) → PostLists asked p es → PostTells asked p es }
    ensures cell { (asked : Event → Bool) (cascades a : ℕ) (c : Cell C) (es : List Event) → CellLists asked cascades a c es → CellTells asked cascades a c es }
    ensures desk { (asked : Event → Bool) (d : Desk) (es : List Event) → DeskLists asked d es → DeskTells asked d es }
{}

/// After every run: what the book lists is what it has to tell, and what of the transactions that were submitted waits for a
/// reply is all that is due. An ACT of which an event is allowed is live, and a transaction with a verdict was submitted.
pub fn run_parts_list_all<C>()
    ensures { AfterEveryRunWithHistory (ListsAreEnough {C = C}) }
{
    acts_end_whole::<C>();
    transactions_are_in_one_place::<C>();
}

/// After every run: whoever is undone on an actor has declared it.
pub fn undone_have_declared<C>()
    ensures { AfterEveryRun (UndoneHaveDeclared {C = C}) }
{
    frame::<C>();
}
