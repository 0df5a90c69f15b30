//! The law of what the parts' calls ask: a public function whose contract is the law. Its body calls the laws that it stands
//! on, to cite them.

ghost use Rattle.protocol.specs.Laws.{AfterEveryRunWithHistory};
ghost use Rattle.core_facts.specs.RowsMay.{RowsMayBeTaken};

use actor_cell::nothing_behind_an_act_has_run;
use batch_table::planned_batch_may_join;
use protocol_laws::{
    batches_settle_in_order, controls_are_in_one_place, numbers_are_drawn_once,
    numbers_are_in_range, sub_batches_name_the_one_before, transactions_are_in_one_place,
};
use protocol_records::records_are_few;
use protocol_theorems::{
    actors_lie_in_order, batches_have_actors, boxes_are_few, halves_go_on, limits_hold,
    places_are_few, sizes_hold, what_is_new_is_not_there,
};

/// On every run what the parts' calls ask is so wherever the event table lets a row be taken.
pub fn rows_may_be_taken<C>()
    ensures { AfterEveryRunWithHistory (RowsMayBeTaken {C = C}) }
{
    sizes_hold::<C>();
    what_is_new_is_not_there::<C>();
    numbers_are_drawn_once::<C>();
    numbers_are_in_range::<C>();
    transactions_are_in_one_place::<C>();
    batches_settle_in_order::<C>();
    sub_batches_name_the_one_before::<C>();
    controls_are_in_one_place::<C>();
    limits_hold::<C>();
    actors_lie_in_order::<C>();
    batches_have_actors::<C>();
    boxes_are_few::<C>();
    places_are_few::<C>();
    halves_go_on::<C>();
    planned_batch_may_join::<C>();
    records_are_few::<C>();
    nothing_behind_an_act_has_run();
}
