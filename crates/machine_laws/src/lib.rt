//! The machine with the language. Checked programs are method code as the machine asks for it: a control is what is left of a
//! transaction, and a slice is that of the sliced executor. They have all the facts that the machine uses of method code, and a
//! serial execution in the machine's words is the one that the language means. So the great laws of the protocol, which stand
//! over any method code with these facts, hold with no premise on code: for every checked program, every accepted text whose
//! transactions may be asked of it (`specs/Programs.antt`), and every run. No code stands here; each law is called to cite it.
#![tactic(auto)]

mod actors;
mod cases;
mod code;
mod laws;
mod records;
mod texts;

pub use actors::{actors_lie_in_order, controls_may_run, limits_hold, readers_see_the_state};
pub use cases::{
    cases_of_order, halves_go_on, schedules_are_in_order, undo_gives_the_state_before,
};
pub use code::{alone_as_meant, askings_are_the_controls, code_has_the_facts, serial_as_meant};
pub use laws::{
    committed_transactions_are_as_meant, committed_transactions_are_in_order,
    conditions_are_as_agreed, every_run_ends, nobody_waits_in_a_circle,
    numbers_are_carried_through_all_pairs, numbers_are_the_ends_of_sets, places_stay,
    recovered_transactions_are_as_meant, recovered_transactions_are_in_order, rows_are_as_agreed,
    runs_that_cannot_go_on_have_answered, told_transactions_are_in_order, verdicts_are_as_meant,
    verdicts_have_evidence, verdicts_tell_of_serial_runs, who_has_ended_has_a_verdict,
};
pub use protocol_theorems::sizes_hold;
pub use records::{
    marks_are_durable, next_numbers_are_above_all, records_are_added_once, records_are_few,
    records_tell_what_is,
};
pub use texts::texts_have_the_facts;
