//! The laws on the auditor's definitions: what papers in order say of a run, and that what any run that can't go on has printed
//! is in order with its trace, in all six clauses; so the text of a work, the trace of such a run on empty logs and what it has
//! printed are an input in order. Public functions, whose contracts are the laws. `C` is the type of controls.
#![tactic(auto)]

mod every_run;
mod inputs;
mod papers;
mod pieces;
mod printed;
mod programs;

pub use every_run::{
    acts_are_seen, commits_stand, names_are_seen, places_are_seen, quiet_runs_are_audited,
    quiet_runs_are_half_audited, quiet_runs_have_evidence, quiet_runs_have_their_places,
    runs_are_seen, taken_events_are_in_range, told_places_are_audited, verdicts_are_in_range,
};
pub use inputs::{first_events_are_in_range, quiet_runs_are_in_order};
pub use papers::{
    audited_papers_are_serial, language_is_a_meaning, one_answer, papers_tell_serial_runs,
};
pub use pieces::{
    chains_rise_to_each, chains_tell_order, reports_have_shape, reports_tell_meaning,
    reports_tell_places, runs_are_numbered,
};
pub use printed::{one_report, printed_forms_are_reports, reports_are_lines};
pub use programs::{quiet_runs_are_audited_as_meant, quiet_runs_print_reports};
