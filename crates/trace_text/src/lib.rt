//! Traces as texts: a line for each event, its name and its numbers. `print_event` appends the line of an event,
//! `parse_trace` gives the events of a text, or the first line that is none, and `parse_events` those of any bytes.
//! What a line is stands in `specs/Lines.antt`, and what a trace is in `specs/Traces.antt`. A run prints its events
//! with this, and who audits a run reads them.
#![tactic(auto)]

mod laws;
mod lines;
mod names;
mod parse;
mod parts;
mod print;
mod trace_no;

pub use laws::{
    one_event, one_first_line, one_trace, printed_traces, trace_or_line, traces_are_printed,
};
pub use parse::{parse_events, parse_trace};
pub use print::print_event;
pub use trace_no::TraceNo;
