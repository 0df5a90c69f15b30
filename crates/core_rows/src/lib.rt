//! The rows of the event table over the machine's parts: each event is one function that takes the parts which the event
//! reads and changes, and nothing else. A row is exactly the machine's: where the parts show a state that a run of an
//! accepted text has come to, it is taken exactly where the event is allowed, and the parts show the state after the event;
//! else it says which condition is the first false one. For want of memory, and where it is refused, the parts stay as they
//! were. The core calls a row for each event. What an event at an actor that does not exist is refused by stands beside them.
#![tactic(auto)]

mod aborting;
mod admitting;
mod arriving;
mod asking;
mod deciding;
mod ending;
mod ends;
mod finishing;
mod forming;
mod given_up;
mod laws;
mod logs;
mod messages;
mod noting;
mod nowhere;
mod placing_acts;
mod recording;
mod replying;
mod ring;
mod rolling;
mod running;
mod sending;
mod starts;
mod step_no;
mod submitting;
mod verdicts;
mod voting;

pub use aborting::{abort, abort_refusal};
pub use admitting::{admit, admit_refusal};
pub use arriving::{arrive, arrive_refusal};
pub use batch_table::Desk;
pub use book_part::{BookPart, halves_stay_of_their_book};
pub use cell_part::CellPart;
pub use core_facts::rows_may_be_taken;
pub use deciding::{decide, decide_refusal};
pub use ending::{end, end_refusal};
pub use ends::{close, close_refusal, trim, trim_refusal};
pub use finishing::{finish, finish_refusal};
pub use forming::{form, form_refusal};
pub use given_up::{drop_control, drop_control_refusal};
pub use laws::{books_go_on, rows_may, runs_go_on};
pub use log_set::LogPart;
pub use logs::{commit, commit_refusal, sync, sync_refusal};
pub use messages::{drop_sub, drop_sub_refusal, take, take_refusal};
pub use noting::{note, note_refusal, settle, settle_refusal};
pub use nowhere::{
    arrive_nowhere, ask_nowhere, close_nowhere, nothing_happens_nowhere, take_nowhere,
};
pub use placing_acts::{ask, ask_refusal};
pub use post_box::Post;
pub use recording::{complete, complete_refusal, prepare, prepare_refusal};
pub use replying::{reply, reply_refusal};
pub use ring::{pass, pass_refusal};
pub use rolling::{rollback, rollback_refusal};
pub use running::{run, run_refusal};
pub use sending::{send, send_refusal};
pub use step_no::StepNo;
pub use submitting::{submit, submit_refusal};
pub use token_ring::Ring;
pub use verdicts::verdict;
pub use voting::{seal, seal_refusal, vouch, vouch_refusal};
