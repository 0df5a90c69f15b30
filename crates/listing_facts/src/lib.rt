//! That what the parts list is all to look at: where a list of events has those of what the parts list, each allowed event is
//! among them. No code stands here: public functions whose contracts are the laws, in the words of the parts' own contracts.
//! The core cites them where it looks for all allowed events, at the opening and after a cascade.
#![tactic(auto)]

mod listings;

pub use batch_table::Desk;
pub use book_part::BookPart;
pub use listings::{parts_list_all, run_parts_list_all, undone_have_declared};
pub use post_box::Post;
