//! The auditor: it reads the text, the trace and the report of a run, and finds the first clause that they do not meet. What
//! papers in order are stands in `audit_words`.
#![tactic(auto)]

mod audit_no;
mod audits;
mod by_tx;
mod clauses;
mod evidence;
mod failing;
mod groups;
mod located;
mod meaning;
mod order;
mod places;
mod shape;
mod walks;

pub use audit_no::AuditNo;
pub use audits::audit;
pub use clauses::first_off;
pub use evidence::first_off_evidence;
pub use meaning::first_off_meaning;
pub use order::first_off_order;
pub use places::first_off_place;
pub use shape::{Sizes, first_off_shape};
