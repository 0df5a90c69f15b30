//! The papers of a run as bytes: the parts of an auditor's input, and the lines of a report. What they are stands in
//! `audit_words`.
#![tactic(auto)]

mod line_words;
mod parts;
mod report_line;
mod report_no;
mod verdict_words;
mod words;

pub use line_words::parse_report;
pub use parts::{Parts, parts_of};
pub use report_line::ReportLine;
pub use report_no::ReportNo;
