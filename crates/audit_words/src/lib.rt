//! What the events of a run tell by themselves, and when the papers of a run are in order: its text, its trace and its
//! report. `specs/` is to be read in this order: `Seen` and `Happenings`, what events tell, event by event; `Orders`, who
//! stands before whom; `Papers`, the parts of an input and the lines of a report; `Clauses`, what a line has to say;
//! `Audited`, the six clauses, which of them is false first, and where; `Inputs`, an input as bytes, and the first thing that
//! is wrong with it; `Serial`, what papers in order say; `Reports`, what any run that can't go on has printed; `Beside`, what
//! of a run the laws of acceptance rest on. Rows that were worked out by hand are computed in `proofs/WorkedRows.antt`. The laws
//! are in audit_laws. No code stands here.
#![tactic(auto)]
