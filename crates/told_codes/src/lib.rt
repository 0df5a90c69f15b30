//! Who is told a place, also where a run stopped early: a transaction that is told a code of its own gives it behind those alone
//! that are told that they committed. The laws stand over every run: first over any method code that has the facts, then for every
//! checked program, as the language means it. No code stands here; each law is called to cite it.
#![tactic(auto)]

mod laws;

pub use laws::{told_codes_are_as_meant, told_failures_are_serial, told_places_are_serial};
