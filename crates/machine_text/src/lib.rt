//! A work and an opening as the machine's text: `specs/Texts.antt` says what the text is, with the methods of the work's program
//! as code, and with which openings a work may begin. No code stands here; the law is called to cite it.
#![tactic(auto)]

mod laws;

pub use laws::works_are_texts;
