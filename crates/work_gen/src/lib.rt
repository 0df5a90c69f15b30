//! Works that a seed draws, as texts: a bank's five methods, 256 actors, and as many transactions as are asked for. What the text
//! is stands in `specs/Generated.antt`. Who measures runs makes their texts with this.
#![tactic(auto)]

mod draws;
mod laws;
mod lines;
mod texts;

pub use laws::generated_texts_are_works;
pub use texts::generate;
pub use work_text::{a_work_is_short, fault_or_work, one_work, parse_work, transactions_may_run};
