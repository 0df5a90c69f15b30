//! Tables of texts, for what the program does not show of them: the column of a program's fault, which limit is passed and by
//! what, the work that a text stands for; and what the lower crates answer to words, programs and transactions. Expected
//! values are worked out by hand from the rules.
#![tactic(auto)]

#[cfg(test)]
mod lines;
#[cfg(test)]
mod pieces;
#[cfg(test)]
mod programs;
#[cfg(test)]
mod rows;
