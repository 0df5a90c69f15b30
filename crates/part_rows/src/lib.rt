//! Worked rows of single parts of the machine, for what a run does not show of them: which slots hold images of states, what
//! undoing brings back, behind which batch an ACT comes, whom it can't stand beside on an actor, and who may run there. Calls
//! stand in a table, and beside each what it answers, worked out by hand.
#![tactic(auto)]

#[cfg(test)]
mod cells;
#[cfg(test)]
mod schedules;
#[cfg(test)]
mod tables;
