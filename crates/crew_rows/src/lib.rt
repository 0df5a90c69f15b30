//! Crews of workers, run in threads on texts by hand, texts that seeds draw, and larger ones, with and without faults of the logs'
//! devices and of the output, and where these are slow. What a crew took is taken once more by one core, event by event, with plain
//! journals beside it; the crew has to end with what that core shows, with those bytes on its devices and those lines in its output.
//! The committed transactions, run one by one in the order of their places, have to give the same states.
#![tactic(auto)]

#[cfg(test)]
mod commands;
#[cfg(test)]
mod gates;
#[cfg(test)]
mod rows;
#[cfg(test)]
mod series;
#[cfg(test)]
mod slow;
#[cfg(test)]
mod texts;
