//! Rows of followers: the lists that rounds read one after the other, and beside each what the round answers, worked out by hand from the
//! rule.
#![tactic(auto)]

#[cfg(test)]
mod rounds;
#[cfg(test)]
mod rows;
