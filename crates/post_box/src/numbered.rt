//! A message with its number in the order of posting.

/// What is kept of a message, and the message's number in the order of posting.
#[derive(Drop)]
pub struct Numbered<M> {
    pub number: u64,
    pub message: M,
}
