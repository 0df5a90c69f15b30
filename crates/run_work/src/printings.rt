//! What a run prints.

/// What a run prints.
#[derive(Clone, Copy)]
pub enum Told {
    /// Each reply as it comes, and behind the replies the actors and the end line. Where a log's device fails, a line for each
    /// transaction that has no reply.
    Report,
    /// The line of its summary alone, where it has ended.
    Summary,
}
