//! How a worker treats an event, by its kind.
use core_events::Event;

/// Kinds of events that a worker treats alike, in the order in which it tries what it found.
#[derive(Clone, Copy, Debug, PartialEq, Eq)]
pub(crate) enum Kind {
    /// An abort. What it makes allowed lies all over.
    Abort,
    /// What aborts leave to do.
    Drop,
    /// A sub-batch or an ACT comes to an actor.
    Place,
    /// A control comes to an actor.
    Take,
    /// A slice. It may take long.
    Slice,
    /// A control goes on.
    Send,
    /// A transaction ended.
    End,
    /// A transaction owes an actor nothing more.
    Close,
    /// A batch is complete on an actor.
    Complete,
    /// An ACT is prepared on an actor.
    Prepare,
    /// A transaction joins its queue.
    Submit,
    /// The token goes on, or a batch or an ACT begins.
    Begin,
    /// The desk learns that a batch is complete on an actor.
    Note,
    /// A batch commits, or is settled.
    Commit,
    /// What becomes of an ACT.
    Fate,
    /// An ACT leaves an actor.
    Finish,
    /// A batch leaves an actor.
    Trim,
    /// A sync of a log. It may take long.
    Sync,
    /// A reply. It may take long, and nothing waits for it.
    Reply,
}

/// How many kinds there are.
pub(crate) const KINDS: usize = 19;

/// The kind of an event. Each is named here, so that a new one does not compile before it has a kind.
pub(crate) fn kind_of(e: Event) -> Kind {
    match e {
        Event::AbortBatch(_) => Kind::Abort,
        Event::Rollback(_) | Event::DropSub(_, _) | Event::DropControl(_) => Kind::Drop,
        Event::Arrive(_, _) | Event::Ask(_, _) => Kind::Place,
        Event::Take(_, _) => Kind::Take,
        Event::Run(_, _) => Kind::Slice,
        Event::Send(_, _) => Kind::Send,
        Event::End(_, _) => Kind::End,
        Event::Close(_, _) => Kind::Close,
        Event::Complete(_, _) => Kind::Complete,
        Event::Prepare(_, _) => Kind::Prepare,
        Event::Submit(_) => Kind::Submit,
        Event::Pass(_) | Event::Form(_) | Event::Admit(_) => Kind::Begin,
        Event::Note(_, _) => Kind::Note,
        Event::Commit(_) | Event::Settle(_) => Kind::Commit,
        Event::Vouch(_, _) | Event::Decide(_) | Event::Seal(_) => Kind::Fate,
        Event::Finish(_, _) => Kind::Finish,
        Event::Trim(_, _) => Kind::Trim,
        Event::Sync(_) => Kind::Sync,
        Event::Reply(_) => Kind::Reply,
    }
}

/// The place of a kind in their order, from 0 on.
pub(crate) fn place_of(kind: Kind) -> u32 {
    match kind {
        Kind::Abort => 0,
        Kind::Drop => 1,
        Kind::Place => 2,
        Kind::Take => 3,
        Kind::Slice => 4,
        Kind::Send => 5,
        Kind::End => 6,
        Kind::Close => 7,
        Kind::Complete => 8,
        Kind::Prepare => 9,
        Kind::Submit => 10,
        Kind::Begin => 11,
        Kind::Note => 12,
        Kind::Commit => 13,
        Kind::Fate => 14,
        Kind::Finish => 15,
        Kind::Trim => 16,
        Kind::Sync => 17,
        Kind::Reply => 18,
    }
}

/// Whether the event may take long: a slice, or what goes to a device or to the output.
pub fn takes_long(e: Event) -> bool {
    match kind_of(e) {
        Kind::Slice | Kind::Sync | Kind::Reply => true,
        _ => false,
    }
}

/// Whether the event is a slice.
pub fn is_slice(e: Event) -> bool {
    match e {
        Event::Run(_, _) => true,
        _ => false,
    }
}

/// Whether the event needs the ring, the book, the post or the desk.
pub fn needs_hub(e: Event) -> bool {
    match kind_of(e) {
        Kind::Slice | Kind::Complete | Kind::Sync => false,
        _ => true,
    }
}
