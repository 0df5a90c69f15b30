//! The lines of a report, as values.
use snap_base::{ActorId, Place, Sequence, TxNo, Verdict};

/// A line of a report. Contracts see the line of `audit_words` that it is, by `line_of`.
#[derive(Drop)]
pub enum ReportLine {
    /// The reply to a transaction: what became of it.
    Reply {
        tx: TxNo,
        verdict: Verdict,
    },
    /// The fields of an actor, as they are printed.
    Actor {
        actor: ActorId,
        fields: Sequence<i64>,
    },
    /// The end of a run: how many transactions committed, how many had another reply, and how many batches settled.
    End {
        committed: u64,
        aborted: u64,
        batches: u64,
    },
    /// A transaction that logs kept: its place, and its value where that is known.
    Kept {
        place: Place,
        value: Option<i64>,
    },
    /// What logs recover to: how many batches and ACTs committed, and the numbers that are drawn next.
    Recovered {
        batches: u64,
        acts: u64,
        next_tid: u64,
        next_bid: u64,
        next_c: u64,
    },
}
