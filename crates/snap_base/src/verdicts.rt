//! Places in the serial order, and what became of a transaction, with their texts.
use crate::{ActorId, Bid, Tid, TxNo};
use std::fmt;

/// A transaction's place in the serial order. Places are compared by batch, then side, then order.
#[derive(Clone, Copy, Debug, PartialEq, Eq, PartialOrd, Ord, Hash)]
pub struct Place {
    /// Of a PACT its batch; of an ACT the greatest batch before it.
    pub batch: Bid,
    /// 0 for a PACT, 1 for an ACT.
    pub side: u8,
    /// Of a PACT its tid, of an ACT its commit number.
    pub order: u64,
}

/// What became of a transaction.
#[derive(Clone, Copy, Debug, PartialEq, Eq, Hash)]
pub enum Verdict {
    /// The transaction committed with a value.
    Committed {
        place: Place,
        value: i64,
    },
    /// An ACT failed by its own code; no effect is left.
    Code {
        place: Place,
        code: u16,
    },
    /// A PACT failed by its own code and took its batch with it. `at` is the commit number that the
    /// next ACT would have drawn.
    BatchCode {
        batch: Bid,
        at: u64,
        code: u16,
    },
    /// A failing PACT, `by`, of `batch` took it along.
    Cascade {
        batch: Bid,
        by: TxNo,
    },
    /// An ACT met an older one that holds the actor, and gave way.
    Died {
        actor: ActorId,
        older: Tid,
        own: Tid,
    },
    /// An ACT stands behind batch `before` and ahead of batch `after`, which is not above it.
    Order {
        before: Bid,
        after: Bid,
        actor: ActorId,
    },
    /// A log failed before the transaction's fate was known.
    Unsure {
        log: u8,
    },
}

impl fmt::Display for Place {
    ghost use Rattle.std.specs.Prelude.{Some};
    ghost use Rattle.snap_base.specs.Text.{place_text};

    ghost output = { λ p. Some (place_text p) };

    fn fmt<W: fmt::Write>(&self, f: &mut fmt::Formatter<W>) -> fmt::Result {
        let Place { batch, side, order } = *self;
        write!(f, "{batch}.{side}.{order}")
    }
}

impl fmt::Display for Verdict {
    ghost use Rattle.std.specs.Prelude.{Some};
    ghost use Rattle.snap_base.specs.Text.{verdict_text};

    ghost output = { λ v. Some (verdict_text v) };

    fn fmt<W: fmt::Write>(&self, f: &mut fmt::Formatter<W>) -> fmt::Result {
        match *self {
            Verdict::Committed { place, value } => write!(f, "committed {place} {value}"),
            Verdict::Code { place, code } => write!(f, "code {place} {code}"),
            Verdict::BatchCode { batch, at, code } => write!(f, "batchcode {batch} {at} {code}"),
            Verdict::Cascade { batch, by } => write!(f, "cascade {batch} {by}"),
            Verdict::Died { actor, older, own } => {
                write!(f, "died actor {actor} older {older} own {own}")
            }
            Verdict::Order {
                before,
                after,
                actor,
            } => write!(f, "order before {before} after {after} actor {actor}"),
            Verdict::Unsure { log } => write!(f, "unsure {log}"),
        }
    }
}
