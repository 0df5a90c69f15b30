//! How an ACT stands: undecided, given up or placed.
ghost use Rattle.std.specs.Prelude.{◌≡◌, false, if◌then◌else◌, nat_le};
ghost use Rattle.std.specs.Option.{option_map};
ghost use Rattle.protocol.specs.Parts.{Doomed};
ghost use Rattle.protocol.specs.Words.{is_live_status, is_doomed, is_ordered};
ghost use Rattle.protocol.specs.Verdicts.{taken_along};
ghost use Rattle.protocol.specs.OnBook.{decided_status};
ghost use Rattle.order_book.specs.Fates.{status_of_fate, bid_number, given_up_if, crossed};

use snap_base::{ActorId, Bid, TxNo, Verdict};

/// How an ACT stands.
#[derive(Clone, Copy)]
pub(crate) enum Fate {
    Undecided,
    GivenUp(Verdict),
    /// It has its place in the serial order.
    Placed,
}

impl Fate {
    /// Given up for this reason, where it is undecided: the first doom stays.
    pub(crate) fn given_up(self, why: Verdict) -> Fate
        ensures { status_of_fate result ≡ (if is_live_status (status_of_fate self) then Doomed why else status_of_fate self) }
    {
        match self {
            Fate::Undecided => Fate::GivenUp(why),
            Fate::GivenUp(first) => Fate::GivenUp(first),
            Fate::Placed => Fate::Placed,
        }
    }

    /// Given up at an event on the actor, where its numbers cross.
    pub(crate) fn crossed(self, before: Bid, after: Option<Bid>, actor: ActorId) -> Fate
        ensures { status_of_fate result ≡ crossed before.0 (option_map bid_number after) actor.0 (status_of_fate self) }
    {
        match after {
            Some(after) if after.0 <= before.0 => self.given_up(Verdict::Order {
                before,
                after,
                actor,
            }),
            _ => self,
        }
    }

    /// Given up where it stands behind a batch that is aborted from `bid` on.
    pub(crate) fn taken_along(self, before: Bid, bid: Bid, by: TxNo) -> Fate
        ensures { status_of_fate result ≡ given_up_if (nat_le bid.0 before.0) (taken_along bid.0 by.0) (status_of_fate self) }
    {
        if bid.0 <= before.0 {
            self.given_up(Verdict::Cascade { batch: bid, by })
        } else {
            self
        }
    }

    /// With its place, where it is undecided.
    pub(crate) fn placed(self) -> Fate
        ensures { status_of_fate result ≡ decided_status 0 false (status_of_fate self) }
    {
        match self {
            Fate::Undecided => Fate::Placed,
            Fate::GivenUp(why) => Fate::GivenUp(why),
            Fate::Placed => Fate::Placed,
        }
    }

    pub(crate) fn is_undecided(self) -> bool
        ensures { result ≡ is_live_status (status_of_fate self) }
    {
        matches!(self, Fate::Undecided)
    }

    pub(crate) fn is_given_up(self) -> bool
        ensures { result ≡ is_doomed (status_of_fate self) }
    {
        matches!(self, Fate::GivenUp(_))
    }

    pub(crate) fn is_placed(self) -> bool
        ensures { result ≡ is_ordered (status_of_fate self) }
    {
        matches!(self, Fate::Placed)
    }
}
