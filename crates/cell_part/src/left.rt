//! How many events what is on an actor may still bring. All of it is walked through.
ghost use Rattle.std.specs.Prelude.{◌≡◌, ◌+◌, ◌-◌, ◌^◌, min};
ghost use Rattle.protocol.specs.Left.{cell_left, outcome_left, total, waiting_left};

use crate::boxes::Boxes;
use crate::cell_part::CellPart;
use crate::outcome::Outcome;
use crate::waiting::Waiting;
use protocol::Visits;
use snap_base::Next;

impl<C: Drop> CellPart<C> {
    /// How many events the actor may still bring where there were so many cascades, and `u64::MAX` where more: a rollback for
    /// each cascade that it has not seen, and what its schedule and its boxes hold.
    pub fn left<W: Visits<C>>(&self, epoch: u64, visits: &W) -> u64
        ensures { result ≡ min (cell_left (W.code visits.now) (W.acts visits.now) epoch self.now.cell) (2 ^ 64 - 1) }
    {
        epoch
            .saturating_sub(self.schedule.epoch())
            .saturating_add(self.schedule.left())
            .saturating_add(self.boxes.left(visits))
    }
}

impl<C: Drop> Boxes<C> {
    fn left<W: Visits<C>>(&self, visits: &W) -> u64
        ensures { result ≡ min (total (waiting_left (W.code visits.now) (W.acts visits.now)) self.now.boxes.inbox + total (outcome_left (W.code visits.now) (W.acts visits.now)) self.now.boxes.outbox) (2 ^ 64 - 1) }
    {
        waiting_left(&self.inbox, visits).saturating_add(outcomes_left(&self.outbox, visits))
    }
}

fn waiting_left<C, W: Visits<C>>(inbox: &[Waiting<C>], visits: &W) -> u64
    ensures { result ≡ min (total (waiting_left (W.code visits.now) (W.acts visits.now)) inbox.now) (2 ^ 64 - 1) }
{
    let mut left: u64 = 0;
    for waiting in inbox {
        left = left.saturating_add(waiting.left(visits));
    }
    left
}

fn outcomes_left<C, W: Visits<C>>(outbox: &[Outcome<C>], visits: &W) -> u64
    ensures { result ≡ min (total (outcome_left (W.code visits.now) (W.acts visits.now)) outbox.now) (2 ^ 64 - 1) }
{
    let mut left: u64 = 0;
    for outcome in outbox {
        left = left.saturating_add(outcome.left(visits));
    }
    left
}

impl<C> Waiting<C> {
    fn left<W: Visits<C>>(&self, visits: &W) -> u64
        ensures { result ≡ min (waiting_left (W.code visits.now) (W.acts visits.now) self.now) (2 ^ 64 - 1) }
    {
        visits
            .cost_behind(self.tid, &self.control)
            .saturating_add(2)
    }
}

impl<C> Outcome<C> {
    fn left<W: Visits<C>>(&self, visits: &W) -> u64
        ensures { result ≡ min (outcome_left (W.code visits.now) (W.acts visits.now) self.now) (2 ^ 64 - 1) }
    {
        match &self.next {
            Next::Go(_, control) => visits
                .cost_behind(self.tid, control)
                .saturating_add(visits.cost(self.tid))
                .saturating_add(1),
            Next::Ended(_) => 1,
        }
    }
}
