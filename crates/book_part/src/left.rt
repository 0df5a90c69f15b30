//! How many events the ACTs may still bring, and who is one. All that were admitted are walked through.
ghost use Rattle.std.specs.Prelude.{◌≡◌, ◌-◌, ◌^◌, min, map};
ghost use Rattle.protocol.specs.BookParts.{act_by, place_by, status_by};
ghost use Rattle.protocol.specs.Left.{act_left, joined_left, status_left, total};
ghost use Rattle.protocol.specs.Parts.{Book};
ghost use Rattle.protocol.specs.Words.{act_of, is_among};
ghost use Rattle.book_part.specs.Halves.{Shows};
ghost use Rattle.book_part.specs.Told.{left_told};

use crate::part::BookPart;
use act_commit::Acts;
use order_book::{Act, Mark};
use protocol::unless;
use snap_base::Tid;

impl BookPart {
    /// How many events the ACTs may still bring, and `u64::MAX` where more.
    pub fn left(&self) -> u64
        ensures { (b : Book) → Shows self.now b → result ≡ min (total act_left b.acts) (2 ^ 64 - 1) }
    {
        acts_left(self.orders.acts(), &self.votes)
    }

    /// Whether the transaction is an ACT.
    pub fn is_act(&self, t: Tid) -> bool
        ensures { result ≡ is_among t.0 (map (λ x. x.tid) self.now.orders.acts) }
    {
        self.orders.is_act(t)
    }
}

fn acts_left(acts: &[Act], votes: &Acts) -> u64
    ensures { result ≡ min (total (λ k. act_left (act_by (act_of k.act.tid votes.now.acts) k.act)) acts.now) (2 ^ 64 - 1) }
{
    let mut left: u64 = 0;
    for act in acts {
        left = left.saturating_add(act_left(act, votes));
    }
    left
}

fn act_left(act: &Act, votes: &Acts) -> u64
    ensures { result ≡ min (act_left (act_by (act_of act.now.act.tid votes.now.acts) act.now.act)) (2 ^ 64 - 1) }
{
    status_left(act, votes).saturating_add(marks_left(act.tid(), act.marks(), votes))
}

fn status_left(act: &Act, votes: &Acts) -> u64
    ensures { result ≡ status_left (status_by (act_of act.now.act.tid votes.now.acts) act.now.act.status) }
{
    left_told(
        act.is_undecided(),
        act.is_placed(),
        votes.is_decided(act.tid()),
    )
}

/// What the status of an ACT may still bring, as orders and votes tell it.
fn left_told(undecided: bool, placed: bool, decided: bool) -> u64
    ensures { result ≡ left_told undecided placed decided }
{
    if undecided {
        3
    } else if placed && decided {
        1
    } else {
        0
    }
}

fn marks_left(t: Tid, marks: &[Mark], votes: &Acts) -> u64
    ensures { result ≡ min (total (λ p. joined_left (place_by (act_of t.0 votes.now.acts) p)) marks.now) (2 ^ 64 - 1) }
{
    let mut left: u64 = 0;
    for mark in marks {
        left = left.saturating_add(mark_left(t, mark, votes));
    }
    left
}

fn mark_left(t: Tid, mark: &Mark, votes: &Acts) -> u64
    ensures { result ≡ joined_left (place_by (act_of t.0 votes.now.acts) mark.now) }
{
    let a = mark.actor();
    unless(votes.is_prepared(t, a), 2)
        + (unless(votes.is_vouched(t, a), 1) + unless(mark.is_finished(), 1))
}
