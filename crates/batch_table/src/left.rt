//! How many events may still come of what is at the desk. Each walks all of it.
ghost use Rattle.std.specs.Prelude.{◌≡◌, ◌-◌, ◌^◌, min};
ghost use Rattle.protocol.specs.Left.{batch_left, reply_left, total};

use crate::batches::BatchEntry;
use crate::desk::Desk;

impl Desk {
    /// How many events the batches may still bring, and `u64::MAX` where more.
    pub fn batches_left(&self) -> u64
        ensures { result ≡ min (total batch_left self.now.batches) (2 ^ 64 - 1) }
    {
        left_among(self.batches.as_slice())
    }

    /// How many replies are still to come, and `u64::MAX` where more are.
    pub fn replies_left(&self) -> u64
        ensures { result ≡ min (total reply_left self.now.replied) (2 ^ 64 - 1) }
    {
        self.replied.left()
    }
}

fn left_among(batches: &[BatchEntry]) -> u64
    ensures { result ≡ min (total batch_left batches.now) (2 ^ 64 - 1) }
{
    let mut left: u64 = 0;
    for batch in batches {
        left = left.saturating_add(batch.left());
    }
    left
}
