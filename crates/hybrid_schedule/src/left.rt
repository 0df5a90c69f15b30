//! How many events what stands on a schedule may still bring. It is walked once.
ghost use Rattle.std.specs.Prelude.{◌≡◌, ◌-◌, ◌^◌, min};
ghost use Rattle.protocol.specs.Left.{entry_left, total};

use crate::entries::Entry;
use crate::schedule::Schedule;

impl Schedule {
    /// How many events the batches that stand here may still bring here, and `u64::MAX` where more.
    pub fn left(&self) -> u64
        ensures { result ≡ min (total entry_left self.now.schedule.entries) (2 ^ 64 - 1) }
    {
        left_among(&self.entries)
    }
}

fn left_among(entries: &[Entry]) -> u64
    ensures { result ≡ min (total entry_left entries.now) (2 ^ 64 - 1) }
{
    let mut left: u64 = 0;
    for entry in entries {
        left = left.saturating_add(entry.left());
    }
    left
}
