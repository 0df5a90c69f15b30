//! What parts count when they tell how many events may still come.
ghost use Rattle.std.specs.Prelude.{◌≡◌, ◌*◌, ◌≤◌};
ghost use Rattle.protocol.specs.Left as left;
ghost use Rattle.protocol.specs.Words.{is_among};

use snap_base::Tid;

/// Who knows which transactions are ACTs, and how many visits are left to a control: from that the parts that hold
/// controls tell how many events these may still bring.
pub trait Visits<C> {
    ghost use Rattle.std.specs.Prelude.{ℕ, List};
    ghost use Rattle.protocol.specs.Fixed.{Code};

    /// The code of the controls.
    ghost code: { Self → Code C };

    /// The tids of the ACTs.
    ghost acts: { Self → List ℕ };

    /// How many events one visit of the transaction's control to an actor may still bring.
    fn cost(&self, tid: Tid) -> u64
        ensures { result ≡ left.visit (is_among tid.0 (acts self.now)) };

    /// How many events the visits that are left to the transaction's control behind this one may still bring.
    fn cost_behind(&self, tid: Tid, control: &C) -> u64
        ensures { result ≡ left.visit (is_among tid.0 (acts self.now)) * left.rest (code self.now) control.now };
}

/// The count, or 0 where it is done.
pub fn unless(done: bool, count: u64) -> u64
    ensures value { result ≡ left.unless done count }
    ensures within { result ≤ count }
{
    if done { 0 } else { count }
}
