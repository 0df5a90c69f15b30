//! What a hand tells: what became of a transaction, an actor's state, and the records that wait for a sync. Each answer is
//! about every state that the hand fits.
ghost use Rattle.std.specs.Prelude.{◌≡◌, ◌<◌, length, map, drop};
ghost use Rattle.aml_slice.specs.Controls.{Rest};
ghost use Rattle.core_rows.specs.log_set.Shown.{told_bytes};
ghost use Rattle.protocol.specs.Effects.{cell_at, log_at};
ghost use Rattle.protocol.specs.Events.{book, desk, log, cell};
ghost use Rattle.protocol.specs.Parts.{Machine};
ghost use Rattle.protocol.specs.Verdicts.{verdict};
ghost use Rattle.snap_hand.specs.Hands.{Fits, Has};

use crate::Hand;
use snap_base::{ActorId, Sequence, State, TxNo, Verdict};

impl Hand {
    /// What became of transaction `n` of the text, which counts from 0; `None` where it is not known yet, or the text has no such
    /// transaction. The book and the desk must be at hand.
    pub fn verdict(&self, n: TxNo) -> Option<Verdict>
        requires book { Has self.now book }
        requires desk { Has self.now desk }
        ensures { (s : Machine Rest) → Fits self.now s → result ≡ verdict n.0 s.book s.desk }
    {
        core_rows::verdict(self.book(), self.desk(), n)
    }

    /// The state of actor `a` as its cell has it now, also what transactions under way have written there. The text must have the
    /// actor, and its cell must be at hand.
    pub fn state(&self, a: ActorId) -> State
        requires actor { a.0 < length self.now.cells }
        requires cell { Has self.now (cell (length self.now.logs) a.0) }
        ensures { (s : Machine Rest) → Fits self.now s → result ≡ (cell_at s a.0).state }
    {
        self.cell(a).state()
    }

    /// The records of log `l` that wait for a sync: the bytes of each, in the order in which they were added. The text must have
    /// the log, and it must be at hand.
    pub fn group(&self, l: u8) -> &[Sequence<u8>]
        requires exists { l < length self.now.logs }
        requires log { Has self.now (log l) }
        ensures { (s : Machine Rest) → Fits self.now s → result.now ≡ map told_bytes (drop (log_at s l).synced (log_at s l).records) }
    {
        self.log(l as usize).group()
    }
}
