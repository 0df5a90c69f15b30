//! What a core tells: its text, what became of a transaction, an actor's state, and the records that wait for a sync.
ghost use Rattle.std.specs.Prelude.{◌≡◌, ◌<◌, List, length, map, drop};
ghost use Rattle.snap_hand.specs.log_set.Shown.{told_bytes};
ghost use Rattle.protocol.specs.Effects.{cell_at, log_at};
ghost use Rattle.protocol.specs.Events as machine;
ghost use Rattle.protocol.specs.Verdicts.{verdict};
ghost use Rattle.snap_core.specs.Cores.{IsAt, state_at};
ghost use Rattle.snap_hand.specs.Tables.{AreTables};

use crate::Core;
use snap_base::{ActorId, Sequence, State, TxNo, Verdict};
use snap_hand::Tables;

impl Core {
    /// The text that it runs, which is accepted, and what its logs recovered to.
    pub fn tables(&self) -> &Tables
        ensures same { result.now ≡ self.now.tables }
        ensures accepted { AreTables result.now }
    {
        &self.tables
    }

    /// What became of transaction `n` of the text, which counts from 0; `None` where it is not known yet, or the text has no such
    /// transaction.
    pub fn verdict(&self, n: TxNo) -> Option<Verdict>
        ensures { (es : List machine.Event) → IsAt self.now es → result ≡ verdict n.0 (state_at self.now es).book (state_at self.now es).desk }
    {
        self.hand.verdict(n)
    }

    /// The state of actor `a` as it is now, also what transactions under way have written there. The text must have the actor.
    pub fn state(&self, a: ActorId) -> State
        requires { a.0 < length self.now.tables.opening.states }
        ensures { (es : List machine.Event) → IsAt self.now es → result ≡ (cell_at (state_at self.now es) a.0).state }
    {
        self.hand.state(a)
    }

    /// The records of log `l` that wait for a sync: the bytes of each, in the order in which they were added. The text must have
    /// the log.
    pub fn group(&self, l: u8) -> &[Sequence<u8>]
        requires { l < self.now.tables.work.logs }
        ensures { (es : List machine.Event) → IsAt self.now es → result.now ≡ map told_bytes (drop (log_at (state_at self.now es) l).synced (log_at (state_at self.now es) l).records) }
    {
        self.hand.group(l)
    }
}
