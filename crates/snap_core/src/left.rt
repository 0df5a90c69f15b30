//! How many events may still come.
ghost use Rattle.std.specs.Prelude.{◌≡◌, List};
ghost use Rattle.protocol.specs.Events as machine;
ghost use Rattle.protocol.specs.Left.{left};
ghost use Rattle.snap_core.specs.Cores.{IsAt, state_at};
ghost use Rattle.snap_hand.specs.Tables.{fixed_of};

use crate::Core;
use crate::cores::runs_lead;
use aml_slice::Control;
use protocol_theorems::{every_run_ends, sizes_hold};

impl Core {
    /// How many events may still come, at most. Every event lowers it, and at the opening it is at most 1,024 for each
    /// transaction of the text. It walks through all that the core holds, also what is over.
    pub fn left(&self) -> u64
        ensures { (es : List machine.Event) → IsAt self.now es → result ≡ left (fixed_of self.now.tables) (state_at self.now es) }
    {
        runs_lead(&self.tables);
        sizes_hold::<Control>();
        every_run_ends::<Control>();
        self.hand.left(&self.tables)
    }
}
