//! What may happen next.
ghost use Rattle.std.specs.Prelude.{List, IfOk};
ghost use Rattle.protocol.specs.Events as machine;
ghost use Rattle.protocol.specs.Schedule.{IsEnabled};
ghost use Rattle.snap_core.specs.Cores.{IsAt, state_at};
ghost use Rattle.snap_hand.specs.Tables.{fixed_of};

use crate::Core;
use crate::cores::runs_lead;
use ready_list::ReadyList;
use ready_listing::offers;
use snap_base::Memory;
use std::alloc::Global;

impl Core {
    /// All events that are allowed now, in the order in which a host takes them: by kind, then by the first number, then by
    /// the second. It walks through what is live, and the transactions from the first one without a reply on. An `Err` is want of
    /// memory, and then there is no list.
    pub fn enabled(&self, alloc: Global) -> Result<ReadyList, Memory>
        ensures { IfOk result (λ l. (es : List machine.Event) → IsAt self.now es → IsEnabled (fixed_of self.now.tables) (state_at self.now es) l.events) }
    {
        runs_lead(&self.tables);
        offers(alloc, &self.tables, &self.hand)
    }
}
