//! What became of all transactions of the text.
ghost use Rattle.std.specs.Prelude.{◌≡◌, List, length, IfOk};
ghost use Rattle.protocol.specs.Events as machine;
ghost use Rattle.snap_core.specs.AllVerdicts.{verdicts_in};
ghost use Rattle.snap_core.specs.Cores.{IsAt, state_at};

use crate::Core;
use snap_base::{Memory, TxNo, Verdict};
use std::alloc::Global;

impl Core {
    /// What became of each transaction, in the order of the text; `None` where it is not known yet. An `Err` is want of memory.
    pub fn verdicts(&self, alloc: Global) -> Result<Vec<Option<Verdict>>, Memory>
        ensures { IfOk result (λ all. (es : List machine.Event) → IsAt self.now es → all.items ≡ verdicts_in (state_at self.now es) (length self.now.tables.work.txs)) }
    {
        let count = self.tx_count();
        let mut all = Vec::with_capacity(alloc, count as usize)?;
        for n in 0..count {
            all.push(self.verdict(TxNo(n)))?;
        }
        Ok(all)
    }

    // How many transactions the text has.
    fn tx_count(&self) -> u32
        ensures { result ≡ length self.now.tables.work.txs }
    {
        self.tables().work.txs.len() as u32
    }
}
