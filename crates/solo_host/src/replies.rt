//! What is printed before a reply.
ghost use Rattle.std.specs.Prelude.{◌≡◌, ◌≤◌, ℕ, List, IsErrOf, MatchResult};
ghost use Rattle.protocol.specs.Events as machine;
ghost use Rattle.snap_core.specs.Cores.{IsAt, state_at};
ghost use Rattle.snap_outside.specs.Causes.{EndsAtFault};
ghost use Rattle.solo_host.specs.Outside.{IsReplied, IsNotReplied};

use run_effects::{Stop, write_all};
use snap_base::TxNo;
use snap_core::Core;
use snap_outside::Sink;
use snap_report::reply_line;
use std::alloc::Global;

/// Prints the line of transaction `n`, where its verdict is known.
pub(crate) fn before_reply<O: Sink>(
    alloc: Global,
    core: &Core,
    out: &mut O,
    n: TxNo,
) -> Result<(), Stop>
    ensures lines { MatchResult result
        (λ _. (es : List machine.Event) → IsAt core.now es → IsReplied (state_at core.now es) n.0 (O.taken out.old) (O.taken out.new))
        (λ stop. (es : List machine.Event) → IsAt core.now es → IsNotReplied (state_at core.now es) n.0 stop (O.taken out.old) (O.taken out.new) (O.faults out.old) (O.faults out.new)) }
    ensures later { O.faults out.old ≤ O.faults out.new }
    ensures once { EndsAtFault (¬ IsErrOf result Stop.OutFault) (O.faults out.old) (O.late out.old) (O.faults out.new) (O.late out.new) }
{
    let Some(verdict) = core.verdict(n) else {
        return Ok(());
    };
    let Ok(line) = reply_line(alloc, n, &verdict) else {
        return Err(Stop::Memory);
    };
    match write_all(out, line.as_bytes()) {
        Ok(()) => Ok(()),
        Err(_) => Err(Stop::OutFault),
    }
}
