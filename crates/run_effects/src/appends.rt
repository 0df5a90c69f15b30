//! The append of one group to an open log.
ghost use Rattle.std.specs.Prelude.{◌≡◌, false, MatchResult};
ghost use Rattle.record_log.specs.gate_log.Device.{MayAppend};
ghost use Rattle.run_effects.specs.Appending.{IsAppended, IsNotAppended};

use record_log::{AppendNo, Log};
use snap_base::Sequence;
use snap_outside::LogDev;
use std::alloc::Global;

/// Appends the pieces to an open log of format 2, as one group. Where the device fails, a prefix of what the append writes may
/// be on it, the gate stands where it stood, and the log is shut. `Memory` leaves the log as it was. `Shut` cannot come.
pub fn append_pieces<D: LogDev>(
    alloc: Global,
    log: &mut Log<D>,
    pieces: &[Sequence<u8>],
) -> Result<(), AppendNo>
    requires may { MayAppend log.old.end pieces.now }
    requires open { log.old.shut ≡ false }
    requires format { log.old.format ≡ 2 }
    ensures found { log.new.found ≡ log.old.found }
    ensures appended { MatchResult result (λ _. IsAppended log.old log.new pieces.now) (λ no. IsNotAppended log.old log.new pieces.now no) }
{
    log.append(alloc, pieces)
}
