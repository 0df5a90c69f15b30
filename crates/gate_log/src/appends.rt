//! The device calls of an append and of an upgrade, in their order.
ghost use Rattle.std.specs.Prelude.{◌≡◌, ◌+◌, ◌-◌, ◌<◌, ◌^◌, length, IsSome, OnOk, OnErr};
ghost use Rattle.std.specs.Option.{ForSome};
ghost use Rattle.snap_outside.specs.Causes.{HasCause};
ghost use Rattle.snap_outside.specs.Disk.{AddsAll, AddsUpToFault};
ghost use Rattle.gate_log.specs.Appends.{block_ops, upgrade_ops};

use snap_outside::{Failed, LogDev};

const OPEN: u8 = 1;

/// The mark of a log of format 2.
const SECOND_MARK: u8 = 50;

/// Makes a block durable behind the closed gate and then opens the gate. Where a call fails, the calls before it
/// have been made, and its own perhaps.
pub(crate) fn append_group<D: LogDev>(dev: &mut D, gate: u64, block: &[u8]) -> Result<(), Failed>
    requires known { IsSome (D.told_length dev.old) }
    requires within { ForSome (D.told_length dev.old) (λ len. gate < len) }
    requires fits { gate + length block.now < 2 ^ 64 - 1 }
    ensures done { OnOk result (AddsAll (D.told dev.old) (D.told dev.new) (block_ops gate block.now)) }
    ensures fault { OnErr result (AddsUpToFault (D.told dev.old) (D.told dev.new) (block_ops gate block.now)) }
    ensures known { OnOk result (IsSome (D.told_length dev.new)) }
    ensures within { OnOk result (ForSome (D.told_length dev.new) (λ len. gate + length block.now < len)) }
    ensures cause { HasCause (D.faults dev.old) (D.faults dev.new) result }
{
    dev.write_at(gate + 1, block)?;
    dev.sync()?;
    dev.write_at(gate, &[OPEN])?;
    dev.sync()
}

/// Writes the mark of format 2 and makes it durable. Where a call fails, the calls before it have been made, and its own
/// perhaps.
pub(crate) fn write_mark<D: LogDev>(dev: &mut D) -> Result<(), Failed>
    requires known { IsSome (D.told_length dev.old) }
    requires within { ForSome (D.told_length dev.old) (λ len. 8 < len) }
    ensures done { OnOk result (AddsAll (D.told dev.old) (D.told dev.new) upgrade_ops) }
    ensures fault { OnErr result (AddsUpToFault (D.told dev.old) (D.told dev.new) upgrade_ops) }
    ensures same { OnOk result (D.told_length dev.new ≡ D.told_length dev.old) }
    ensures cause { HasCause (D.faults dev.old) (D.faults dev.new) result }
{
    dev.write_at(7, &[SECOND_MARK])?;
    dev.sync()
}
