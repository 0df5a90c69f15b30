//! Writes bytes to a sink until it has taken them all.
ghost use Rattle.std.specs.Prelude.{ℕ, List, ◌≡◌, ◌≤◌, ◌++◌, IsOk, OnOk, OnErr};
ghost use Rattle.std.specs.Io.KnownBytes.{Appends};
ghost use Rattle.snap_outside.specs.Causes.{HasCause, EndsAtFault};

use snap_outside::{Failed, Sink};

/// Writes all bytes to the sink, in as many calls as it needs. `Failed` is told where a call of the sink fails: it has then taken
/// a prefix of the bytes, and gets no further call.
pub fn write_all<O: Sink>(out: &mut O, bytes: &[u8]) -> Result<(), Failed>
    ensures whole { OnOk result (Appends (O.taken out.old) (O.taken out.new) bytes.now) }
    ensures front { OnErr result ((front rest : List ℕ) × (bytes.now ≡ front ++ rest) × Appends (O.taken out.old) (O.taken out.new) front) }
    ensures cause { HasCause (O.faults out.old) (O.faults out.new) result }
    // No call is made after one that failed.
    ensures once { EndsAtFault (IsOk result) (O.faults out.old) (O.late out.old) (O.faults out.new) (O.late out.new) }
{
    let mut at = 0;
    while at < bytes.len() {
        at += out.write(&bytes[at..])?;
    }
    Ok(())
}
