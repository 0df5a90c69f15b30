//! Bytes are written to a sink, and how many of them it took is told.
ghost use Rattle.std.specs.Prelude.{◌<◌, ◌≤◌, length, take};
ghost use Rattle.std.specs.Io.KnownBytes.{Appends};
ghost use Rattle.snap_outside.specs.Causes.{EndsAtFault, Rose};

use snap_outside::Sink;

/// Writes the bytes to the sink, in as many calls as it needs, up to the first that fails. How many bytes it took: fewer than all
/// only where a call failed.
pub(crate) fn write_front<O: Sink>(out: &mut O, bytes: &[u8]) -> usize
    ensures within { result ≤ length bytes.now }
    ensures taken { Appends (O.taken out.old) (O.taken out.new) (take result bytes.now) }
    ensures later { O.faults out.old ≤ O.faults out.new }
    ensures rose { result < length bytes.now → Rose (O.faults out.old) (O.faults out.new) }
    ensures once { EndsAtFault (length bytes.now ≤ result) (O.faults out.old) (O.late out.old) (O.faults out.new) (O.late out.new) }
{
    let mut at = 0;
    while at < bytes.len() {
        match out.write(&bytes[at..]) {
            Ok(count) => at += count,
            Err(_) => return at,
        }
    }
    at
}
