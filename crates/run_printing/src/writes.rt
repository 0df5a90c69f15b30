//! A text written whole, or a front of it.
ghost use Rattle.std.specs.Prelude.{◌≡◌, ◌≤◌, IsErrOf, IsOkUnless, OnOk, OnErr};
ghost use Rattle.std.specs.Io.KnownBytes.{Appends};
ghost use Rattle.run_printing.specs.Printed.{AppendsFront};
ghost use Rattle.snap_outside.specs.Causes.{Rose, EndsAtFault};

use run_effects::write_all;
use snap_base::Memory;
use snap_outside::Sink;

/// Why a text is not written whole.
#[derive(Clone, Copy, Debug, PartialEq, Eq)]
pub enum WriteNo {
    /// The sink failed: a front of the text is written.
    Fault,
    /// There was no memory for the text, or for the next piece of it.
    Memory,
}

impl From<Memory> for WriteNo {
    ghost use Rattle.std.specs.Prelude.{◌≡◌};
    ghost use Rattle.run_printing.specs.declared.writes.WriteNo.TheVariants as writing;

    ghost from_gives = { λ _ e. e ≡ writing.Memory };

    fn from(_error: Memory) -> WriteNo {
        WriteNo::Memory
    }
}

/// Writes a text whole, or a front of it where the sink fails.
pub(crate) fn write_text<O: Sink>(out: &mut O, text: &str) -> Result<(), WriteNo>
    ensures whole { OnOk result (Appends (O.taken out.old) (O.taken out.new) text.now) }
    ensures front { OnErr result (AppendsFront (O.taken out.old) (O.taken out.new) text.now) }
    ensures fault { OnErr result (Rose (O.faults out.old) (O.faults out.new)) }
    ensures only { IsOkUnless result WriteNo.Fault }
    ensures later { O.faults out.old ≤ O.faults out.new }
    ensures once { EndsAtFault (¬ IsErrOf result WriteNo.Fault) (O.faults out.old) (O.late out.old) (O.faults out.new) (O.late out.new) }
{
    match write_all(out, text.as_bytes()) {
        Ok(()) => Ok(()),
        Err(_failed) => Err(WriteNo::Fault),
    }
}
