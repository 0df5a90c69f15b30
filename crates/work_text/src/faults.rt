//! A fault at a line.

ghost use Rattle.std.specs.Prelude.{◌≡◌};
ghost use Rattle.snap_work.specs.declared.faults.WorkNo.TheVariants as no;

use snap_work::{WorkCause, WorkFault, WorkNo};

/// A fault of a line.
pub(crate) fn at_line(line: u32, cause: WorkCause) -> WorkNo
    ensures { result ≡ no.Fault (record { line = line; cause = cause }) }
{
    WorkNo::Fault(WorkFault { line, cause })
}
