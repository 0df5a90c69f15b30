//! What is wrong with the input of an audit.

use snap_work::WorkFault;

/// What is wrong with the input of an audit first, in the order in which it is looked for.
#[derive(Clone, Copy, Debug, PartialEq, Eq)]
pub enum AuditFault {
    /// A divider is lacking.
    Parts,
    /// The text stands for no work: its first fault.
    Text(WorkFault),
    /// The first line of the trace that is of no event; lines count from 1.
    Trace { line: u32 },
    /// The first line of the report that is of no form; lines count from 1.
    Report { line: u32 },
    /// The first clause that is false, 1 to 6, and where: the first clause at an event, from 0 on, the others at a line of the
    /// report, from 1 on.
    Clause { clause: u8, at: u64 },
}
