//! The reasons for which a host ends.
/// Why a host ended.
#[derive(Clone, Copy, Debug, PartialEq, Eq)]
pub enum Stop {
    /// No event is allowed any more.
    Quiet,
    /// The device of this log failed while a group was appended. The log is shut.
    LogFault(u8),
    /// The output failed while a reply was printed.
    OutFault,
    /// There was no memory.
    Memory,
}
