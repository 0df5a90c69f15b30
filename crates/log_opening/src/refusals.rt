//! Why logs are not opened, or give no opening.
ghost use Rattle.std.specs.Prelude.{◌≡◌, ◌+◌, ◌<◌, List, IfSome};
ghost use Rattle.txn_records.specs.declared.records.Record.{Record};
ghost use Rattle.log_compact.specs.declared.refusals.FoldNo.TheVariants.{Recover};
ghost use Rattle.log_compact.specs.Refusals.{IsNotFolded};
ghost use Rattle.log_opening.specs.Found.{IsFoldCause, IsNoFold, log_named, no_of_opening};

use gate_log::OpenNo;
use log_compact::FoldNo;
use snap_recover::{LogCause, RecoverNo};

/// Why logs are not opened, or give no opening. A log is named by its device, 0 to 3. `Refused` says what a log holds that is refused,
/// and no other call was made of its device but those of opening and, where it is of format 1 and has no item, of an upgrade; `offset`
/// is the place in the file, where the file or one of its records is the cause, and else 0.
#[derive(Clone, Copy, Debug, PartialEq, Eq)]
pub enum LogsNo {
    /// What the logs hold is refused.
    Refused {
        log: u8,
        offset: u64,
        cause: LogCause,
    },
    /// The device that holds this log failed.
    Device {
        log: u8,
    },
    /// There was no memory.
    Memory,
}

/// Why logs are not opened, where the opening of this one is refused.
pub fn of_opening(no: OpenNo, log: u8) -> LogsNo
    ensures { result ≡ no_of_opening log no }
{
    match no {
        OpenNo::NotALog { offset } => LogsNo::Refused {
            log,
            offset,
            cause: LogCause::NotALog,
        },
        OpenNo::Damage { offset } => LogsNo::Refused {
            log,
            offset,
            cause: LogCause::Damage,
        },
        OpenNo::Device => LogsNo::Device { log },
        OpenNo::Memory => LogsNo::Memory,
    }
}

/// Why logs give no opening, where the records of those in use fold to nothing. The first of these lies on this device.
pub(crate) fn of_fold(no: FoldNo, head: u8) -> LogsNo
    requires { head + log_named no < 256 }
    ensures { (lists : List (List Record)) → IsNotFolded lists no → IsNoFold head lists result }
{
    match cause_of(no) {
        Some((number, cause)) => LogsNo::Refused {
            log: head + number,
            offset: 0,
            cause,
        },
        None => LogsNo::Memory,
    }
}

/// The log in use that the answer names, and the cause; `None` where it is want of memory.
fn cause_of(no: FoldNo) -> Option<(u8, LogCause)>
    ensures { IfSome result (λ x. (x.0 ≡ log_named no) × ((lists : List (List Record)) → IsNotFolded lists no → IsFoldCause lists x.0 x.1)) }
{
    match no {
        FoldNo::Stray { log } => Some((log, LogCause::Stray)),
        FoldNo::Range { key, log } => Some((log, LogCause::Range { key })),
        FoldNo::Recover(why) => recovery_cause(why),
        FoldNo::Memory => None,
    }
}

/// The log in use that the answer names, and the cause, where the logs without their checkpoint recover to nothing.
fn recovery_cause(no: RecoverNo) -> Option<(u8, LogCause)>
    ensures { IfSome result (λ x. (x.0 ≡ log_named (Recover no)) × ((lists : List (List Record)) → IsNotFolded lists (Recover no) → IsFoldCause lists x.0 x.1)) }
{
    match no {
        RecoverNo::NoGenesis => Some((0, LogCause::NoGenesis)),
        RecoverNo::TwoGenesis => Some((0, LogCause::TwoGenesis)),
        RecoverNo::LogCount { kept, found } => Some((0, LogCause::LogCount { kept, found })),
        RecoverNo::Range { key, log } => Some((log, LogCause::Range { key })),
        RecoverNo::Missing { key, log } => Some((log, LogCause::Missing { key })),
        RecoverNo::Values {
            key,
            log,
            kept,
            found,
        } => Some((log, LogCause::Values { key, kept, found })),
        RecoverNo::Memory => None,
    }
}
