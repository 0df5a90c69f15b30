//! Why a text gives no lines of a report.
ghost use Rattle.std.specs.Prelude.{◌≡◌};
ghost use Rattle.audit_papers.specs.declared.report_no.ReportNo.TheVariants.{Memory};

use std::alloc::{AllocError, AllocFailed};

/// Why a text gives no lines of a report.
#[derive(Clone, Copy, Debug, PartialEq, Eq)]
pub enum ReportNo {
    /// The first line that is of no form; lines count from 1.
    Line { line: u32 },
    /// There was no memory.
    Memory,
}

impl From<AllocError> for ReportNo {
    ghost from_gives = { λ _ e. e ≡ Memory };

    fn from(_error: AllocError) -> ReportNo {
        ReportNo::Memory
    }
}

impl<T: Drop> From<AllocFailed<T>> for ReportNo {
    ghost from_gives = { λ _ e. e ≡ Memory };

    fn from(_error: AllocFailed<T>) -> ReportNo {
        ReportNo::Memory
    }
}
