//! Why an input is not told to be the papers of a run.
ghost use Rattle.std.specs.Prelude.{◌≡◌};
ghost use Rattle.trace_audit.specs.AuditNos.{no_report, no_trace, no_work};
ghost use Rattle.trace_audit.specs.declared.audit_no.AuditNo.TheVariants as no;

use audit_papers::ReportNo;
use snap_base::Memory;
use snap_report::AuditFault;
use snap_work::WorkNo;
use std::alloc::{AllocError, AllocFailed};
use trace_text::TraceNo;

/// Why an input is not told to be the papers of a run.
#[derive(Clone, Copy, Debug, PartialEq, Eq)]
pub enum AuditNo {
    /// What is wrong with it first.
    Fault(AuditFault),
    /// There was no memory.
    Memory,
}

impl From<AllocError> for AuditNo {
    ghost from_gives = { λ _ e. e ≡ no.Memory };

    fn from(_error: AllocError) -> AuditNo {
        AuditNo::Memory
    }
}

impl<T: Drop> From<AllocFailed<T>> for AuditNo {
    ghost from_gives = { λ _ e. e ≡ no.Memory };

    fn from(_error: AllocFailed<T>) -> AuditNo {
        AuditNo::Memory
    }
}

impl From<Memory> for AuditNo {
    ghost from_gives = { λ _ e. e ≡ no.Memory };

    fn from(_error: Memory) -> AuditNo {
        AuditNo::Memory
    }
}

impl From<WorkNo> for AuditNo {
    ghost from_gives = { λ x e. e ≡ no_work x };

    fn from(error: WorkNo) -> AuditNo {
        match error {
            WorkNo::Fault(fault) => AuditNo::Fault(AuditFault::Text(fault)),
            WorkNo::Memory => AuditNo::Memory,
        }
    }
}

impl From<TraceNo> for AuditNo {
    ghost from_gives = { λ x e. e ≡ no_trace x };

    fn from(error: TraceNo) -> AuditNo {
        match error {
            TraceNo::Line { line } => AuditNo::Fault(AuditFault::Trace { line }),
            TraceNo::Memory => AuditNo::Memory,
        }
    }
}

impl From<ReportNo> for AuditNo {
    ghost from_gives = { λ x e. e ≡ no_report x };

    fn from(error: ReportNo) -> AuditNo {
        match error {
            ReportNo::Line { line } => AuditNo::Fault(AuditFault::Report { line }),
            ReportNo::Memory => AuditNo::Memory,
        }
    }
}
