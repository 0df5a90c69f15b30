//! Why a text gives no events.
ghost use Rattle.std.specs.Prelude.{◌≡◌};
ghost use Rattle.trace_text.specs.declared.trace_no.TraceNo.TheVariants.{Memory};

use std::alloc::{AllocError, AllocFailed};

/// Why a text gives no events.
#[derive(Clone, Copy, Debug, PartialEq, Eq)]
pub enum TraceNo {
    /// The first line that is of no event; lines count from 1.
    Line { line: u32 },
    /// There was no memory.
    Memory,
}

impl From<AllocError> for TraceNo {
    ghost from_gives = { λ _ e. e ≡ Memory };

    fn from(_error: AllocError) -> TraceNo {
        TraceNo::Memory
    }
}

impl<T: Drop> From<AllocFailed<T>> for TraceNo {
    ghost from_gives = { λ _ e. e ≡ Memory };

    fn from(_error: AllocFailed<T>) -> TraceNo {
        TraceNo::Memory
    }
}
