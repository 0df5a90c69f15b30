//! What is wrong with a work text, and where.

ghost use Rattle.std.specs.Prelude.{◌≡◌};
ghost use Rattle.snap_work.specs.declared.faults.WorkNo.TheVariants.{Memory};

use aml_resolver::CheckCause;
use aml_tokens::TextCause;
use std::alloc::{AllocError, AllocFailed};

/// A number in a work text that has a range.
#[derive(Clone, Copy, Debug, PartialEq, Eq, Hash)]
pub enum Limit {
    /// Bytes of the text, at most `LONGEST_WORK`.
    Input,
    /// Coordinators, 1 to `MOST_COORDINATORS`.
    Coordinators,
    /// Logs, 1 to `MOST_LOGS`.
    Logs,
    /// Transactions of a batch, 1 to `MOST_IN_A_BATCH`.
    Batch,
    /// Live batches, 1 to `MOST_BATCHES`.
    Batches,
    /// Live ACTs, 1 to `MOST_ACTS`.
    Acts,
    /// Actors, 1 to `MOST_ACTORS`.
    Actors,
    /// Values in an actor's line, at most `snap_base::FIELDS`.
    Fields,
    /// Actors that a PACT declares, at most `aml_check::MOST_CALLED_ACTORS`.
    Uses,
    /// Transactions, at most `MOST_TRANSACTIONS`.
    Transactions,
}

/// What is wrong with the program of a work text.
#[derive(Clone, Copy, Debug, PartialEq, Eq, Hash)]
pub enum ProgramCause {
    /// It is no text of a program; the column is the byte's place in the fault's line, from 1 on.
    Text { cause: TextCause, column: u32 },
    /// Its names, ends or promises are wrong.
    Check(CheckCause),
}

/// Why a text stands for no work.
#[derive(Clone, Copy, Debug, PartialEq, Eq, Hash)]
pub enum WorkCause {
    NotUtf8,
    /// A line is not the one that its place asks for, or the text ends too early.
    BadHeader,
    Program(ProgramCause),
    /// A line of an actor has not its form, or does not name an actor above the one before it.
    BadActor,
    /// A line of a transaction has not its form, or asks for what there is not.
    BadTx,
    /// A number is out of its range; `found` is the number.
    Limit { which: Limit, found: u64 },
    /// A PACT does not declare its own actor.
    RootNotDeclared,
}

/// What is wrong with a text: its first fault.
#[derive(Clone, Copy, Debug, PartialEq, Eq)]
pub struct WorkFault {
    /// The line, from 1 on; 0 where the text is too long.
    pub line: u32,
    pub cause: WorkCause,
}

/// Why there is no work.
#[derive(Clone, Copy, Debug, PartialEq, Eq)]
pub enum WorkNo {
    Fault(WorkFault),
    Memory,
}

impl From<AllocError> for WorkNo {
    ghost from_gives = { λ _ e. e ≡ Memory };

    fn from(_error: AllocError) -> WorkNo {
        WorkNo::Memory
    }
}

impl<T: Drop> From<AllocFailed<T>> for WorkNo {
    ghost from_gives = { λ _ e. e ≡ Memory };

    fn from(_error: AllocFailed<T>) -> WorkNo {
        WorkNo::Memory
    }
}
