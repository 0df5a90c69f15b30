//! What is wrong with names, promises and ends, and where.

use snap_base::Memory;

/// What is wrong with a program's names, promises and ends.
#[derive(Clone, Copy, Debug, PartialEq, Eq, Hash)]
pub enum CheckCause {
    /// No variable of the name is visible, or no method has it.
    UnknownName,
    /// A variable of the name is visible already, or an earlier method has it.
    Duplicate,
    /// A call has not as many arguments as the method has parameters.
    ArgCount,
    /// A method may come to its last brace without a value.
    NoReturn,
    /// A method that promises only to read assigns a field, or calls a method that makes no such promise.
    ReadWrites,
}

/// What is wrong with a program: the first fault in the order of the text.
#[derive(Clone, Copy, Debug, PartialEq, Eq)]
pub struct CheckFault {
    /// The line of the name, of the statement that breaks a promise, or of the method's last brace, from 1 on.
    pub line: u32,
    pub cause: CheckCause,
}

/// Why a program is not checked. It is given up.
#[derive(Clone, Copy, Debug, PartialEq, Eq)]
pub enum CheckNo {
    Fault(CheckFault),
    Memory,
}

impl From<Memory> for CheckNo {
    ghost use Rattle.std.specs.Prelude.{◌≡◌};
    ghost use Rattle.aml_resolver.specs.declared.faults.CheckNo.TheVariants.{Memory};

    ghost from_gives = { λ _ e. e ≡ Memory };

    fn from(_memory: Memory) -> CheckNo {
        CheckNo::Memory
    }
}
