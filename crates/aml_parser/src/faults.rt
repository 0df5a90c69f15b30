//! What is wrong with a text, and where.

use aml_tokens::TextCause;
use snap_base::Memory;

/// What is wrong with a text, and where: at the earliest place at which anything is.
#[derive(Clone, Copy, Debug, PartialEq, Eq)]
pub struct TextFault {
    /// The line, from 1 on.
    pub line: u32,
    /// The byte's place in that line, from 1 on.
    pub column: u32,
    pub cause: TextCause,
}

/// Why there is no tree.
#[derive(Clone, Copy, Debug, PartialEq, Eq)]
pub enum TextNo {
    Fault(TextFault),
    Memory,
}

impl From<Memory> for TextNo {
    ghost use Rattle.std.specs.Prelude.{◌≡◌};
    ghost use Rattle.aml_parser.specs.declared.faults.TextNo.TheVariants as no;

    ghost from_gives = { λ _ e. e ≡ no.Memory };

    fn from(_error: Memory) -> TextNo {
        TextNo::Memory
    }
}
