//! What a reader of tokens asks for, and why it gives no tree.

use aml_tokens::TextCause;
use snap_base::Memory;

/// Why a reader gives no tree.
#[derive(Clone, Copy)]
pub(crate) enum ReadNo {
    /// The number of the token, from 0 on, and what is wrong with it.
    At { place: usize, cause: TextCause },
    Memory,
}

/// A sign or a word that a rule of the grammar names.
#[derive(Clone, Copy)]
pub(crate) enum Sign {
    Open,
    Close,
    OpenBrace,
    Semicolon,
    Assign,
    /// The word `method` behind `read`.
    Method,
}

impl From<Memory> for ReadNo {
    ghost use Rattle.std.specs.Prelude.{◌≡◌};
    ghost use Rattle.aml_parser.specs.declared.readers.ReadNo.TheVariants as no;

    ghost from_gives = { λ _ e. e ≡ no.Memory };

    fn from(_error: Memory) -> ReadNo {
        ReadNo::Memory
    }
}
