//! What follows for a caller: tokens that are written in one line are read back. Each is called to cite it.

ghost use Rattle.std.specs.Prelude.{◌≡◌, ◌≤◌, ℕ, List, None, length};
ghost use Rattle.std.specs.List.{AllByRecursion};
ghost use Rattle.std.specs.Str.{IsAscii};
ghost use Rattle.aml_tokens.specs.Token.{Token};
ghost use Rattle.aml_tokens.specs.Lexing.{tokens, stop};
ghost use Rattle.aml_tokens.specs.Names.{IsToken};
ghost use Rattle.aml_tokens.specs.Writing.{nothing_written, with_tokens, IsReadBack};

use crate::LONGEST_PROGRAM;

/// The tokens of a text that is whole are read back where they are written in one line.
pub fn written_is_read()
    ensures { (source : List ℕ) → stop source ≡ None → IsReadBack (with_tokens nothing_written (tokens source)).text (tokens source) }
{}

/// Any tokens that a text may have are read back where they are written in one line that is not too long. The line's bytes are
/// ASCII, however long it is.
pub fn tokens_are_read()
    ensures ascii { (ts : List Token) → AllByRecursion IsToken ts → IsAscii (with_tokens nothing_written ts).text }
    ensures read { (ts : List Token) → AllByRecursion IsToken ts → length (with_tokens nothing_written ts).text ≤ LONGEST_PROGRAM → IsReadBack (with_tokens nothing_written ts).text ts }
{}
