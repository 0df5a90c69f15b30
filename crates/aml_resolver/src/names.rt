//! Names among those that are visible.

ghost use Rattle.std.specs.Prelude.{◌≡◌, ℕ, ◌≤◌, ◌<◌, length, IfSome};
ghost use Rattle.aml_resolver.specs.Faults.{unknown, duplicate};
ghost use Rattle.aml_resolver.specs.Names.{place_of, placed};
ghost use Rattle.aml_resolver.specs.Resolving.{Passes, Resolves};
ghost use Rattle.aml_resolver.specs.declared.faults.CheckNo.TheVariants.{Fault};

use crate::{CheckCause, CheckFault, CheckNo};
use aml_tokens::{Name, Word};
use aml_tree::MOST_NAMES;

/// The first place of a name.
pub(crate) fn place_of(names: &[Name], name: &[u8]) -> Option<usize>
    ensures place { result ≡ place_of names.now name.now }
    ensures within { IfSome result (λ k. k < length names.now) }
{
    for (place, other) in names.iter().enumerate() {
        if other.as_slice() == name {
            return Some(place);
        }
    }
    None
}

/// A fault at a word.
pub(crate) fn fault_at(word: &Word, cause: CheckCause) -> CheckNo
    ensures { result ≡ Fault (record { line = word.now.line; cause = cause }) }
{
    CheckNo::Fault(CheckFault {
        line: word.line,
        cause,
    })
}

/// The place of a variable that has to be visible.
pub(crate) fn variable(names: &[Name], word: &Word) -> Result<u8, CheckNo>
    requires { length names.now ≤ MOST_NAMES }
    ensures { Resolves (λ k. k) (unknown names.now word.now) (placed names.now word.now) result }
{
    match place_of(names, word.name.as_slice()) {
        Some(place) => Ok(place as u8),
        None => Err(fault_at(word, CheckCause::UnknownName)),
    }
}

/// That a name is new.
pub(crate) fn new_name(names: &[Name], word: &Word) -> Result<(), CheckNo>
    ensures { Passes (duplicate names.now word.now) result }
{
    match place_of(names, word.name.as_slice()) {
        Some(_) => Err(fault_at(word, CheckCause::Duplicate)),
        None => Ok(()),
    }
}
