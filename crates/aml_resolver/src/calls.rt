//! Called methods by their places.

ghost use Rattle.std.specs.Prelude.{◌≡◌, ℕ, ◌<◌, ◌≤◌, length, map, IfSome};
ghost use Rattle.aml_tree.specs.Tree.{method_tree};
ghost use Rattle.aml_resolver.specs.Faults.{call_faults, is_writer};
ghost use Rattle.aml_check.specs.Names.{method_names};
ghost use Rattle.aml_resolver.specs.Names.{place_of, placed};
ghost use Rattle.aml_resolver.specs.Resolving.{Resolves};

use crate::names::fault_at;
use crate::{CheckCause, CheckNo};
use aml_tokens::Word;
use aml_tree::{MOST_METHODS, Method};

/// The first method of a name.
pub(crate) fn first_named(methods: &[Method<Word, Word>], name: &[u8]) -> Option<usize>
    ensures place { result ≡ place_of (method_names (map method_tree methods.now)) name.now }
    ensures within { IfSome result (λ k. k < length methods.now) }
{
    for (place, method) in methods.iter().enumerate() {
        if method.name.name.as_slice() == name {
            return Some(place);
        }
    }
    None
}

/// Whether a name is that of a method that makes no promise only to read.
pub(crate) fn is_writer(methods: &[Method<Word, Word>], word: &Word) -> bool
    ensures { result ≡ is_writer (map method_tree methods.now) word.now }
{
    match first_named(methods, word.name.as_slice()) {
        Some(place) => !methods[place].is_read,
        None => false,
    }
}

/// The place of a method that is called with so many arguments.
pub(crate) fn called(
    methods: &[Method<Word, Word>],
    word: &Word,
    arguments: usize,
) -> Result<u16, CheckNo>
    requires { length methods.now ≤ MOST_METHODS }
    ensures { Resolves (λ k. k) (call_faults (map method_tree methods.now) word.now arguments) (placed (method_names (map method_tree methods.now)) word.now) result }
{
    match first_named(methods, word.name.as_slice()) {
        Some(place) => {
            if methods[place].parameters.len() == arguments {
                Ok(place as u16)
            } else {
                Err(fault_at(word, CheckCause::ArgCount))
            }
        }
        None => Err(fault_at(word, CheckCause::UnknownName)),
    }
}
