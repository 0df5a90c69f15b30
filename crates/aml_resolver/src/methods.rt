//! Methods with places for names.

ghost use Rattle.std.specs.Prelude.{◌≡◌, ◌+◌, ◌≤◌, [], length, map, IfOk};
ghost use Rattle.aml_tree.specs.Limits.{lets};
ghost use Rattle.aml_tree.specs.Tree.{block_tree, method_tree};
ghost use Rattle.aml_resolver.specs.Faults.{repeated, method_faults};
ghost use Rattle.aml_resolver.specs.Names.{names_of, checked_method};
ghost use Rattle.aml_check.specs.Names.{method_names, counted_from};
ghost use Rattle.aml_resolver.specs.Resolving.{Resolves};

use crate::CheckNo;
use crate::bodies::block;
use crate::ends::ended;
use crate::names::new_name;
use crate::statements::put_name;
use aml_tokens::{Name, Word};
use aml_tree::{MOST_METHODS, MOST_NAMES, Method};
use snap_base::{Memory, Sequence};
use std::alloc::Global;

/// The names of parameters, of which no two are the same.
fn parameters(alloc: Global, words: &[Word]) -> Result<Vec<Name>, CheckNo>
    ensures { Resolves (λ names. names.items) (repeated [] words.now) (names_of words.now) result }
{
    let mut names = Vec::new(alloc);
    for word in words {
        new_name(names.as_slice(), word)?;
        put_name(alloc, &mut names, word)?;
    }
    Ok(names)
}

/// The places of parameters.
fn numbered(alloc: Global, words: &[Word]) -> Result<Sequence<u8>, Memory>
    requires { length words.now ≤ MOST_NAMES }
    ensures { IfOk result (λ places. places ≡ counted_from 0 words.now) }
{
    let mut places = Sequence::new(alloc);
    for (place, _) in words.iter().enumerate() {
        places.push(place as u8)?;
    }
    Ok(places)
}

fn copied(alloc: Global, word: &Word) -> Result<Word, Memory>
    ensures { IfOk result (λ copy. copy ≡ word.now) }
{
    Ok(Word {
        name: Sequence::from_vec(Vec::from_slice(alloc, word.name.as_slice())?),
        line: word.line,
    })
}

/// Resolves a method of the program that stands behind others of these names.
pub(crate) fn method(
    alloc: Global,
    methods: &[Method<Word, Word>],
    before: &[Name],
    one: &Method<Word, Word>,
) -> Result<Method<u8, u16>, CheckNo>
    requires few { length methods.now ≤ MOST_METHODS }
    requires room { length one.now.parameters + lets (block_tree one.now.body) ≤ MOST_NAMES }
    ensures { Resolves method_tree (method_faults (map method_tree methods.now) before.now (method_tree one.now)) (checked_method (method_names (map method_tree methods.now)) (method_tree one.now)) result }
{
    new_name(before, &one.name)?;
    let mut names = parameters(alloc, one.parameters.as_slice())?;
    let body = block(alloc, methods, one.is_read, &mut names, &one.body)?;
    ended(&one.body)?;
    let name = copied(alloc, &one.name)?;
    let places = numbered(alloc, one.parameters.as_slice())?;
    Ok(Method {
        is_read: one.is_read,
        name,
        parameters: places,
        body,
    })
}
