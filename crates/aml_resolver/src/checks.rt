//! A program with its names resolved, or its first fault.

ghost use Rattle.std.specs.Prelude.{◌≡◌, [], ◌∷◌, ◌++◌, map, IfOk, IsErrOf};
ghost use Rattle.aml_tree.specs.Tree.{method_tree, program_tree};
ghost use Rattle.aml_tree.specs.Programs.{IsProgram};
ghost use Rattle.aml_resolver.specs.Faults.{IsCheckedProgram, IsFirstCheckFault};
ghost use Rattle.aml_check.specs.Checked.{methods_of};

use crate::methods::method;
use crate::statements::put_name;
use crate::{CheckFault, CheckNo};
use aml_check::Checked;
use aml_tokens::Word;
use aml_tree::{Method, Program};
use snap_base::{Memory, Sequence};
use std::alloc::Global;

/// The program with each name resolved to a place, or its first fault in the order of the text: a name that is unknown or
/// taken, a wrong number of arguments, a broken promise only to read, or a method that may end without a value. The tree is
/// consumed, also where it is refused.
pub fn check(alloc: Global, program: Program<Word, Word>) -> Result<Checked, CheckNo>
    // The program is one that a text may spell, so the places fit.
    requires { IsProgram (program_tree program) }
    // What is checked is the program with its names resolved.
    ensures found { IfOk result (λ c. IsCheckedProgram (program_tree program) (methods_of c)) }
    // A fault is the first one of the program.
    ensures fault { (fault : CheckFault) → IsErrOf result (CheckNo.Fault fault) → IsFirstCheckFault (program_tree program) fault }
{
    let mut names = Vec::new(alloc);
    let mut checked = Sequence::new(alloc);
    for one in program.methods.as_slice() {
        let resolved = method(alloc, program.methods.as_slice(), names.as_slice(), one)?;
        put_name(alloc, &mut names, &one.name)?;
        put_method(&mut checked, resolved)?;
    }
    let whole = Checked::of(alloc, Program { methods: checked })?;
    Ok(whole)
}

fn put_method(checked: &mut Sequence<Method<u8, u16>>, one: Method<u8, u16>) -> Result<(), Memory>
    ensures { IfOk result (λ _. map method_tree checked.new ≡ map method_tree checked.old ++ method_tree one ∷ []) }
{
    checked.push(one)
}
