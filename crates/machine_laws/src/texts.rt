//! Of every program: what the laws of the machine ask of method code.

ghost use Rattle.aml_check.specs.Checked.{methods_of};
ghost use Rattle.machine_laws.specs.Programs.{TextsHaveFacts};

use crate::code_has_the_facts;
use aml_check::Checked;

/// The code of each text of the program has the facts that the machine uses, of the text's own transactions.
pub fn texts_have_the_facts(program: &Checked)
    ensures { TextsHaveFacts (methods_of program.now) }
{
    code_has_the_facts(program);
}
