//! What follows for a caller: a text has one reading, and nothing stands behind its last line. Each is
//! called to cite it.

ghost use Rattle.std.specs.Prelude.{◌≡◌, ℕ, ◌+◌, ◌≤◌, List, length};
ghost use Rattle.aml_tree.specs.Tree.{TextMethod};
ghost use Rattle.aml_tree.specs.Programs.{IsProgramText};
ghost use Rattle.aml_parser.specs.Faults.{IsFirstTextFault};
ghost use Rattle.aml_tree.specs.Lines.{LinesUpTo};

use crate::TextFault;

/// A text spells one program.
pub fn one_program()
    ensures { (text : List ℕ) (p q : List TextMethod) → IsProgramText text p → IsProgramText text q → p ≡ q }
{}

/// A text has one first fault.
pub fn one_fault()
    ensures { (text : List ℕ) (f g : TextFault) → IsFirstTextFault text f → IsFirstTextFault text g → f ≡ g }
{}

/// A text with a first fault spells no program.
pub fn faulty()
    ensures { (text : List ℕ) (f : TextFault) (p : List TextMethod) → IsFirstTextFault text f → ¬ IsProgramText text p }
{}

/// A text's first fault stands in one of its lines, of which there are no more than bytes and one.
pub fn faults_stand_in_the_text(_text: &[u8])
    ensures { (f : TextFault) → IsFirstTextFault _text.now f → f.line ≤ 1 + length _text.now }
{}

/// Each word and each closing brace of the program that a text spells stands in one of the text's lines, of which there are
/// no more than bytes and one.
pub fn lines_stand_in_the_text(_text: &[u8])
    ensures { (p : List TextMethod) → IsProgramText _text.now p → LinesUpTo (1 + length _text.now) p }
{}
