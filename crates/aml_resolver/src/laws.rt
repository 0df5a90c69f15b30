//! What follows for a caller: where a program's fault stands, and what a checked program keeps. Each is
//! called to cite it.

ghost use Rattle.std.specs.Prelude.{◌≤◌, List};
ghost use Rattle.aml_tree.specs.Lines.{LinesUpTo};
ghost use Rattle.aml_tree.specs.Programs.{IsProgram};
ghost use Rattle.aml_tree.specs.Tree.{CheckedMethod, TextMethod};
ghost use Rattle.aml_check.specs.Closed.{IsClosedProgram};
ghost use Rattle.aml_resolver.specs.Faults.{IsCheckedProgram, IsFirstCheckFault};

use crate::CheckFault;

/// A program's first fault stands in a line of one of its words, in that of a statement, or in that of a closing
/// brace.
pub fn faults_stand_in_the_program(_most: usize)
    ensures { (p : List TextMethod) (f : CheckFault) → LinesUpTo _most p → IsFirstCheckFault p f → f.line ≤ _most }
{}

/// A checked program is closed: its places, fields and codes are in range, its methods end, and those that promise
/// only to read keep the promise.
pub fn checked_programs_are_closed()
    ensures { (p : List TextMethod) (c : List CheckedMethod) → IsProgram p → IsCheckedProgram p c → IsClosedProgram c }
{}
