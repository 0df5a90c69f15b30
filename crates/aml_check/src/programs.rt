//! Programs whose names are resolved, and what may be asked of one.

use crate::places::place_of_method;
use aml_flat::{FlatProgram, flatten};
use aml_tree::{Block, Program, Statement};
use snap_base::Memory;
use std::alloc::Global;
use std::marker::Model;

/// A program whose names are resolved: a variable is its place among those that are visible, a called
/// method its place in the program. Contracts see its methods by the word `methods_of`. Beside the tree it keeps flat code that
/// says the same.
pub struct Checked {
    program: Program<u8, u16>,
    flat: FlatProgram,
}

// Written out, so that a crate above calls it and does not repeat it.
impl Drop for Checked {
    fn drop(self) {
        let Checked {
            program: _program,
            flat: _flat,
        } = self;
    }
}

impl Model for Checked {
    ghost use Rattle.std.specs.Prelude.{ℕ};
    ghost use Rattle.std.specs.Coded.{codes};
    ghost use denote.Builtin.{u8, u16};
    ghost use Rattle.aml_tree.specs.contracts.trees.Statement as statement;
    ghost use Rattle.aml_tree.specs.declared.trees.Program.{Program};
    ghost use Rattle.aml_tree.specs.Tree.{program_tree};
    ghost use Rattle.aml_flat.specs.Flat.{AllLie};
    ghost use Rattle.aml_check.specs.Closed.{IsClosedProgram};

    ghost Value = { Program ℕ ℕ };

    ghost coded = { Prim.hlevel (codes, (statement.the_row u8 u16).coded) };

    ghost view = { λ c. c.program };

    ghost invariant = { λ c. IsClosedProgram (program_tree c.program) × AllLie c.flat.operations.items c.flat.bodies.items (program_tree c.program) };
}

impl Checked {
    ghost use Rattle.std.specs.Prelude.{◌≡◌, ℕ, ◌<◌, ◌≢◌, length, IfSome, IfNone, IfOk};
    ghost use Rattle.aml_tree.specs.Tree.{block_tree, program_tree};
    ghost use Rattle.aml_flat.specs.Flat.{AllLie};
    ghost use Rattle.aml_check.specs.Closed.{IsClosedMethod, IsClosedProgram};
    ghost use Rattle.aml_check.specs.Names.{method_at};
    ghost use Rattle.aml_check.specs.Checked.{methods_of};

    /// A program with its names resolved, where it keeps what every checked program keeps. Want of memory gives it up.
    pub fn of(alloc: Global, program: Program<u8, u16>) -> Result<Self, Memory>
        requires { IsClosedProgram (program_tree program) }
        ensures { IfOk result (λ c. c ≡ program) }
    {
        let flat = flatten(alloc, &program)?;
        Ok(Checked { program, flat })
    }

    /// How many methods there are. Asking tells too that the program is closed.
    pub fn methods(&self) -> usize
        ensures number { result ≡ length (methods_of self.now) }
        ensures closed { IsClosedProgram (methods_of self.now) }
    {
        self.program.methods.len()
    }

    /// The place of the method of a name, from 0 on.
    pub fn method_named(&self, name: &[u8]) -> Option<u16>
        ensures found { IfSome result (λ m. (m < length (methods_of self.now)) × ((method_at (methods_of self.now) m).name.name ≡ name.now)) }
        ensures none { IfNone result ((m : ℕ) → m < length (methods_of self.now) → (method_at (methods_of self.now) m).name.name ≢ name.now) }
    {
        let place = place_of_method(self.program.methods.as_slice(), name)?;
        Some(place as u16)
    }

    /// How many parameters a method has.
    pub fn params(&self, method: u16) -> u8
        requires { method < length (methods_of self.now) }
        ensures { result ≡ length (method_at (methods_of self.now) method).parameters }
    {
        let methods = self.program.methods.as_slice();
        methods[method as usize].parameters.len() as u8
    }

    /// Whether a method promises only to read. Where it does, its body keeps the promise, as of every checked
    /// program.
    pub fn is_read(&self, method: u16) -> bool
        requires { method < length (methods_of self.now) }
        ensures { result ≡ (method_at (methods_of self.now) method).is_read }
    {
        let methods = self.program.methods.as_slice();
        methods[method as usize].is_read
    }

    /// What a method does.
    pub fn body(&self, method: u16) -> &Block<Statement<u8, u16>>
        requires { method < length (methods_of self.now) }
        ensures body { block_tree result.now ≡ (method_at (methods_of self.now) method).body }
        ensures closed { IsClosedMethod (methods_of self.now) (method_at (methods_of self.now) method) }
    {
        let methods = self.program.methods.as_slice();
        &methods[method as usize].body
    }

    /// The program as flat code: what each method does, from the position that its start says on.
    pub fn flat(&self) -> &FlatProgram
        ensures lies { AllLie result.now.operations.items result.now.bodies.items (methods_of self.now) }
        ensures closed { IsClosedProgram (methods_of self.now) }
    {
        &self.flat
    }
}
