//! What the code of a checked program is to the machine, for all transactions that may be asked of the program.

ghost use Rattle.std.specs.Prelude.{◌≡◌, ◌↔◌, ℕ, true, List, length, Contains};
ghost use Rattle.std.specs.List.{AllByRecursion};
ghost use Rattle.snap_base.specs.declared.transactions.State.{State};
ghost use Rattle.snap_base.specs.declared.transactions.Tx.{Tx};
ghost use Rattle.aml_check.specs.Meaning as meaning;
ghost use Rattle.aml_check.specs.Checked.{methods_of};
ghost use Rattle.aml_check.specs.Transactions.{IsTransaction};
ghost use Rattle.aml_slice.specs.Controls.{Rest, RestsOn};
ghost use Rattle.protocol.specs.Facts.{Facts, alone, serial};
ghost use Rattle.protocol.specs.Words.{is_among};
ghost use Rattle.machine_laws.specs.MethodCode.{finish, IsRestOf, method_code, rests_on};

use aml_check::Checked;
use aml_slice::{each_slice, readers_leave, slices_finish, transactions_begin};

/// The code of a program has the facts that the machine uses, for all transactions that may be asked of
/// the program.
pub fn code_has_the_facts(program: &Checked)
    ensures { (count : ℕ) → Facts count (method_code (methods_of program.now) count) (IsTransaction (methods_of program.now) count) (IsRestOf (methods_of program.now) count) (finish (methods_of program.now) count) }
{
    transactions_begin(program);
    each_slice(program);
    slices_finish(program);
    readers_leave(program);
}

/// A transaction alone, as the machine has it, is what the language says.
pub fn alone_as_meant(program: &Checked)
    ensures { (count : ℕ) (w : List State) (tx : Tx) → length w ≡ count → IsTransaction (methods_of program.now) count tx → alone (method_code (methods_of program.now) count) (finish (methods_of program.now) count) w tx ≡ meaning.alone (methods_of program.now) w tx }
{
    slices_finish(program);
}

/// Transactions one after the other, as the machine has them, are the serial execution that the language
/// means.
pub fn serial_as_meant(program: &Checked)
    ensures { (count : ℕ) (w : List State) (txs : List Tx) → length w ≡ count → AllByRecursion (IsTransaction (methods_of program.now) count) txs → serial (method_code (methods_of program.now) count) (finish (methods_of program.now) count) w txs ≡ meaning.serial (methods_of program.now) w txs }
{
    slices_finish(program);
}

/// What the machine asks of a control, as a test, is what is asked of controls.
pub fn askings_are_the_controls()
    ensures rests { (c : Rest) (a : ℕ) → (rests_on c a ≡ true) ↔ RestsOn c a }
    ensures visited { (c : Rest) (a : ℕ) → (is_among a c.actors ≡ true) ↔ Contains c.actors a }
{}
