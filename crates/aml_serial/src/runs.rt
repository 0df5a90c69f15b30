//! One transaction alone, and transactions one after the other.

ghost use Rattle.std.specs.Prelude.{◌≡◌, ◌<◌, ℕ, ◌≤◌, length, take, IfOk, OnErr};
ghost use Rattle.std.specs.List.{AllByRecursion};
ghost use Rattle.aml_check.specs.Checked.{methods_of};
ghost use Rattle.aml_check.specs.Meaning.{alone, serial};
ghost use Rattle.aml_check.specs.Transactions.{IsTransaction};
ghost use Rattle.aml_slice.specs.Controls.{IsRest};
ghost use Rattle.aml_slice.specs.Finishing.{finished};
ghost use Rattle.aml_serial.specs.Images.{AreImagesWithin, has_value, put_back};

use crate::images::{BeforeImage, keep, put_back};
use aml_check::Checked;
use aml_slice::{Control, each_slice, slice, slices_finish, transactions_begin};
use snap_base::{Memory, Next, Sequence, State, Tid, Tx, TxResult};
use std::alloc::Global;

/// The identifier of each transaction here, since nobody asks for it.
const NO_TID: Tid = Tid(0);

/// Runs what is left of a transaction, and keeps the states that it comes upon. A failure and want of
/// memory leave the world as the statements made it; the images put it back.
fn finish(
    program: &Checked,
    actors: u16,
    world: &mut Vec<State>,
    control: Control,
    images: &mut Vec<BeforeImage>,
) -> Result<TxResult, Memory>
    requires rest { IsRest (methods_of program.now) actors control }
    requires size { length world.old.items ≡ actors }
    requires within { AreImagesWithin actors images.old.items }
    ensures finished { IfOk result (λ r. finished (methods_of program.now) actors control world.old.items ≡ record { result = r; world = world.new.items }) }
    ensures kept { put_back images.new.items world.new.items ≡ put_back images.old.items world.old.items }
    ensures within { AreImagesWithin actors images.new.items }
    ensures size { length world.new.items ≡ actors }
{
    each_slice(program);
    slices_finish(program);
    let mut rest = control;
    loop {
        let actor = rest.at().0;
        keep(images, world.as_slice(), actor)?;
        match slice(program, actors, &mut world[actor as usize], rest) {
            Next::Go(_, next) => rest = next,
            Next::Ended(result) => return Ok(result),
        }
    }
}

/// Whether a transaction has ended with a value.
fn has_value(outcome: &Result<TxResult, Memory>) -> bool
    ensures { result ≡ has_value outcome.now }
{
    matches!(outcome, Ok(TxResult::Value(_)))
}

/// Runs one transaction. A failure and want of memory leave the world as it was. A world of
/// more than 65,535 actors, which is more than a slice counts and no text has, is told as want of memory.
pub fn run_alone(
    alloc: Global,
    program: &Checked,
    world: &mut Vec<State>,
    tx: &Tx,
) -> Result<TxResult, Memory>
    requires { IsTransaction (methods_of program.now) (length world.old.items) tx.now }
    ensures alone { IfOk result (λ r. alone (methods_of program.now) world.old.items tx.now ≡ record { result = r; world = world.new.items }) }
    ensures memory { OnErr result (world.new.items ≡ world.old.items) }
    ensures actors { length world.new.items ≡ length world.old.items }
{
    let actors = u16::try_from(world.len()).map_err(|_| Memory)?;
    transactions_begin(program);
    let control = Control::start(alloc, program, NO_TID, tx)?;
    let mut images = Vec::new(alloc);
    slices_finish(program);
    let outcome = finish(program, actors, world, control, &mut images);
    if has_value(&outcome) {
        return outcome;
    }
    put_back(world, &images);
    outcome
}

/// Runs transactions one after the other. For want of memory the world is the one after the first of
/// them, and none is left in part.
pub fn run_list(
    alloc: Global,
    program: &Checked,
    world: &mut Vec<State>,
    txs: &[Tx],
) -> Result<Sequence<TxResult>, Memory>
    requires { AllByRecursion (IsTransaction (methods_of program.now) (length world.old.items)) txs.now }
    ensures serial { IfOk result (λ rs. serial (methods_of program.now) world.old.items txs.now ≡ record { results = rs; world = world.new.items }) }
    ensures memory { OnErr result ((n : ℕ) × (n ≤ length txs.now) × (world.new.items ≡ (serial (methods_of program.now) world.old.items (take n txs.now)).world)) }
    ensures actors { length world.new.items ≡ length world.old.items }
{
    let mut results = Sequence::new(alloc);
    for tx in txs {
        let result = run_alone(alloc, program, world, tx)?;
        results.push(result)?;
    }
    Ok(results)
}
