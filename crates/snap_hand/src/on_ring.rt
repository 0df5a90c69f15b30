//! The events of the coordinators, on a hand.
ghost use Rattle.protocol.specs.Events as event;
ghost use Rattle.snap_hand.specs.Steps.{MayBeAsked, IsRefusalOn, IsStep};
ghost use Rattle.snap_hand.specs.Tables.{AreTables, fixed_of};

use crate::{Hand, Tables};
use aml_slice::Control;
use core_rows::StepNo;
use snap_base::TxNo;

/// Which of the conditions of Submit is the first false one, or 0.
pub(crate) fn submit_refusal(tables: &Tables, hand: &Hand, n: TxNo) -> u8
    requires tables { AreTables tables.now }
    requires asked { MayBeAsked (fixed_of tables.now) (event.Submit n.0) hand.now }
    ensures { IsRefusalOn (fixed_of tables.now) (event.Submit n.0) hand.now result }
{
    core_rows::submit_refusal::<Control>(tables.work.txs.as_slice(), hand.ring(), n)
}

/// Submit.
pub(crate) fn submit(tables: &Tables, hand: &mut Hand, n: TxNo) -> Result<(), StepNo>
    requires tables { AreTables tables.now }
    requires asked { MayBeAsked (fixed_of tables.now) (event.Submit n.0) hand.old }
    ensures { IsStep (fixed_of tables.now) (event.Submit n.0) hand.old hand.new result }
{
    let mut ring = hand.take_ring();
    let step = core_rows::submit::<Control>(tables.work.txs.as_slice(), &mut ring, n);
    hand.put_ring(ring);
    step
}

/// Which of the conditions of Pass is the first false one, or 0.
pub(crate) fn pass_refusal(_tables: &Tables, hand: &Hand, c: u8) -> u8
    requires tables { AreTables _tables.now }
    requires asked { MayBeAsked (fixed_of _tables.now) (event.Pass c) hand.now }
    ensures { IsRefusalOn (fixed_of _tables.now) (event.Pass c) hand.now result }
{
    core_rows::pass_refusal::<Control>(hand.ring(), c)
}

/// Pass.
pub(crate) fn pass(_tables: &Tables, hand: &mut Hand, c: u8) -> Result<(), StepNo>
    requires tables { AreTables _tables.now }
    requires asked { MayBeAsked (fixed_of _tables.now) (event.Pass c) hand.old }
    ensures { IsStep (fixed_of _tables.now) (event.Pass c) hand.old hand.new result }
{
    let mut ring = hand.take_ring();
    let step = core_rows::pass::<Control>(&mut ring, c);
    hand.put_ring(ring);
    step
}
