//! The event by which a transaction is answered, on a hand.
ghost use Rattle.protocol.specs.Events as event;
ghost use Rattle.snap_hand.specs.Steps.{MayBeAsked, IsRefusalOn, IsStep};
ghost use Rattle.snap_hand.specs.Tables.{AreTables, fixed_of};

use crate::{Hand, Tables};
use aml_slice::Control;
use core_rows::StepNo;
use snap_base::TxNo;

/// Which of the conditions of Reply is the first false one, or 0.
pub(crate) fn reply_refusal(_tables: &Tables, hand: &Hand, n: TxNo) -> u8
    requires tables { AreTables _tables.now }
    requires asked { MayBeAsked (fixed_of _tables.now) (event.Reply n.0) hand.now }
    ensures { IsRefusalOn (fixed_of _tables.now) (event.Reply n.0) hand.now result }
{
    core_rows::reply_refusal::<Control>(hand.book(), hand.desk(), n)
}

/// Reply.
pub(crate) fn reply(_tables: &Tables, hand: &mut Hand, n: TxNo) -> Result<(), StepNo>
    requires tables { AreTables _tables.now }
    requires asked { MayBeAsked (fixed_of _tables.now) (event.Reply n.0) hand.old }
    ensures { IsStep (fixed_of _tables.now) (event.Reply n.0) hand.old hand.new result }
{
    let mut desk = hand.take_desk();
    let step = core_rows::reply::<Control>(hand.book(), &mut desk, n);
    hand.put_desk(desk);
    step
}
