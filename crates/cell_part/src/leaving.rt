//! What an ACT that leaves an actor takes along.
ghost use Rattle.std.specs.Prelude.{◌≡◌, Some};
ghost use Rattle.protocol.specs.CellParts.{cleared, parted};
ghost use Rattle.protocol.specs.OnCell.{is_undone_act, own_entries};
ghost use Rattle.protocol.specs.Parts.{Act};
ghost use Rattle.protocol.specs.Words.{is_sealed};
ghost use Rattle.actor_cell.specs.Calls.{store_left_by, restored, with_floor_raised};
ghost use Rattle.cell_part.specs.Room.{KeepsBoxes};

use crate::boxes::Boxes;
use actor_cell::{Cell, parting_is_restoring_and_finishing};
use hybrid_schedule::Schedule;
use snap_base::{Bid, Tid, Who};

/// What lies in the boxes of an ACT that stands on the schedule, goes.
pub(crate) fn leave_boxes<C: Drop>(boxes: &mut Boxes<C>, schedule: &Schedule, t: Tid)
    ensures gone { boxes.new.boxes ≡ cleared (own_entries t.0 schedule.now.schedule.entries) boxes.old.boxes }
    ensures no_less { KeepsBoxes boxes.old boxes.new }
{
    if schedule.has_act(t) {
        boxes.drop_of(t);
    }
}

/// What the ACT did is undone or stays, its image goes back, and its before number may raise the floor of its kind.
pub(crate) fn leave_store(
    store: &mut Cell,
    t: Tid,
    undone: bool,
    sealed: bool,
    m: Bid,
    reader: bool,
)
    ensures { (x : Act) → is_undone_act (Some x) ≡ undone → is_sealed x.status ≡ sealed → x.m ≡ m.0 → x.reader ≡ reader → store.new ≡ parted t.0 (Some x) store.old }
{
    if undone {
        store.restore_entry(Who::Act(t));
    }
    store.finish_entry(Who::Act(t));
    if sealed {
        store.raise_floor(m, reader);
    }
}
