//! A law on what a run writes to its logs: these are records.
ghost use Rattle.aml_slice.specs.aml_check.Checked.{methods_of};
ghost use Rattle.run_effects.specs.Recorded.{GroupsAreRecords};

use crate::groups::groups_grow;
use aml_slice::{Checked, Control};
use machine_laws::texts_have_the_facts;
use protocol_laws::frame;
use snap_hand::rows_may_be_taken;

/// A law, cited by a call: in every run of every text of the program that opens with states, the groups that a log gets and what
/// waits there are made of records, which have a spelling in bytes.
pub fn groups_are_records(program: &Checked)
    ensures { GroupsAreRecords (methods_of program.now) }
{
    program.methods();
    texts_have_the_facts(program);
    rows_may_be_taken::<Control>();
    frame::<Control>();
    groups_grow::<Control>();
}
