//! Laws on the number of records, on their lengths and on the groups of a log. `C` is the type of controls.
ghost use Rattle.protocol.specs.Laws.{AfterEveryRunWithHistory, OfEveryRun};
ghost use Rattle.run_effects.specs.Sizes.{AllGroupsFit, LogsAreFew, ToldAreShort, WaitingFits};

use crate::groups_grow;
use protocol_records::records_are_few;
use protocol_theorems::every_run_ends;
use record_log::records_are_short;

/// A law of every run, cited by a call: all logs together hold at most 18 records for each transaction of the text.
pub fn logs_are_few<C>()
    ensures { AfterEveryRunWithHistory (LogsAreFew {C = C}) }
{
    records_are_few::<C>();
}

/// A law, cited by a call: a record of the machine that has a spelling has at most 2,573 bytes.
pub fn told_are_short()
    ensures { ToldAreShort }
{}

/// A law of every run, cited by a call: if each record that waits on a log has a spelling, they may be appended as one group at a
/// gate up to `FARTHEST_APPEND + 2^30`: no item is empty or too long, and all items together fit a group.
pub fn waiting_fits<C>()
    ensures { OfEveryRun (WaitingFits {C = C}) }
{
    records_are_short();
    records_are_few::<C>();
}

/// A law of every run, cited by a call: if each record has a spelling, and a log's gate was at most `FARTHEST_APPEND` as the run
/// began, each group of the run may be appended after the earlier ones, and what waits after all of them; and the gate goes on by
/// at most 2^30 bytes.
pub fn groups_fit<C>()
    ensures { OfEveryRun (AllGroupsFit {C = C}) }
{
    records_are_short();
    records_are_few::<C>();
    every_run_ends::<C>();
    groups_grow::<C>();
}
