//! The laws over runs that ended with 0, and over the answers of the top call.

ghost use Rattle.snap_work.specs.Works.{work_of};
ghost use Rattle.audited_runs.specs.FirstRuns.{FirstRunsAreInOrder, WorkRunsAreInOrder};

use audit_laws::{first_events_are_in_range, quiet_runs_are_in_order};
use command_words::one_command;
use record_log::one_list_of_records;
use run_recovery::seeds_pick_runs;
use snap_run::fronts_of_records;
use snap_work::Work;
use trace_text::printed_traces;
use work_text::one_work;

/// Of every work: where a run of it, by any schedule, began on empty logs, while none of the other devices is the first of some logs, and
/// ended with 0, any text that stands for the work, what was traced and what was printed are an input in order, each behind its
/// divider; where the text's last line lacks its line feed, with one behind it, if the text has room for it.
pub fn work_runs_are_in_order(work: &Work)
    ensures { WorkRunsAreInOrder (work_of work.now) }
{
    one_list_of_records();
    fronts_of_records();
    printed_traces();
    seeds_pick_runs();
    first_events_are_in_range(work);
    quiet_runs_are_in_order(work);
}

/// Of every work: where its text is run on empty logs, while none of the other devices is the first of some logs, and the call ends with
/// 0, by any schedule, the text, what was traced and what was printed are an input in order, each behind its divider; where the
/// text's last line lacks its line feed, with one behind it, if the text has room for it.
pub fn runs_are_in_order(work: &Work)
    ensures { FirstRunsAreInOrder (work_of work.now) }
{
    one_command();
    one_work();
    work_runs_are_in_order(work);
}
