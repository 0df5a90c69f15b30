//! Of every work: that its text, the trace of a run on empty logs that can't go on, and what the run has printed, are an input in
//! order.
ghost use Rattle.snap_hand.specs.snap_work.Works.{work_of};
ghost use Rattle.audit_laws.specs.InOrder.{FirstEventsAreInRange, QuietRunsAreInOrder};

use crate::{quiet_runs_are_audited_as_meant, quiet_runs_print_reports, taken_events_are_in_range};
use aml_slice::Control;
use snap_hand::{Work, works_are_texts};
use work_text::transactions_may_run;

/// Where no event is allowed any more, the text of the work, the trace of the run and what it has printed are an input in order, each
/// behind its divider.
pub fn quiet_runs_are_in_order(work: &Work)
    ensures { QuietRunsAreInOrder (work_of work.now) }
{
    transactions_may_run();
    works_are_texts();
    quiet_runs_are_audited_as_meant(&work.program);
    quiet_runs_print_reports(&work.program);
}

/// The numbers of each event that a run of the work's text takes on empty logs are of their types.
pub fn first_events_are_in_range(work: &Work)
    ensures { FirstEventsAreInRange (work_of work.now) }
{
    transactions_may_run();
    works_are_texts();
    taken_events_are_in_range::<Control>();
}
