//! Of every program: that what any run of one of its texts that can't go on has printed is in order with its trace, by what the
//! language means, and that it is a report.
ghost use Rattle.aml_slice.specs.aml_check.Checked.{methods_of};
ghost use Rattle.machine_laws.specs.Programs.{OfEveryRunOf};
ghost use Rattle.audit_laws.specs.Fits.{QuietRunsPrintReports};
ghost use Rattle.audit_laws.specs.Programs.{IsAuditedAsMeant};

use crate::{
    names_are_seen, printed_forms_are_reports, quiet_runs_are_audited, reports_are_lines,
    verdicts_are_in_range,
};
use aml_slice::{Checked, Control};
use machine_laws::{alone_as_meant, texts_have_the_facts};
use protocol_laws::transactions_are_in_one_place;
use protocol_theorems::{every_run_ends, sizes_hold};
use run_effects::batches_are_counted;

/// Where no event is allowed any more, the papers of a run of the program's text are in order by the language: the transactions of
/// the text mean what `aml_check`'s Meaning says of each alone.
pub fn quiet_runs_are_audited_as_meant(program: &Checked)
    ensures { OfEveryRunOf (methods_of program.now) (IsAuditedAsMeant (methods_of program.now)) }
{
    texts_have_the_facts(program);
    alone_as_meant(program);
    names_are_seen::<Control>();
    transactions_are_in_one_place::<Control>();
    sizes_hold::<Control>();
    quiet_runs_are_audited::<Control>();
}

/// Where no event is allowed any more, and the run began on states, what it has printed is a report: the text of its report's lines,
/// each of a form.
pub fn quiet_runs_print_reports(program: &Checked)
    ensures { QuietRunsPrintReports (methods_of program.now) }
{
    program.methods();
    texts_have_the_facts(program);
    every_run_ends::<Control>();
    batches_are_counted::<Control>();
    names_are_seen::<Control>();
    verdicts_are_in_range::<Control>();
    quiet_runs_are_audited_as_meant(program);
    reports_are_lines::<Control>();
    printed_forms_are_reports();
}
