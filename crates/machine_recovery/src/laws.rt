//! What logs fold to, of every program. A run begins with what its logs fold to, whatever earlier runs left there.

ghost use Rattle.std.specs.Prelude.{List, map};
ghost use Rattle.aml_check.specs.Checked.{methods_of};
ghost use Rattle.txn_records.specs.declared.records.Record.{Record};
ghost use Rattle.snap_recover.specs.declared.openings.Opening.{Opening};
ghost use Rattle.snap_recover.specs.Opening.{IsRecovered};
ghost use Rattle.recovery_laws.specs.Joined.{RecoverAgain};
ghost use Rattle.compact_laws.specs.Members.{FoldsToMembers};
ghost use Rattle.machine_recovery.specs.OnLogs.{as_cut_run, AtEveryMomentOnLogsOf, CutRunOf, GoOnLogsOf, RecoversAsMeant};

use aml_check::Checked;
use aml_slice::Control;
use machine_laws::{
    recovered_transactions_are_as_meant, recovered_transactions_are_in_order, texts_have_the_facts,
};

/// At every moment of every run, whatever each log is left with, the logs fold, and nothing is refused. The members are the
/// transactions whose commit records are there. The states are those that the members leave; what is committed since the checkpoint
/// is what was, and behind it the members, in the order of their places; the next numbers are above all.
pub fn logs_fold_to_the_members(program: &Checked)
    ensures { AtEveryMomentOnLogsOf (methods_of program.now) FoldsToMembers }
{
    texts_have_the_facts(program);
    compact_laws::logs_fold_to_the_members::<Control>();
}

/// At every moment of every run, whatever each log is left with: the transactions whose commit records are there, run one
/// after the other in the order of their places as the language means each of them, give the results that they had, which are
/// the values that recovery gives; and the states to which the logs fold are those that this serial run leaves.
pub fn logs_recover_as_meant(program: &Checked)
    ensures { AtEveryMomentOnLogsOf (methods_of program.now) (RecoversAsMeant (methods_of program.now)) }
{
    logs_fold_to_the_members(program);
    recovered_transactions_are_in_order(program);
    recovered_transactions_are_as_meant(program);
}

/// Of runs one after the other, each of a text of one of these programs, cut off at any moment, whatever its logs are left
/// with, and each beginning with what its logs recover to: behind each of them the logs recover again, to the states that its
/// members leave behind those of the runs before.
pub fn logs_recover_behind_each_run(programs: &[Checked])
    ensures { (earlier : List (List Record)) (o : Opening) (xs : List CutRunOf) → IsRecovered earlier o → GoOnLogsOf (map methods_of programs.now) earlier o xs → RecoverAgain earlier o (map as_cut_run xs) }
{
    for program in programs {
        texts_have_the_facts(program);
    }
    recovery_laws::logs_recover_behind_each_run::<Control>();
}
