//! The laws. `C` is the type of controls.

ghost use Rattle.std.specs.Prelude.{ℕ, List};
ghost use Rattle.txn_records.specs.declared.records.Record.{Record};
ghost use Rattle.log_compact.specs.declared.folds.Folded.{Folded};
ghost use Rattle.compact_laws.specs.Members.{AtEveryMomentOnFolds, FoldsToMembers};
ghost use Rattle.compact_laws.specs.Stays.{SetStays, UsedStays};
ghost use Rattle.compact_laws.specs.Steps.{GoOn, SetHolds, Step, StepsStand};

use log_compact::{clearing_keeps, compacting_keeps, one_fold, one_use, refused_are_not_folded};
use protocol_records::recovered_transactions_are_in_order;
use recovery_laws::logs_recover_from_greater_numbers;

/// Of runs, crashes and compactions one after the other, each beginning with what the set folds to that the one before it left:
/// behind each of them there is a set that folds, to the states that the members of all runs leave.
pub fn sets_recover_behind_each_step<C>()
    ensures { (devices : ℕ → List Record) (head many : ℕ) (f : Folded) (xs : List (Step C)) → SetHolds devices head many f → GoOn devices head many f xs → StepsStand devices head many f xs }
{
    recovered_transactions_are_in_order::<C>();
    logs_recover_from_greater_numbers::<C>();
    clearing_keeps();
    compacting_keeps();
    one_use();
    one_fold();
}

/// At every moment of every run that begins with what its logs fold to, whatever each log is left with, the logs fold again, and nothing
/// is refused. The members are the transactions whose commit records are there. The states are those that the members leave; what is
/// committed since the checkpoint is what was, and behind it the members, in the order of their places, each with the result that it
/// has alone; the next numbers are above all.
pub fn logs_fold_to_the_members<C>()
    ensures { AtEveryMomentOnFolds (FoldsToMembers {C = C}) }
{
    logs_recover_from_greater_numbers::<C>();
    refused_are_not_folded();
}

/// What a run writes to the logs of a set leaves the set: the same head, as many logs, and the same generation.
pub fn set_stays()
    ensures { SetStays }
{}

/// What a run writes to the logs in use leaves these in use, also where there is no set.
pub fn used_stays()
    ensures { UsedStays }
{
    set_stays();
}
