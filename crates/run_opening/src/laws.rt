//! A law of a run's beginning: it begins again alike.
ghost use Rattle.std.specs.Prelude.{◌≤◌, List, length};
ghost use Rattle.snap_base.specs.declared.transactions.State.{State};
ghost use Rattle.txn_records.specs.declared.records.Record.{Record};
ghost use Rattle.snap_recover.specs.declared.openings.Opening.{Opening};
ghost use Rattle.run_opening.specs.Begins.{Begins};
ghost use Rattle.run_opening.specs.Starts.{IsStart};
ghost use Rattle.run_opening.specs.Opens.{with_first};

use log_compact::begun_lists_fold;

/// Where a run begins, a run of the same text would begin again with the same opening, whether what is to be written
/// before it is written by then or not.
pub fn begins_again()
    ensures unwritten { (logs : List (List Record)) (states : List State) (o : Opening) (added : List Record) → IsStart logs states o added → Begins logs states o }
    ensures written { (logs : List (List Record)) (states : List State) (o : Opening) (added : List Record) → 1 ≤ length logs → IsStart logs states o added → Begins (with_first logs added) states o }
{
    begun_lists_fold();
}
