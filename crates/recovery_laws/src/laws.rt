//! What logs recover to that a crash left, over every run. `C` is the type of controls.

ghost use Rattle.std.specs.Prelude.{List};
ghost use Rattle.txn_records.specs.declared.records.Record.{Record};
ghost use Rattle.snap_recover.specs.declared.openings.Opening.{Opening};
ghost use Rattle.snap_recover.specs.Opening.{IsRecovered};
ghost use Rattle.protocol_records.specs.SeveralRuns.{CutRun};
ghost use Rattle.recovery_laws.specs.Joined.{AtEveryMomentFrom, AtEveryMomentOnLogs, GoOnLogs, RecoverAgain, RecoversFrom, RecoversToMembers, ValuesAreResults};

use protocol_laws::{
    committed_are_those_with_places, numbers_are_drawn_once, numbers_are_in_range,
    pairs_carry_before_numbers,
};
use protocol_records::{
    next_numbers_are_above_all, places_are_drawn, records_are_added_once, records_tell_what_is,
    recovered_transactions_are_in_order,
};
use protocol_theorems::sizes_hold;
use snap_recover::refused_is_not_recovered;

/// At every moment of every run on logs that recover to the run's opening, whatever each log is left with, recovery refuses
/// nothing. The members are the transactions whose commit records are there. Of the opening that recovery gives the states are
/// those that the members leave, the batches and the undeclared transactions are those of earlier runs and behind them the
/// members, in the order of their places, each with the result that it has alone, and the next numbers are above all.
pub fn logs_recover_to_the_members<C>()
    ensures { AtEveryMomentOnLogs (RecoversToMembers {C = C}) }
{
    recovered_transactions_are_in_order::<C>();
    records_are_added_once::<C>();
    records_tell_what_is::<C>();
    numbers_are_in_range::<C>();
    numbers_are_drawn_once::<C>();
    pairs_carry_before_numbers::<C>();
    sizes_hold::<C>();
    next_numbers_are_above_all::<C>();
    committed_are_those_with_places::<C>();
    places_are_drawn::<C>();
    refused_is_not_recovered();
}

/// The same where the run began with greater numbers than its logs tell, as it does behind a checkpoint. Recovery gives the
/// numbers that the records tell, and the run's next numbers are these or the ones with which it began.
pub fn logs_recover_from_greater_numbers<C>()
    ensures { AtEveryMomentFrom (RecoversFrom {C = C}) }
{
    recovered_transactions_are_in_order::<C>();
    records_are_added_once::<C>();
    records_tell_what_is::<C>();
    numbers_are_in_range::<C>();
    numbers_are_drawn_once::<C>();
    pairs_carry_before_numbers::<C>();
    sizes_hold::<C>();
    next_numbers_are_above_all::<C>();
    committed_are_those_with_places::<C>();
    places_are_drawn::<C>();
    refused_is_not_recovered();
}

/// Of runs one after the other, each cut off at any moment, whatever its logs are left with, and each beginning with
/// what its logs recover to: behind each of them the logs recover again, to the states that its members leave behind those of
/// the runs before.
pub fn logs_recover_behind_each_run<C>()
    ensures { (earlier : List (List Record)) (o : Opening) (xs : List (CutRun C)) → IsRecovered earlier o → GoOnLogs earlier o xs → RecoverAgain earlier o xs }
{
    logs_recover_to_the_members::<C>();
}

/// Of runs one after the other, each cut off at any moment, whatever its logs are left with and whatever they held before the
/// first run: recovery gives the members of each run, the transactions whose commit records are there, with their values; and
/// these are the results that the members have alone, one after the other from the states with which the run began.
pub fn values_are_results<C>()
    ensures { (earlier : List (List Record)) (o : Opening) (xs : List (CutRun C)) → IsRecovered earlier o → GoOnLogs earlier o xs → ValuesAreResults earlier o xs }
{
    logs_recover_to_the_members::<C>();
}
