//! Of every run: what its events tell of names, how its batches commit, and the clauses of papers in order that follow from the
//! laws of the machine.
ghost use Rattle.std.specs.Prelude.{List, map};
ghost use Rattle.std.specs.List.{AllByRecursion};
ghost use Rattle.protocol.specs.Events.{Event};
ghost use Rattle.protocol.specs.Fixed.{Fixed, IsText};
ghost use Rattle.protocol.specs.History.{history};
ghost use Rattle.protocol.specs.Laws.{OfEveryRun};
ghost use Rattle.protocol.specs.Runs.{IsRun};
ghost use Rattle.audit_words.specs.Beside.{CommitsStand, TellsPlaced};
ghost use Rattle.audit_words.specs.Happenings.{seen};
ghost use Rattle.audit_words.specs.Reports.{RunIsAudited};
ghost use Rattle.audit_laws.specs.Acts.{ActsAreSeen};
ghost use Rattle.audit_laws.specs.Fits.{VerdictsAreInRange};
ghost use Rattle.audit_laws.specs.Half.{HasEvidence, HasPlaces, HasPlacesWhereTold, IsHalfAudited};
ghost use Rattle.audit_laws.specs.Names.{NamesAreSeen};
ghost use Rattle.audit_laws.specs.RunsTold.{RunsAreSeen};
ghost use Rattle.run_effects.specs.core_events.declared.events.Event as code;
ghost use Rattle.run_effects.specs.core_events.Meant.{event_meant};
ghost use Rattle.trace_text.specs.Lines.{IsEvent};

use protocol_laws::{
    allowed_events_are_candidates, batches_settle_in_order, committed_are_those_with_places, frame,
    numbers_are_in_range, transactions_are_in_one_place,
};
use protocol_theorems::{
    actors_lie_in_order, committed_transactions_are_in_order, numbers_are_the_ends_of_sets,
    places_are_few, runs_that_cannot_go_on_have_answered, sizes_hold, what_is_new_is_not_there,
};
use protocol_verdicts::{verdicts_have_evidence, verdicts_tell_of_serial_runs};
use run_effects::batches_are_counted;

/// The events of a run tell its ring, the names of its batches and ACTs with their transactions, how far its cascades reach, and
/// which batches settled, as the machine has them; and as many settled as the report counts.
pub fn names_are_seen<C>()
    ensures { (w : Fixed C) (es : List Event) → IsText w.text → IsRun w es → NamesAreSeen w es }
{
    frame::<C>();
    what_is_new_is_not_there::<C>();
    batches_are_counted::<C>();
}

/// A PACT that committed ran on an actor exactly where a Run event of the run names it there.
pub fn runs_are_seen<C>()
    ensures { OfEveryRun (λ (w : Fixed C) finish es. RunsAreSeen w es) }
{
    committed_are_those_with_places::<C>();
}

/// Batches commit in the order of their numbers, and none but an ACT is told that it failed at a place.
pub fn commits_stand<C>()
    ensures { OfEveryRun (λ (w : Fixed C) finish es. CommitsStand w es) }
{
    batches_settle_in_order::<C>();
    committed_transactions_are_in_order::<C>();
    verdicts_tell_of_serial_runs::<C>();
}

/// Where no event is allowed any more, the events meet the first clause; the report has a line for each transaction, for each
/// actor, and its end; and who is told a place gives there what it is told, and the actors have the states that this leaves.
pub fn quiet_runs_are_half_audited<C>()
    ensures { OfEveryRun (λ (w : Fixed C) finish es. IsHalfAudited w finish es) }
{
    names_are_seen::<C>();
    transactions_are_in_one_place::<C>();
    sizes_hold::<C>();
    committed_transactions_are_in_order::<C>();
    runs_that_cannot_go_on_have_answered::<C>();
    verdicts_have_evidence::<C>();
    verdicts_tell_of_serial_runs::<C>();
}

/// Where no event is allowed any more, and the events tell who was placed and who has its place as the history has it, who is told
/// a place has it, and who was placed before another one, but for two readers, has a place below it.
pub fn told_places_are_audited<C>()
    ensures { OfEveryRun (λ (w : Fixed C) finish es. HasPlacesWhereTold w es) }
{
    commits_stand::<C>();
    transactions_are_in_one_place::<C>();
    sizes_hold::<C>();
    committed_transactions_are_in_order::<C>();
    runs_that_cannot_go_on_have_answered::<C>();
    verdicts_have_evidence::<C>();
    verdicts_tell_of_serial_runs::<C>();
}

/// The events of a run tell who was placed on each actor, and who has its place, in the order of the machine's history, with the
/// places that these have there.
pub fn places_are_seen<C>()
    ensures { OfEveryRun (λ (w : Fixed C) finish es. TellsPlaced w.text (history w es) (seen w.code.only_reads w.text es)) }
{
    runs_are_seen::<C>();
    frame::<C>();
    committed_are_those_with_places::<C>();
    actors_lie_in_order::<C>();
    numbers_are_the_ends_of_sets::<C>();
    what_is_new_is_not_there::<C>();
}

/// The events of a run tell of each ACT whether it is given up, and why first, as its status has it; and the commit number that is
/// drawn next.
pub fn acts_are_seen<C>()
    ensures { OfEveryRun (λ (w : Fixed C) finish es. ActsAreSeen w es) }
{
    frame::<C>();
    committed_are_those_with_places::<C>();
    actors_lie_in_order::<C>();
    numbers_are_the_ends_of_sets::<C>();
    what_is_new_is_not_there::<C>();
}

/// Where no event is allowed any more, who is told a place has it, and who was placed before another one, but for two readers, has
/// a place below it.
pub fn quiet_runs_have_their_places<C>()
    ensures { OfEveryRun (λ (w : Fixed C) finish es. HasPlaces w es) }
{
    told_places_are_audited::<C>();
    places_are_seen::<C>();
}

/// Where no event is allowed any more, whoever is told that it was aborted has its evidence in the events: an ACT died of the older
/// one that it names, stood between the two batches that it names, or was taken along by the cascade; a PACT failed with its batch,
/// run behind what counts of the report's committed, or its batch was taken along.
pub fn quiet_runs_have_evidence<C>()
    ensures { OfEveryRun (λ (w : Fixed C) finish es. HasEvidence w finish es) }
{
    names_are_seen::<C>();
    acts_are_seen::<C>();
    frame::<C>();
    transactions_are_in_one_place::<C>();
    sizes_hold::<C>();
    what_is_new_is_not_there::<C>();
    committed_transactions_are_in_order::<C>();
    runs_that_cannot_go_on_have_answered::<C>();
    verdicts_have_evidence::<C>();
    verdicts_tell_of_serial_runs::<C>();
}

/// Where no event is allowed any more, the papers of the run are in order: its trace with what it printed meets all six clauses.
pub fn quiet_runs_are_audited<C>()
    ensures { OfEveryRun (λ (w : Fixed C) finish es. RunIsAudited w finish es) }
{
    quiet_runs_are_half_audited::<C>();
    quiet_runs_have_their_places::<C>();
    quiet_runs_have_evidence::<C>();
}

/// Each number of a name that a verdict of a run tells fits its type: batches, tids and commit numbers have 64 bits, transactions
/// 32, and actors 16.
pub fn verdicts_are_in_range<C>()
    ensures { OfEveryRun (λ (w : Fixed C) finish es. VerdictsAreInRange w es) }
{
    frame::<C>();
    numbers_are_in_range::<C>();
    sizes_hold::<C>();
    places_are_few::<C>();
    transactions_are_in_one_place::<C>();
    committed_transactions_are_in_order::<C>();
    verdicts_have_evidence::<C>();
    verdicts_tell_of_serial_runs::<C>();
}

/// The numbers of each event of a run fit the types that the event gives them.
pub fn taken_events_are_in_range<C>()
    ensures { (w : Fixed C) (es : List code.Event) → IsText w.text → IsRun w (map event_meant es) → AllByRecursion IsEvent es }
{
    sizes_hold::<C>();
    allowed_events_are_candidates::<C>();
}
