//! The clauses of papers in order, each from what it rests on: the events of a run, its report, and its history.
ghost use Rattle.std.specs.Prelude.{ℕ, ◌<◌, List, [], length};
ghost use Rattle.snap_base.specs.declared.transactions.State.{State};
ghost use Rattle.protocol.specs.Chains.{RivalsRise, chain};
ghost use Rattle.protocol.specs.Events.{Event};
ghost use Rattle.protocol.specs.Facts.{Alone};
ghost use Rattle.protocol.specs.Fixed.{Fixed, Text};
ghost use Rattle.protocol.specs.History.{History, history};
ghost use Rattle.protocol.specs.Report.{report};
ghost use Rattle.protocol.specs.Runs.{IsRun, reached};
ghost use Rattle.audit_words.specs.Audited.{EachLine, EachMeets, HasShape};
ghost use Rattle.audit_words.specs.Beside.{CommitsStand, TellsPlaced};
ghost use Rattle.audit_words.specs.Clauses.{TellsMeaning, TellsOrder, TellsPlace};
ghost use Rattle.audit_words.specs.Orders.{RiseTo};
ghost use Rattle.audit_words.specs.Papers.{Line};
ghost use Rattle.audit_words.specs.Reports.{AllReplied, AnswersStand, CommittedStand, meaning_of, report_lines};
ghost use Rattle.audit_words.specs.Seen.{Seen, first_ring};

/// The events of a run meet the first clause: what they do to the ring is what is read on the ring alone.
pub fn runs_are_numbered<C>()
    ensures { (w : Fixed C) (es : List Event) → IsRun w es → EachMeets w.text es (first_ring w.text) }
{}

/// Where places rise along each actor's chain, but for two readers, they rise to each transaction.
pub fn chains_rise_to_each()
    ensures { (n : ℕ) (h : History) → ((a : ℕ) → RivalsRise (chain a h)) → RiseTo n h }
{}

/// The report of a run that has answered all has the shape of the second clause.
pub fn reports_have_shape<C>()
    ensures { (w : Fixed C) (es : List Event) → IsRun w es → AnswersStand w es → AllReplied w es → HasShape (length w.text.txs) (length w.text.opening.states) (report es (reached w es)).batches (report_lines w es) }
{}

/// The report of a run that has answered all tells what the language means.
pub fn reports_tell_meaning<C>()
    ensures { (w : Fixed C) (finish : C → List State → Alone) (es : List Event) → IsRun w es → AnswersStand w es → AllReplied w es → CommittedStand w finish es → EachLine (TellsMeaning (meaning_of w finish) w.text (report_lines w es)) [] (report_lines w es) }
{}

/// Where the events tell who was placed and who has its place as the history has it, the third clause holds of the report of a run
/// that has answered all.
pub fn reports_tell_places<C>()
    ensures { (w : Fixed C) (finish : C → List State → Alone) (es : List Event) (t : Seen) → IsRun w es → AnswersStand w es → CommittedStand w finish es → CommitsStand w es → TellsPlaced w.text (history w es) t → EachLine (TellsPlace t) [] (report_lines w es) }
{}

/// Where the events tell who was placed and who has its place as the history has it, and places rise along the history's chains,
/// but for two readers, the fifth clause holds of any lines.
pub fn chains_tell_order()
    ensures { (w : Text) (h : History) (t : Seen) (ls : List Line) → TellsPlaced w h t → ((a : ℕ) → a < length w.opening.states → RivalsRise (chain a h)) → EachLine (TellsOrder t) [] ls }
{}
