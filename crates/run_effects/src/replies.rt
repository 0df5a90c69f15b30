//! Laws on the replies that a run gives and the lines that it prints for them. `C` is the type of controls.
ghost use Rattle.protocol.specs.Fixed.{Fixed};
ghost use Rattle.protocol.specs.Laws.{OfEveryRun};
ghost use Rattle.run_effects.specs.Laws.{RepliesGrow};
ghost use Rattle.run_effects.specs.Replies.{AllCountsGrow, AnswersGrow};

use protocol_verdicts::verdicts_have_evidence;

/// A law of every run, cited by a call: an event that is a Reply adds one answer after the earlier ones, its transaction's verdict
/// at that moment, and any other event adds none; and the report's counts grow by that verdict.
pub fn answers_grow<C>()
    ensures grow { OfEveryRun (λ (w : Fixed C) finish es. AnswersGrow w es) }
    ensures counts { OfEveryRun (λ (w : Fixed C) finish es. AllCountsGrow w es) }
{
    verdicts_have_evidence::<C>();
}

/// A law of every run, cited by a call: an event that is a Reply prints its line after the earlier ones, any other event nothing.
pub fn replies_grow<C>()
    ensures { OfEveryRun (λ (w : Fixed C) finish es. RepliesGrow w es) }
{
    answers_grow::<C>();
}
