//! The law: which works and openings are accepted texts of the machine.

ghost use Rattle.machine_text.specs.Texts.{IsAccepted, MayBegin};
ghost use Rattle.snap_recover.specs.declared.openings.Opening.{Opening};
ghost use Rattle.snap_work.specs.Kept.{KeepsLimits};
ghost use Rattle.snap_work.specs.Works.{Work};

/// A work within its limits, as each is that a text stands for, with an opening with which it may begin, is an accepted text of
/// the machine, and its transactions may be asked of its program.
pub fn works_are_texts()
    ensures { (w : Work) (o : Opening) → KeepsLimits w → MayBegin w o → IsAccepted w o }
{}
