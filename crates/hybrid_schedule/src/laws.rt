//! What a cut at a batch is, in the words of the cascades.
ghost use Rattle.std.specs.Prelude.{◌≡◌, ℕ, List, length};
ghost use Rattle.protocol.specs.Cutting.{AreAbortedFrom};
ghost use Rattle.protocol.specs.Parts.{Cascade, Entry};
ghost use Rattle.protocol.specs.OnCell.{going};
ghost use Rattle.protocol.specs.CellParts.{HybridSchedule, cut_at};
ghost use Rattle.hybrid_schedule.specs.Cuts.{cut_from, going_from};

/// Where the batches from some number on are the aborted ones, a rollback cuts there.
pub fn cut_is_at_first_aborted()
    ensures { (cascades : List Cascade) (k : ℕ) (h : HybridSchedule)
        → AreAbortedFrom k cascades h.entries → cut_from k (length cascades) h ≡ cut_at cascades h }
{}

/// Where the batches from some number on are the aborted ones, what a rollback takes is what stands from the first of them on.
pub fn gone_is_from_first_aborted()
    ensures { (cascades : List Cascade) (k : ℕ) (entries : List Entry)
        → AreAbortedFrom k cascades entries → going_from k entries ≡ going cascades entries }
{}
