//! What follows for a caller, who calls it to cite it.

ghost use Rattle.std.specs.Prelude.{◌≡◌, ℕ, ◌≤◌, length};
ghost use Rattle.snap_work.specs.declared.limits.TheConstants.{MOST_TRANSACTIONS};
ghost use Rattle.snap_work.specs.Works.{Work};
ghost use Rattle.work_gen.specs.Generated.{generated_text};
ghost use Rattle.work_text.specs.Reads.{IsWork};

/// A generated text stands for a work of as many transactions.
pub fn generated_texts_are_works()
    ensures { (n seed : ℕ) → n ≤ MOST_TRANSACTIONS → (w : Work) × IsWork (generated_text n seed) w × (length w.txs ≡ n) }
{}
