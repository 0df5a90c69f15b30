//! What papers in order say of a run, and that at most one clause is the first that is false.
ghost use Rattle.std.specs.Prelude.{◌≡◌, ℕ, List};
ghost use Rattle.snap_base.specs.declared.transactions.State.{State};
ghost use Rattle.snap_base.specs.declared.transactions.Tx.{Tx};
ghost use Rattle.aml_slice.specs.aml_check.Meaning as meaning;
ghost use Rattle.aml_slice.specs.aml_tree.Tree.{CheckedMethod};
ghost use Rattle.protocol.specs.Chains.{PlacesRise};
ghost use Rattle.protocol.specs.Events.{Event};
ghost use Rattle.protocol.specs.Fixed.{Text};
ghost use Rattle.audit_words.specs.Audited.{Audited, IsOff};
ghost use Rattle.audit_words.specs.Clauses.{Language, LeavesNothing, serial};
ghost use Rattle.audit_words.specs.Inputs.{IsInOrder};
ghost use Rattle.audit_words.specs.Papers.{Line};
ghost use Rattle.audit_words.specs.Serial.{PrintedIsSerial, told};
ghost use Rattle.audit_laws.specs.AsMeant.{PrintedAsMeant};

/// Of papers in order, by any language, no two printed places are equal. Where who fails leaves nothing, the printed replies and states
/// are those of the committed transactions, run one by one in the order of their printed places as the language means each; and
/// who failed by its own code fails so at its place.
pub fn audited_papers_are_serial()
    ensures rise { (p : Language) (w : Text) (es : List Event) (ls : List Line) → Audited p w es ls → PlacesRise (told ls) }
    ensures serial { (p : Language) (w : Text) (es : List Event) (ls : List Line) → LeavesNothing p.meaning → Audited p w es ls → PrintedIsSerial p.meaning w ls }
{}

/// Papers are in order, or one clause is false first, at one place: never both, and one answer at most.
pub fn one_answer()
    ensures once { (p : Language) (w : Text) (es : List Event) (ls : List Line) (c a d b : ℕ) → IsOff p w es ls c a → IsOff p w es ls d b → (c ≡ d) × (a ≡ b) }
    ensures apart { (p : Language) (w : Text) (es : List Event) (ls : List Line) (c a : ℕ) → Audited p w es ls → ¬ IsOff p w es ls c a }
{}

/// In the language who fails leaves nothing, and one transaction after the other is its serial execution. So of papers in order by
/// the language what `audited_papers_are_serial` says is said of that execution.
pub fn language_is_a_meaning()
    ensures nothing { (p : List CheckedMethod) → LeavesNothing (λ world tx. meaning.alone p world tx) }
    ensures serial { (p : List CheckedMethod) (world : List State) (txs : List Tx) → serial (λ world tx. meaning.alone p world tx) world txs ≡ meaning.serial p world txs }
{}

/// Of an input in order each transaction of its work has one reply, and no two printed places are equal; the printed replies and states
/// are those of the committed transactions, run one by one in the order of their places as the language means each; and who failed
/// by its own code fails so at its place.
pub fn papers_tell_serial_runs()
    ensures { (input : List ℕ) (a : IsInOrder input) → PrintedAsMeant a.work a.lines }
{}
