//! Laws of recovery: one opening, one refusal, and what Genesis alone recovers to.
ghost use Rattle.std.specs.Prelude.{◌≡◌, ◌≢◌, ℕ, ◌+◌, ◌≤◌, List, [], ◌∷◌, ◌++◌, length};
ghost use Rattle.std.specs.List.{AllByRecursion};
ghost use Rattle.txn_records.specs.declared.limits.TheConstants.{MOST_LISTED};
ghost use Rattle.snap_base.specs.declared.transactions.State.{State};
ghost use Rattle.txn_records.specs.declared.records.Record.{Record};
ghost use Rattle.txn_records.specs.declared.records.Record.TheVariants.{Genesis};
ghost use Rattle.txn_records.specs.Records.{IsState, IsRecord};
ghost use Rattle.snap_recover.specs.declared.openings.Opening.{Opening};
ghost use Rattle.snap_recover.specs.declared.refusals.RecoverNo.{RecoverNo};
ghost use Rattle.snap_recover.specs.declared.refusals.RecoverNo.TheVariants.{Memory};
ghost use Rattle.snap_recover.specs.Opening.{IsRecovered};
ghost use Rattle.snap_recover.specs.Refusals.{IsRefused};

/// Logs recover to one opening at most.
pub fn one_opening()
    ensures { (logs : List (List Record)) (o p : Opening) → IsRecovered logs o → IsRecovered logs p → o ≡ p }
{}

/// Logs are refused with one answer at most, want of memory aside.
pub fn one_refusal()
    ensures { (logs : List (List Record)) (x y : RecoverNo) → x ≢ Memory → y ≢ Memory → IsRefused logs x → IsRefused logs y → x ≡ y }
{}

/// Logs that are refused recover to no opening, want of memory aside.
pub fn refused_is_not_recovered()
    ensures { (logs : List (List Record)) (no : RecoverNo) (o : Opening) → no ≢ Memory → IsRefused logs no → ¬ IsRecovered logs o }
{}

/// What logs of records recover to are states, one for each actor, and no more than Genesis may tell.
pub fn recovered_states()
    ensures states { (logs : List (List Record)) (o : Opening) → AllByRecursion (AllByRecursion IsRecord) logs → IsRecovered logs o → AllByRecursion IsState o.states }
    ensures few { (logs : List (List Record)) (o : Opening) → AllByRecursion (AllByRecursion IsRecord) logs → IsRecovered logs o → length o.states ≤ MOST_LISTED }
{}

/// One log that holds Genesis alone recovers to what the first run begins with: the states of Genesis, nothing committed,
/// and all numbers from 1 on.
pub fn begun_is_recovered()
    ensures { (states : List State) → IsRecovered ((Genesis 1 states ∷ []) ∷ [])
        (record { states = states; committed = []; next_tid = record { 0 = 1 }; next_bid = record { 0 = 1 }; next_c = 1 }) }
{}

/// Logs of which log 0 holds Genesis alone, and the others no record, recover to what the first run begins with: the states
/// of Genesis, nothing committed, and all numbers from 1 on.
pub fn begun_logs_are_recovered()
    ensures { (count : ℕ) (others : List (List Record)) (states : List State) → count ≡ length others + 1 → AllByRecursion (λ (rs : List Record). rs ≡ []) others
        → IsRecovered ((Genesis count states ∷ []) ∷ others) (record { states = states; committed = []; next_tid = record { 0 = 1 }; next_bid = record { 0 = 1 }; next_c = 1 }) }
{}
