//! What the machine's words for a cell are by the calls of a `Cell`: public functions with empty bodies, whose contracts
//! are the laws.
ghost use Rattle.std.specs.Prelude.{◌≡◌, ℕ, false, true, Bool, List, Some};
ghost use Rattle.std.specs.List.{AllByRecursion};
ghost use Rattle.protocol.specs.CellParts.{Store, with_undone, parted};
ghost use Rattle.protocol.specs.Cutting.{Ascends, AreAbortedFrom, HaveRunInOrder};
ghost use Rattle.protocol.specs.OnCell.{is_entry_among, staying, going};
ghost use Rattle.protocol.specs.Parts.{Act, Cascade, Entry, Image};
ghost use Rattle.protocol.specs.Words.{is_empty, is_among, is_batch_entry, ahead, batches_on, acts_on};
ghost use Rattle.actor_cell.specs.Calls.{undone_from, store_left_by};
ghost use Rattle.actor_cell.specs.Cut.{NoneIsAborted, IsCutFrom};

/// Where a schedule is cut from batch `k` on, `undo_from` undoes what the entries that go did.
pub fn undoing_is_rollback()
    ensures { (k : ℕ) (acts : Bool) (cascades : List Cascade) (entries : List Entry) (s : Store) → IsCutFrom k acts cascades entries s.images → undone_from k acts s ≡ with_undone (going cascades entries) s }
{}

/// Where no batch of a schedule is aborted, a rollback leaves the store as it is.
pub fn nothing_to_undo()
    ensures { (cascades : List Cascade) (entries : List Entry) (s : Store) → NoneIsAborted cascades entries → with_undone (going cascades entries) s ≡ s }
{}

/// Where batch `k`, from which on a schedule is cut, stands on it, what stays is what is ahead of it.
pub fn what_stays_is_ahead()
    ensures { (k : ℕ) (cascades : List Cascade) (entries : List Entry) → Ascends (batches_on entries) → AreAbortedFrom k cascades entries → is_among k (batches_on entries) ≡ true → staying cascades entries ≡ ahead (is_batch_entry k) entries }
{}

/// Where nothing has an image behind an entry that is no complete batch, and an ACT is ahead of where a schedule is cut,
/// nothing that goes has one.
pub fn nothing_behind_an_act_has_run()
    ensures { (cascades : List Cascade) (entries : List Entry) (images : List Image) → HaveRunInOrder entries images → is_empty (acts_on (staying cascades entries)) ≡ false → AllByRecursion (λ i. is_entry_among i.who (going cascades entries) ≡ false) images }
{}

/// An ACT that leaves has its entry restored where it is doomed or failed, and finished, and where it is sealed the floor
/// of its kind is raised to its before number.
pub fn parting_is_restoring_and_finishing()
    ensures { (t : ℕ) (x : Act) (s : Store) → store_left_by t x s ≡ parted t (Some x) s }
{}
