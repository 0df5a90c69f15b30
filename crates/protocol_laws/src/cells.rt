//! A cell is a store, a hybrid schedule and boxes: what an event does to a cell, it does to each of these apart.

ghost use Rattle.std.specs.Prelude.{◌≡◌, ℕ, List, Option};
ghost use Rattle.protocol.specs.CellParts.{Boxes, HybridSchedule, Store, cell_of, cleared, cut_at, parted, ran, taken_from, with_act, with_asking, with_batch, with_complete, with_control, with_done, with_outcome, with_slice, with_undone, without_act, without_batch, without_image};
ghost use Rattle.protocol.specs.Fixed.{Code};
ghost use Rattle.protocol.specs.OnCell.{act_left, act_placed, batch_completed, batch_left, batch_placed, control_came, going, is_done_after, outcome_taken, own_entries, pact_closed, reads_on, rolled_back, sliced, slice_run};
ghost use Rattle.protocol.specs.Parts.{Act, Cascade, Cell, ControlMessage, OfBatch, SubBatch};
ghost use Rattle.protocol.specs.Rivals.{Lock};
ghost use Rattle.protocol.specs.Words.{waiting_of, who_on};

/// Each cell is of three parts, and what an event does to the cell passes through to them. A part reads of the others
/// only what it is told: who runs and what the slice left, whether it is through, and which entries go.
pub fn cells_are_of_parts<C>()
    ensures each { (c : Cell C) → c ≡ cell_of (record { state = c.state; images = c.images; floors = c.floors }) (record { entries = c.entries; epoch = c.epoch; last = c.last; last_trimmed = c.last_trimmed; tail = c.tail }) (record { inbox = c.inbox; outbox = c.outbox }) }
    ensures batch { (s : Store) (h : HybridSchedule) (b : Boxes C) (k : ℕ) (m : Option SubBatch) → batch_placed k m (cell_of s h b) ≡ cell_of s (with_batch k m h) b }
    ensures act { (s : Store) (h : HybridSchedule) (b : Boxes C) (t : Lock) (older : Option ℕ) (m : Option (ControlMessage C)) → act_placed t older m (cell_of s h b) ≡ cell_of s (with_act t older h) (with_asking older m b) }
    ensures control { (s : Store) (h : HybridSchedule) (b : Boxes C) (m : Option (ControlMessage C)) → control_came m (cell_of s h b) ≡ cell_of s h (with_control m b) }
    ensures closes { (s : Store) (h : HybridSchedule) (b : Boxes C) (t : ℕ) → pact_closed t (cell_of s h b) ≡ cell_of s (with_done t h) b }
    ensures completes { (s : Store) (h : HybridSchedule) (b : Boxes C) (k : ℕ) → batch_completed k (cell_of s h b) ≡ cell_of s (with_complete k h) b }
    ensures runs { (s : Store) (h : HybridSchedule) (b : Boxes C) (code : Code C) (t a : ℕ) → let x = sliced code s.state (waiting_of t b.inbox) in slice_run code t a (cell_of s h b) ≡ cell_of (ran (reads_on t h.entries) (who_on t h.entries) x s) (with_slice (is_done_after code a x) t h) (with_outcome t x b) }
    ensures takes { (s : Store) (h : HybridSchedule) (b : Boxes C) (t : ℕ) → outcome_taken t (cell_of s h b) ≡ cell_of s h (taken_from t b) }
    ensures rolls_back { (s : Store) (h : HybridSchedule) (b : Boxes C) (cascades : List Cascade) → let gone = going cascades h.entries in rolled_back cascades (cell_of s h b) ≡ cell_of (with_undone gone s) (cut_at cascades h) (cleared gone b) }
    ensures leaves { (s : Store) (h : HybridSchedule) (b : Boxes C) (t : ℕ) (x : Option Act) → act_left t x (cell_of s h b) ≡ cell_of (parted t x s) (without_act t h) (cleared (own_entries t h.entries) b) }
    ensures trims { (s : Store) (h : HybridSchedule) (b : Boxes C) (k : ℕ) → batch_left k (cell_of s h b) ≡ cell_of (without_image (OfBatch k) s) (without_batch k h) b }
{}
