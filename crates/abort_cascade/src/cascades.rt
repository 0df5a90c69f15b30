//! All cascades, in order.
ghost use Rattle.std.specs.Prelude.{◌≡◌, ◌+◌, ◌<◌, ◌≤◌, ◌++◌, [], ◌∷◌, length, find, slice_get, Some, IfOk};
ghost use Rattle.std.specs.List.{AllByRecursion};
ghost use Rattle.std.specs.Option.{option_map};
ghost use Rattle.protocol.specs.Verdicts.{aborted_by};
ghost use Rattle.protocol.specs.Words.{covers, is_aborted};

use crate::cascade::{Cascade, covering};
use snap_base::{Bid, Memory, TxNo, Verdict};
use std::alloc::Global;
use std::marker::Model;

/// The cascades that there were, in order, and room for at most so many. Each begins above the one before it.
#[derive(Drop)]
pub struct Cascades {
    list: Vec<Cascade>,
    most: u32,
}

impl Model for Cascades {
    ghost use Rattle.std.specs.Prelude.{◌≤◌, length, vec_capacity};
    ghost use Rattle.protocol.specs.Settling.{CascadesAscend};
    ghost use Rattle.abort_cascade.specs.Kept.{KeptCascades};

    ghost Value = { KeptCascades };

    ghost view = { λ c. record { list = c.list.items; most = c.most } };

    ghost invariant = { λ c. CascadesAscend 0 c.list.items × (length c.list.items ≤ c.most) × (c.most ≤ vec_capacity c.list) };
}

impl Cascades {
    /// No cascade yet, and room for `most`. `Memory` where that room cannot be allocated; no later call takes memory.
    pub fn new(alloc: Global, most: u32) -> Result<Cascades, Memory>
        ensures { IfOk result (λ c. c ≡ record { list = []; most = most }) }
    {
        let list = Vec::with_capacity(alloc, most as usize)?;
        Ok(Cascades { list, most })
    }

    /// The PACT of transaction `by` failed with `code`, and took the batches from `first` to `upto` along. `at` is
    /// the commit number that the next ACT would have drawn.
    pub fn push(&mut self, first: Bid, upto: Bid, by: TxNo, at: u64, code: u16)
        requires room { length self.old.list < self.old.most }
        requires some { first.0 ≤ upto.0 }
        // All cascades up to now end below it.
        requires above { AllByRecursion (λ c. c.upto < first.0) self.old.list }
        ensures { self.new ≡ record self.old { list = self.old.list ++ record { first = first.0; upto = upto.0; by = by.0; at = at; code = code } ∷ [] } }
    {
        // There is room for it.
        let _pushed = self.list.push(Cascade {
            first,
            upto,
            by,
            at,
            code,
        });
    }

    /// Whether a cascade covers the batch.
    pub fn is_aborted(&self, bid: Bid) -> bool
        ensures { result ≡ is_aborted bid.0 self.now.list }
    {
        covering(self.list.as_slice(), bid).is_some()
    }

    /// The present epoch: the number of cascades.
    pub fn epoch(&self) -> u64
        ensures { result ≡ length self.now.list }
    {
        self.list.len() as u64
    }

    /// The first batch that is covered by the cascade that ended this epoch.
    pub fn first_after(&self, epoch: u64) -> Bid
        requires { epoch < length self.now.list }
        ensures { option_map (λ c. c.first) (slice_get self.now.list epoch) ≡ Some result.0 }
    {
        self.list[epoch as usize].first()
    }

    /// What became of a PACT of the batch; `None` exactly where no cascade covers the batch.
    pub fn verdict(&self, bid: Bid, tx: TxNo) -> Option<Verdict>
        ensures { result ≡ option_map (λ c. aborted_by c tx.0) (find (covers bid.0) self.now.list) }
    {
        match covering(self.list.as_slice(), bid) {
            Some(cascade) => Some(cascade.verdict(tx)),
            None => None,
        }
    }
}
