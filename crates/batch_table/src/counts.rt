//! What is counted of all batches.
ghost use Rattle.std.specs.Prelude.{◌≡◌, count_by};
ghost use Rattle.protocol.specs.Words as words;

use crate::batches::BatchEntry;
use crate::desk::Desk;

impl Desk {
    /// How many batches are settled. It walks all batches.
    pub fn settled_count(&self) -> usize
        ensures { result ≡ words.count (λ b. words.is_settled b.stage) self.now.batches }
    {
        settled_among(self.batches.as_slice())
    }
}

fn settled_among(batches: &[BatchEntry]) -> usize
    ensures { result ≡ words.count (λ b. words.is_settled b.stage) batches.now }
{
    passing(batches)
}

/// How many batches are settled, in std's word for it.
fn passing(batches: &[BatchEntry]) -> usize
    ensures { result ≡ count_by (λ b. words.is_settled b.stage) batches.now }
{
    batches.iter().filter(|batch| batch.is_settled()).count()
}
