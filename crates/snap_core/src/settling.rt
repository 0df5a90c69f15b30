//! How many batches a core has settled.
ghost use Rattle.std.specs.Prelude.{◌≡◌, ◌≤◌, List, length};
ghost use Rattle.protocol.specs.Events as machine;
ghost use Rattle.protocol.specs.Fixed.{most_txs};
ghost use Rattle.protocol.specs.Words.{count, is_settled};
ghost use Rattle.snap_core.specs.Cores.{IsAt, state_at};

use crate::Core;
use aml_slice::Control;
use protocol_laws::numbers_are_drawn_once;
use protocol_theorems::sizes_hold;
use snap_hand::Desk;

impl Core {
    /// How many batches are settled. It walks all batches, so it is asked once, at an end.
    pub fn settled_batches(&self) -> u32
        ensures { (es : List machine.Event) → IsAt self.now es → result ≡ count (λ b. is_settled b.stage) (state_at self.now es).desk.batches }
    {
        sizes_hold::<Control>();
        numbers_are_drawn_once::<Control>();
        settled_at(self.hand.desk())
    }
}

#[tactic(auto, using(crate::proofs::FewBatches::count_few))]
fn settled_at(desk: &Desk) -> u32
    requires { length desk.now.batches ≤ most_txs }
    ensures { result ≡ count (λ b. is_settled b.stage) desk.now.batches }
{
    desk.settled_count() as u32
}
