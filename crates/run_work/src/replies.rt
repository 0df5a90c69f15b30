//! What the desk's marks tell of the replies.
ghost use Rattle.std.specs.Prelude.{◌≡◌, List, length, true};
ghost use Rattle.std.specs.List.{list_all};
ghost use Rattle.protocol.specs.Events as machine;
ghost use Rattle.protocol.specs.Fixed.{Fixed};
ghost use Rattle.protocol.specs.Runs.{reached};
ghost use Rattle.run_work.specs.Runs.{EachHasReply};

use protocol_laws::frame;

/// Where the desk has marked each transaction as replied to, each has its Reply among the events. `C` is the type of controls.
pub(crate) fn marks_are_replies<C>()
    ensures { (w : Fixed C) (es : List machine.Event) → list_all (λ r. r) (reached w es).desk.replied ≡ true → EachHasReply (length w.text.txs) es }
{
    frame::<C>();
}
