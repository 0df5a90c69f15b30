//! What is asked of the book when all events that ACTs may have are looked for. Each answer is about whatever book the
//! halves show.
ghost use Rattle.std.specs.Prelude.{◌≡◌, map, filter, IfOk};
ghost use Rattle.std.specs.Option.{option_map};
ghost use Rattle.protocol.specs.Meant.{tid_number};
ghost use Rattle.protocol.specs.Conditions.{is_given_up};
ghost use Rattle.protocol.specs.Parts.{Book, OfAct};
ghost use Rattle.protocol.specs.Words.{act_of};
ghost use Rattle.protocol_theorems.specs.BookFits.{actors_at};
ghost use Rattle.order_book.specs.Asked.{tx_of};
ghost use Rattle.order_book.specs.Fates.{tx_number};
ghost use Rattle.act_commit.specs.Words.{actor_numbers};
ghost use Rattle.book_part.specs.Halves.{Shows};
ghost use Rattle.book_part.specs.Listed.{live_tids};

use crate::marks::joined_actors;
use crate::part::BookPart;
use snap_base::{ActorId, Memory, Tid, TxNo};
use std::alloc::Global;

impl BookPart {
    /// The ACTs of which some event may still be allowed: the live ones, in the order of their tids. It walks the ACTs from
    /// the oldest of them on, and no older one.
    pub fn going(&self, alloc: Global) -> Result<Vec<Tid>, Memory>
        ensures { IfOk result (λ tids. (b : Book) → Shows self.now b → map tid_number tids.items ≡ live_tids b) }
    {
        let tids = self.orders.going(alloc)?;
        Ok(tids)
    }

    /// The live ACTs that are given up, in the order of their tids. It walks the ACTs from the oldest live one on, and no
    /// older one.
    pub fn given_up(&self, alloc: Global) -> Result<Vec<Tid>, Memory>
        ensures { IfOk result (λ tids. (b : Book) → Shows self.now b → map tid_number tids.items ≡ filter (λ t. is_given_up (OfAct t) b) (live_tids b)) }
    {
        let tids = self.orders.given_up(alloc)?;
        Ok(tids)
    }

    /// The actors that ACT `t` has joined, in the order in which it did; none where there is no such ACT.
    pub fn actors_of(&self, alloc: Global, t: Tid) -> Result<Vec<ActorId>, Memory>
        ensures { IfOk result (λ actors. (b : Book) → Shows self.now b → actor_numbers actors.items ≡ actors_at (act_of t.0 b.acts)) }
    {
        let actors = joined_actors(alloc, self.orders.joined(t))?;
        Ok(actors)
    }

    /// The transaction of ACT `t`; `None` where there is no such ACT.
    pub fn tx_of(&self, t: Tid) -> Option<TxNo>
        ensures { (b : Book) → Shows self.now b → option_map tx_number result ≡ tx_of (act_of t.0 b.acts) }
    {
        self.orders.tx(t)
    }
}
