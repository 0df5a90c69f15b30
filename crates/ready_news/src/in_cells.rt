//! What lies at actors.
ghost use Rattle.std.specs.Prelude.{◌≡◌, map, slice_get, OnOk};
ghost use Rattle.protocol.specs.Fixed.{declared, tx_at};
ghost use Rattle.ready_listing.specs.Listed.{Adds, on_place};
ghost use Rattle.snap_hand.specs.Hands.{IsWhole};
ghost use Rattle.snap_hand.specs.Tables.{text_of};
ghost use Rattle.ready_news.specs.InCells.{closes_behind, late_by, left_by, of_shown, owes, wakes};

use crate::at_hand::{AtHand, push_if};
use core_events::Event;
use ready_listing::{list_place, list_waiting, push_one};
use snap_base::{ActorId, Bid, Memory, Tid, TxNo};
use snap_hand::Tables;

/// The actors that a transaction declares, each with its number of calls; none where the text has no such transaction.
fn uses_of(tables: &Tables, n: TxNo) -> &[(ActorId, u8)]
    ensures { map (λ u. u.0.0) result.now ≡ declared (tx_at (text_of tables.now) n.0) }
{
    match tables.work.txs.get(n.0 as usize) {
        Some(tx) => tx.uses.as_slice(),
        None => &[],
    }
}

impl AtHand<'_> {
    /// What lies at an actor, where there is one.
    pub(crate) fn list_here(&self, a: ActorId, news: &mut Vec<Event>) -> Result<(), Memory>
        ensures { OnOk result (Adds news.old.items news.new.items (on_place self.now.hand.now a.0)) }
    {
        if !self.hand.has_actor(a) {
            return Ok(());
        }
        list_place(self.alloc, self.hand, a, news)
    }

    /// What may go on at an actor, where there is one: who waits there and may run, and the batch that can be completed.
    pub(crate) fn list_woken(&self, a: ActorId, news: &mut Vec<Event>) -> Result<(), Memory>
        requires { IsWhole self.now.hand.now }
        ensures { OnOk result (Adds news.old.items news.new.items (of_shown (wakes a.0) (slice_get self.now.hand.now.cells a.0))) }
    {
        let Some(cell) = self.cell(a) else {
            return Ok(());
        };
        let runnable = cell.runnable(self.alloc)?;
        list_waiting(a, &runnable, news)?;
        match cell.completable() {
            Some(k) => push_one(news, Event::Complete(k, a)),
            None => Ok(()),
        }
    }

    /// What a slice of the transaction left at an actor, which is to be taken on.
    pub(crate) fn list_left(&self, t: Tid, a: ActorId, news: &mut Vec<Event>) -> Result<(), Memory>
        requires { IsWhole self.now.hand.now }
        ensures { OnOk result (Adds news.old.items news.new.items (of_shown (left_by t.0 a.0) (slice_get self.now.hand.now.cells a.0))) }
    {
        let Some(cell) = self.cell(a) else {
            return Ok(());
        };
        push_if(cell.has_going(t), Event::Send(t, a), news)?;
        push_if(cell.has_ended(t), Event::End(t, a), news)
    }

    /// At an actor where a batch has arrived, the PACTs whose results the desk had before, which owe nothing there.
    pub(crate) fn list_late(&self, k: Bid, a: ActorId, news: &mut Vec<Event>) -> Result<(), Memory>
        requires { IsWhole self.now.hand.now }
        ensures { OnOk result (Adds news.old.items news.new.items (of_shown (late_by k.0 a.0 self.now.hand.now.desk) (slice_get self.now.hand.now.cells a.0))) }
    {
        let Some(cell) = self.cell(a) else {
            return Ok(());
        };
        let desk = self.hand.desk();
        let undone = cell.undone_by(self.alloc, k)?;
        for t in &undone {
            push_if(desk.result(*t).is_some(), Event::Close(*t, a), news)?;
        }
        Ok(())
    }

    /// Whether a PACT owes an actor something still; not where there is no such actor.
    fn owes(&self, t: Tid, a: ActorId) -> bool
        requires { IsWhole self.now.hand.now }
        ensures { result ≡ owes t.0 (slice_get self.now.hand.now.cells a.0) }
    {
        match self.cell(a) {
            Some(cell) => cell.has_undone(t),
            None => false,
        }
    }

    /// Where a PACT that ended may owe nothing any more, if the desk has its result: of the actors that it has declared those that it
    /// owes something.
    pub(crate) fn list_closes(&self, t: Tid, news: &mut Vec<Event>) -> Result<(), Memory>
        requires { IsWhole self.now.hand.now }
        ensures { OnOk result (Adds news.old.items news.new.items (closes_behind (text_of self.now.tables.now) t.0 self.now.hand.now.desk self.now.hand.now)) }
    {
        let desk = self.hand.desk();
        if desk.result(t).is_none() {
            return Ok(());
        }
        let Some(n) = desk.tx_of(t) else {
            return Ok(());
        };
        for declared in uses_of(self.tables, n) {
            let a = declared.0;
            push_if(self.owes(t, a), Event::Close(t, a), news)?;
        }
        Ok(())
    }
}
