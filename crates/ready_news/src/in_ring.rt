//! What the ring has next, and the logs.
ghost use Rattle.std.specs.Prelude.{◌≡◌, ◌%◌, ◌≤◌, slice_get, OnOk};
ghost use Rattle.book_part.specs.Halves.{Shows};
ghost use Rattle.ready_listing.specs.Listed.{Adds};
ghost use Rattle.protocol.specs.Conditions.{has_room_for_act, has_room_for_batch};
ghost use Rattle.protocol.specs.Parts.{Book};
ghost use Rattle.snap_hand.specs.Hands.{IsWhole};
ghost use Rattle.snap_hand.specs.Tables.{AreTables, text_of};
ghost use Rattle.ready_news.specs.InRing.{added_to, admits, admits_any, forms, forms_any, is_first, is_lone_in, passes, submitted_listed};

use crate::at_hand::{AtHand, push_if};
use core_events::Event;
use ready_listing::{next_holder, push_one};
use snap_base::{Memory, TxNo};

/// Whether the transaction is the first that waits.
fn is_first(n: TxNo, first: Option<TxNo>) -> bool
    ensures { result ≡ is_first n.0 first }
{
    match first {
        None => false,
        Some(m) => m.0 == n.0,
    }
}

fn log_at(number: u64, logs: u8) -> u8
    requires { 1 ≤ logs }
    ensures { result ≡ number % logs }
{
    (number % logs as u64) as u8
}

impl AtHand<'_> {
    /// Whether one more batch may be live.
    fn has_room_for_batch(&self) -> bool
        ensures { result ≡ has_room_for_batch (text_of self.now.tables.now) self.now.desk.now }
    {
        self.desk.live() < self.tables.work.batches as u32
    }

    /// Whether one more ACT may be live.
    fn has_room_for_act(&self) -> bool
        ensures { (b : Book) → Shows self.now.book.now b → result ≡ has_room_for_act (text_of self.now.tables.now) b }
    {
        self.book.live() < self.tables.work.acts as usize
    }

    /// The next batch, where such a PACT waits and one more batch may be live.
    fn list_form(&self, waits: bool, news: &mut Vec<Event>) -> Result<(), Memory>
        ensures { OnOk result (Adds news.old.items news.new.items (forms waits (text_of self.now.tables.now) self.now.desk.now self.now.ring.now)) }
    {
        if !waits {
            return Ok(());
        }
        let next = self.ring.next_bid();
        push_if(self.has_room_for_batch(), Event::Form(next), news)
    }

    /// The next ACT, where such a one waits and one more may be live.
    fn list_admit(&self, waits: bool, news: &mut Vec<Event>) -> Result<(), Memory>
        ensures { (b : Book) → Shows self.now.book.now b → OnOk result (Adds news.old.items news.new.items (admits waits (text_of self.now.tables.now) b self.now.ring.now)) }
    {
        if !waits {
            return Ok(());
        }
        let next = self.ring.next_tid();
        push_if(self.has_room_for_act(), Event::Admit(next), news)
    }

    /// The next batch, where a PACT waits at the holder and one more batch may be live.
    pub(crate) fn list_form_any(&self, news: &mut Vec<Event>) -> Result<(), Memory>
        ensures { OnOk result (Adds news.old.items news.new.items (forms_any (text_of self.now.tables.now) self.now.desk.now self.now.ring.now)) }
    {
        self.list_form(self.ring.has_pact(), news)
    }

    /// The next ACT, where one waits at the holder and may be live.
    pub(crate) fn list_admit_any(&self, news: &mut Vec<Event>) -> Result<(), Memory>
        ensures { (b : Book) → Shows self.now.book.now b → OnOk result (Adds news.old.items news.new.items (admits_any (text_of self.now.tables.now) b self.now.ring.now)) }
    {
        self.list_admit(self.ring.has_act(), news)
    }

    /// The token, where it may go on.
    pub(crate) fn list_pass(&self, news: &mut Vec<Event>) -> Result<(), Memory>
        requires { AreTables self.now.tables.now }
        ensures { OnOk result (Adds news.old.items news.new.items (passes (text_of self.now.tables.now).coordinators self.now.ring.now)) }
    {
        let next = next_holder(self.tables, self.ring.holder());
        push_if(self.ring.is_holder_idle(), Event::Pass(next), news)
    }

    /// What may be next after the submission of a transaction.
    pub(crate) fn list_submitted(&self, n: TxNo, news: &mut Vec<Event>) -> Result<(), Memory>
        requires { AreTables self.now.tables.now }
        ensures { (b : Book) → Shows self.now.book.now b → OnOk result (Adds news.old.items news.new.items (submitted_listed n.0 (text_of self.now.tables.now) self.now.desk.now b self.now.ring.now)) }
    {
        push_one(news, Event::Submit(self.ring.next_tx()))?;
        self.list_pass(news)?;
        self.list_form(is_first(n, self.ring.first_pact()), news)?;
        self.list_admit(is_first(n, self.ring.first_act()), news)
    }

    /// Whether one record alone waits in a log; also where there is no such log.
    fn is_lone(&self, l: u8) -> bool
        requires { IsWhole self.now.hand.now }
        ensures { result ≡ is_lone_in (slice_get self.now.hand.now.logs l) }
    {
        if !self.hand.has_log(l) {
            return true;
        }
        self.hand.log(l as usize).waiting() == 1
    }

    /// The log to which records about this number were added, where none waited there before.
    pub(crate) fn list_added(&self, number: u64, news: &mut Vec<Event>) -> Result<(), Memory>
        requires tables { AreTables self.now.tables.now }
        requires whole { IsWhole self.now.hand.now }
        ensures { OnOk result (Adds news.old.items news.new.items (added_to (text_of self.now.tables.now).logs self.now.hand.now.logs number)) }
    {
        let l = log_at(number, self.tables.work.logs);
        push_if(self.is_lone(l), Event::Sync(l), news)
    }
}
