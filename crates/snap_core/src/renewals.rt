//! What may happen next, kept from event to event.
ghost use Rattle.std.specs.Prelude.{◌≡◌, List, [], ◌∷◌, ◌++◌, map, OnErr, OnOk};
ghost use Rattle.core_events.specs.Meant.{event_meant};
ghost use Rattle.protocol.specs.Conditions.{IsAllowed};
ghost use Rattle.protocol.specs.Events as machine;
ghost use Rattle.protocol.specs.Schedule.{IsEnabled};
ghost use Rattle.ready_news.specs.New.{IsForeseen};
ghost use Rattle.ready_renewal.specs.Covering.{Covers};
ghost use Rattle.snap_core.specs.Cores.{IsAt, state_at};
ghost use Rattle.snap_hand.specs.Tables.{fixed_of};

use crate::Core;
use crate::cores::runs_lead;
use core_events::Event;
use ready_list::ReadyList;
use ready_news::foreseen;
use ready_renewal::{advance, renew};
use snap_base::Memory;
use std::alloc::Global;

impl Core {
    /// Puts events in place of what was in the list, among which each is that the event will make allowed, where it is a Sync, is
    /// allowed, and has yet to be taken; nothing, where it is another event. `renew` and `advance` want it behind the event. An `Err`
    /// is want of memory, and then nothing is said of the list.
    pub fn foresee(&self, e: Event, news: &mut Vec<Event>) -> Result<(), Memory>
        ensures { OnOk result ((es : List machine.Event) → IsAt self.now es → IsAllowed (fixed_of self.now.tables) (event_meant e) (state_at self.now es) → IsForeseen (fixed_of self.now.tables) (event_meant e) (state_at self.now es) (map event_meant news.new.items)) }
    {
        runs_lead(&self.tables);
        foreseen(&self.tables, &self.hand, e, news)
    }

    /// Makes of all events that were allowed before the event, which was just taken, all that are allowed now. It looks only at
    /// those that the event may have made allowed or refused. For want of memory the list is as it was. What `foresee` put into
    /// `news` ahead of the event is handed in; nothing is said of what `news` has then.
    pub fn renew(
        &self,
        alloc: Global,
        e: Event,
        list: &mut ReadyList,
        news: &mut Vec<Event>,
    ) -> Result<(), Memory>
        ensures renewed { OnOk result ((es : List machine.Event) → IsAt self.now (es ++ event_meant e ∷ []) → IsForeseen (fixed_of self.now.tables) (event_meant e) (state_at self.now es) (map event_meant news.old.items) → IsEnabled (fixed_of self.now.tables) (state_at self.now es) list.old.events → IsEnabled (fixed_of self.now.tables) (state_at self.now (es ++ event_meant e ∷ [])) list.new.events) }
        ensures unchanged { OnErr result (list.new.events ≡ list.old.events) }
    {
        runs_lead(&self.tables);
        renew(alloc, &self.tables, &self.hand, e, list, news)
    }

    /// Makes of events among which all were that were allowed before the event, which was just taken, events among which all are
    /// that are allowed now: the event itself is taken out, since it is not allowed right behind itself, and what it has made allowed
    /// is put in. For want of memory the list is as it was. What `foresee` put into `news` ahead of the event is handed in; nothing is
    /// said of what `news` has then.
    pub fn advance(
        &self,
        alloc: Global,
        e: Event,
        list: &mut ReadyList,
        news: &mut Vec<Event>,
    ) -> Result<(), Memory>
        ensures advanced { OnOk result ((es : List machine.Event) → IsAt self.now (es ++ event_meant e ∷ []) → IsForeseen (fixed_of self.now.tables) (event_meant e) (state_at self.now es) (map event_meant news.old.items) → Covers (fixed_of self.now.tables) (state_at self.now es) list.old.events → Covers (fixed_of self.now.tables) (state_at self.now (es ++ event_meant e ∷ [])) list.new.events) }
        ensures unchanged { OnErr result (list.new.events ≡ list.old.events) }
    {
        runs_lead(&self.tables);
        advance(alloc, &self.tables, &self.hand, e, list, news)
    }
}
