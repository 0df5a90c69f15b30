//! What batches wait for.
ghost use Rattle.std.specs.Prelude.{◌≡◌, ◌&&◌, OnOk};
ghost use Rattle.protocol.specs.Conditions.{has_ended_well, is_noted_everywhere};
ghost use Rattle.ready_listing.specs.Listed.{Adds};
ghost use Rattle.ready_news.specs.InDesk.{commit_of, ends_of, next_ends, trims_of};

use crate::at_hand::{AtHand, push_if};
use core_events::Event;
use ready_listing::push_one;
use snap_base::{Bid, Memory};

impl AtHand<'_> {
    /// Whether the batch is noted on all its actors, and all its PACTs ended with a value.
    fn is_done(&self, k: Bid) -> bool
        ensures { result ≡ (is_noted_everywhere k.0 self.now.desk.now.batches && has_ended_well k.0 self.now.desk.now.batches) }
    {
        // Mostly a note is wanting, so the notes are looked at first.
        self.desk.all_noted(k) && self.desk.all_ended_well(k)
    }

    /// The commit of the batch, where its PACTs and its actors let it commit.
    pub(crate) fn list_commit(&self, k: Bid, news: &mut Vec<Event>) -> Result<(), Memory>
        ensures { OnOk result (Adds news.old.items news.new.items (commit_of self.now.desk.now k.0)) }
    {
        push_if(self.is_done(k), Event::Commit(k), news)
    }

    /// How the batch may end: by its commit, or where a PACT of it failed and all before that one ended with a value.
    fn list_ends(&self, k: Bid, news: &mut Vec<Event>) -> Result<(), Memory>
        ensures { OnOk result (Adds news.old.items news.new.items (ends_of self.now.desk.now k.0)) }
    {
        self.list_commit(k, news)?;
        let failed = self.desk.first_failed(k);
        push_if(failed.is_some(), Event::AbortBatch(k), news)
    }

    /// How the next batch may end.
    pub(crate) fn list_next_ends(&self, news: &mut Vec<Event>) -> Result<(), Memory>
        ensures { OnOk result (Adds news.old.items news.new.items (next_ends self.now.desk.now self.now.next)) }
    {
        match self.next {
            Some(k) => self.list_ends(k, news),
            None => Ok(()),
        }
    }

    /// That the batch leaves its actors.
    pub(crate) fn list_trims(&self, k: Bid, news: &mut Vec<Event>) -> Result<(), Memory>
        ensures { OnOk result (Adds news.old.items news.new.items (trims_of self.now.desk.now k.0)) }
    {
        let actors = self.desk.actors_of(self.alloc, k)?;
        for a in &actors {
            push_one(news, Event::Trim(k, *a))?;
        }
        Ok(())
    }
}
