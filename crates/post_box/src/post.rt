//! The post: sub-batches and controls under way.
ghost use Rattle.std.specs.Prelude.{◌≡◌, ◌+◌, ◌<◌, ◌≤◌, is_some, None, [], length, IsOk, IfOk, IfErr, OnOk, OnErr};
ghost use Rattle.std.specs.Option.{option_map};
ghost use Rattle.protocol.specs.OnPost.{sub_taken, control_taken};
ghost use Rattle.protocol.specs.Words.{sub_of, control_of};
ghost use Rattle.protocol.specs.Meant.{actor_number, sub_batch, who_meant};
ghost use Rattle.post_box.specs.Posting.{sub_posted, control_posted, control_message, message_control, message_to, message_who};

use crate::head::SubHead;
use crate::kept::{Control, SubRest, parted, whole};
use crate::keys::SubKey;
use crate::posted::Posted;
use crate::tally::{count_in, count_out, no_counts};
use snap_base::{ActorId, Bid, Memory, SubBatch, Tid, Who};
use std::alloc::Global;
use std::marker::Model;

/// The messages under way: sub-batches and controls. Contracts see the machine's post, which has them in the order of
/// posting, and for how many more of each kind there is room. The post keeps the allocator that it was made with.
#[derive(Drop)]
pub struct Post<C> {
    pub(crate) subs: Posted<SubKey, SubRest>,
    pub(crate) controls: Posted<Tid, Control<C>>,
    /// Of each of the first actors a number that is no less than that of the sub-batches under way to it.
    pub(crate) counts: Vec<u64>,
}

impl<C> Model for Post<C> {
    ghost use Rattle.std.specs.Prelude.{map};
    ghost use Rattle.post_box.specs.PostBox.{PostBox};

    ghost Value = { PostBox C };

    ghost use Rattle.post_box.specs.Shown.{sub_shown, control_shown};

    ghost view = { λ p. record { messages = record { subs = map sub_shown p.subs.entries; controls = map control_shown p.controls.entries }; spare_subs = p.subs.spare; spare_controls = p.controls.spare } };

    ghost use Rattle.post_box.specs.Tally.{IsTally};

    ghost invariant = { λ p. IsTally p.counts.items p.subs.entries };
}

impl<C: Drop> Post<C> {
    /// A post with no messages. `Memory` where room for the first ones cannot be allocated.
    pub fn new(alloc: Global) -> Result<Post<C>, Memory>
        ensures { IfOk result (λ post. post.messages ≡ record { subs = []; controls = [] }) }
    {
        Ok(Post {
            subs: Posted::new(alloc)?,
            controls: Posted::new(alloc)?,
            counts: no_counts(alloc)?,
        })
    }

    /// Makes room for so many more messages of each kind, so that as many puts find it. The messages stay, and there is
    /// never less room than before; after want of memory there may be more of one kind.
    pub fn room(&mut self, _alloc: Global, subs: u32, controls: u32) -> Result<(), Memory>
        ensures messages { self.new.messages ≡ self.old.messages }
        ensures subs { OnOk result (subs ≤ self.new.spare_subs) }
        ensures controls { OnOk result (controls ≤ self.new.spare_controls) }
        ensures sub_spare { self.old.spare_subs ≤ self.new.spare_subs }
        ensures control_spare { self.old.spare_controls ≤ self.new.spare_controls }
    {
        self.subs.room(subs as usize)?;
        self.controls.room(controls as usize)
    }

    /// Posts a sub-batch, where none of its batch for its actor is under way. Want of memory, which comes only where there
    /// is no room, hands it back and leaves the messages.
    pub fn put_sub(&mut self, _alloc: Global, s: SubBatch) -> Result<(), (SubBatch, Memory)>
        requires { sub_of s.bid.0 s.actor.0 self.old.messages.subs ≡ None }
        ensures ok { OnOk result (self.new.messages ≡ sub_posted (sub_batch s) self.old.messages) }
        ensures err { OnErr result (self.new.messages ≡ self.old.messages) }
        ensures back { IfErr result (λ left. left.0 ≡ s) }
        ensures succeeds { 0 < self.old.spare_subs → IsOk result }
        ensures spare { self.old.spare_subs ≤ self.new.spare_subs + 1 }
        ensures other { self.new.spare_controls ≡ self.old.spare_controls }
    {
        let a = s.actor;
        let (key, rest) = parted(s);
        match self.subs.put(key, rest) {
            Ok(()) => {
                count_in(&mut self.counts, a);
                Ok(())
            }
            Err(rest) => Err((whole(key, rest), Memory)),
        }
    }

    /// Posts a transaction's control, where none of it is under way: whose it is, and the actor that it goes to. Want of
    /// memory, which comes only where there is no room, hands the control back and leaves the messages.
    pub fn put_control(
        &mut self,
        _alloc: Global,
        tid: Tid,
        who: Who,
        to: ActorId,
        c: C,
    ) -> Result<(), (C, Memory)>
        requires { control_of tid.0 self.old.messages.controls ≡ None }
        ensures ok { OnOk result (self.new.messages ≡ control_posted (control_message tid who to c) self.old.messages) }
        ensures err { OnErr result (self.new.messages ≡ self.old.messages) }
        ensures back { IfErr result (λ left. left.0 ≡ c) }
        ensures succeeds { 0 < self.old.spare_controls → IsOk result }
        ensures spare { self.old.spare_controls ≤ self.new.spare_controls + 1 }
        ensures other { self.new.spare_subs ≡ self.old.spare_subs }
    {
        let kept = Control {
            who,
            to,
            control: c,
        };
        match self.controls.put(tid, kept) {
            Ok(()) => Ok(()),
            Err(Control { control, .. }) => Err((control, Memory)),
        }
    }

    /// Whether a batch's sub-batch for an actor is under way.
    pub fn has_sub(&self, bid: Bid, a: ActorId) -> bool
        ensures { result ≡ is_some (sub_of bid.0 a.0 self.now.messages.subs) }
    {
        let key = SubKey { bid, actor: a };
        self.subs.contains(&key)
    }

    /// What a batch's sub-batch for an actor says before it is taken. `None` exactly where it is not under way.
    pub fn sub_head(&self, bid: Bid, a: ActorId) -> Option<SubHead>
        ensures epoch { option_map (λ h. h.epoch) result ≡ option_map (λ m. m.epoch) (sub_of bid.0 a.0 self.now.messages.subs) }
        ensures prev { option_map (λ h. h.prev.0) result ≡ option_map (λ m. m.prev) (sub_of bid.0 a.0 self.now.messages.subs) }
        ensures tids { option_map (λ h. h.tids) result ≡ option_map (λ m. length m.tids) (sub_of bid.0 a.0 self.now.messages.subs) }
    {
        let key = SubKey { bid, actor: a };
        let rest = self.subs.get(&key)?;
        Some(rest.head())
    }

    /// Takes a batch's sub-batch for an actor out. `None` exactly where it is not under way; nothing changes then.
    pub fn take_sub(&mut self, bid: Bid, a: ActorId) -> Option<SubBatch>
        ensures value { option_map sub_batch result ≡ sub_of bid.0 a.0 self.old.messages.subs }
        ensures messages { self.new.messages ≡ sub_taken bid.0 a.0 self.old.messages }
        ensures spare { self.old.spare_subs ≤ self.new.spare_subs }
        ensures other { self.new.spare_controls ≡ self.old.spare_controls }
    {
        let key = SubKey { bid, actor: a };
        let rest = self.subs.take(&key)?;
        count_out(&mut self.counts, a);
        Some(whole(key, rest))
    }

    /// The actor that a transaction's control goes to. `None` exactly where no control of it is under way.
    pub fn control_to(&self, tid: Tid) -> Option<ActorId>
        ensures { option_map actor_number result ≡ option_map message_to (control_of tid.0 self.now.messages.controls) }
    {
        let kept = self.controls.get(&tid)?;
        Some(kept.to)
    }

    /// Whose a transaction's control is: a batch's, or its own as an ACT. `None` exactly where no control of it is under
    /// way.
    pub fn control_who(&self, tid: Tid) -> Option<Who>
        ensures { option_map who_meant result ≡ option_map message_who (control_of tid.0 self.now.messages.controls) }
    {
        let kept = self.controls.get(&tid)?;
        Some(kept.who)
    }

    /// Takes the control of transaction `tid` out. `None` exactly where none is under way; nothing changes then.
    pub fn take_control(&mut self, tid: Tid) -> Option<C>
        ensures value { result ≡ option_map message_control (control_of tid.0 self.old.messages.controls) }
        ensures messages { self.new.messages ≡ control_taken tid.0 self.old.messages }
        ensures spare { self.old.spare_controls ≤ self.new.spare_controls }
        ensures other { self.new.spare_subs ≡ self.old.spare_subs }
    {
        let kept = self.controls.take(&tid)?;
        Some(kept.control)
    }

    /// How many messages are under way.
    pub fn len(&self) -> usize
        ensures { result ≡ length self.now.messages.subs + length self.now.messages.controls }
    {
        self.subs.len() + self.controls.len()
    }
}
