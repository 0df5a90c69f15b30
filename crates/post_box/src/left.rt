//! How many events what is under way may still bring. All of it is walked through.
ghost use Rattle.std.specs.Prelude.{◌≡◌, ◌-◌, ◌^◌, min};
ghost use Rattle.protocol.specs.Left.{control_left, sub_left, total};
ghost use Rattle.post_box.specs.Kept.{entry_message};
ghost use Rattle.post_box.specs.Shown.{control_shown, sub_shown};

use crate::kept::{Control, SubRest};
use crate::keys::SubKey;
use crate::numbered::Numbered;
use crate::post::Post;
use crate::posted::Posted;
use indexmap::IndexMap;
use protocol::Visits;
use snap_base::Tid;

impl<C: Drop> Post<C> {
    /// How many events the sub-batches under way may still bring, and `u64::MAX` where more.
    pub fn subs_left(&self) -> u64
        ensures { result ≡ min (total sub_left self.now.messages.subs) (2 ^ 64 - 1) }
    {
        self.subs.subs_left()
    }

    /// How many events the controls under way may still bring, and `u64::MAX` where more.
    pub fn controls_left<W: Visits<C>>(&self, visits: &W) -> u64
        ensures { result ≡ min (total (control_left (W.code visits.now) (W.acts visits.now)) self.now.messages.controls) (2 ^ 64 - 1) }
    {
        self.controls.controls_left(visits)
    }
}

impl Posted<SubKey, SubRest> {
    fn subs_left(&self) -> u64
        ensures { result ≡ min (total (λ e. sub_left (sub_shown e)) self.now.entries) (2 ^ 64 - 1) }
    {
        subs_left(&self.messages)
    }
}

impl<C: Drop> Posted<Tid, Control<C>> {
    fn controls_left<W: Visits<C>>(&self, visits: &W) -> u64
        ensures { result ≡ min (total (λ e. control_left (W.code visits.now) (W.acts visits.now) (control_shown e)) self.now.entries) (2 ^ 64 - 1) }
    {
        controls_left(&self.messages, visits)
    }
}

fn subs_left(messages: &IndexMap<SubKey, Numbered<SubRest>>) -> u64
    ensures { result ≡ min (total (λ e. sub_left (sub_shown (entry_message e))) messages.now.entries) (2 ^ 64 - 1) }
{
    let mut left: u64 = 0;
    for i in 0..messages.len() {
        if let Some((key, numbered)) = messages.get_index(i) {
            left = left.saturating_add(sub_left(*key, &numbered.message));
        }
    }
    left
}

fn controls_left<C, W: Visits<C>>(messages: &IndexMap<Tid, Numbered<Control<C>>>, visits: &W) -> u64
    ensures { result ≡ min (total (λ e. control_left (W.code visits.now) (W.acts visits.now) (control_shown (entry_message e))) messages.now.entries) (2 ^ 64 - 1) }
{
    let mut left: u64 = 0;
    for i in 0..messages.len() {
        if let Some((tid, numbered)) = messages.get_index(i) {
            left = left.saturating_add(control_left(*tid, &numbered.message, visits));
        }
    }
    left
}

fn sub_left(key: SubKey, rest: &SubRest) -> u64
    ensures { result ≡ min (sub_left (sub_shown (key, rest.now))) (2 ^ 64 - 1) }
{
    (rest.tids.len() as u64).saturating_add(3)
}

fn control_left<C, W: Visits<C>>(tid: Tid, kept: &Control<C>, visits: &W) -> u64
    ensures { result ≡ min (control_left (W.code visits.now) (W.acts visits.now) (control_shown (tid, kept.now))) (2 ^ 64 - 1) }
{
    visits
        .cost_behind(tid, &kept.control)
        .saturating_add(visits.cost(tid))
}
