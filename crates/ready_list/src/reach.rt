//! Which events an event may refuse.

ghost use Rattle.std.specs.Prelude.{◌≡◌, ◌&&◌};
ghost use Rattle.core_events.specs.Meant.{event_meant};
ghost use Rattle.protocol.specs.Events as machine;
ghost use Rattle.protocol_ready.specs.Refusing.{may_refuse};
ghost use Rattle.ready_list.specs.Order.{first_of, is_one};
ghost use Rattle.ready_list.specs.Reaches.{actor_of, is_among, is_reached, kinds_numbered, kinds_on_actor, kinds_wholly};

use crate::kinds::{
    ABORT_BATCH, ADMIT, ARRIVE, ASK, CLOSE, COMMIT, COMPLETE, DECIDE, DROP_CONTROL, DROP_SUB, END,
    FINISH, FORM, NOTE, PASS, PREPARE, ROLLBACK, RUN, SEAL, SEND, SETTLE, SUBMIT, SYNC, TAKE, TRIM,
    VOUCH, kind_of,
};
use crate::places::place_of;
use core_events::Event;

/// Which events an event may refuse, by their kinds: of most kinds it may refuse none. It is taken from the event once, and then
/// those are looked for that it may refuse.
#[derive(Drop)]
pub struct Reach {
    pub event: Event,
    /// Of these kinds it may refuse all events.
    pub wholly: &'static [u8],
    /// Of these those on its actor.
    pub on_actor: &'static [u8],
    /// Of these those with its first number.
    pub numbered: &'static [u8],
    /// The second number of those on its actor.
    pub actor: u64,
    /// Its first number.
    pub number: u64,
    ghost reached: { (f : machine.Event) → may_refuse (event_meant event) f ≡ is_reached wholly.now on_actor.now actor numbered.now number f },
}

impl Reach {
    /// The reach of an event. A Submit gives a coordinator what it waits for, and a Form draws numbers. How many batches and ACTs are
    /// live decides whether one more may begin. Batches decide which of them may commit or has failed. ACTs may be given up with
    /// others than the one that asks. Sub-batches that come to an actor or go from it refuse each other, and a schedule that is cut
    /// refuses what stands in it. A control or an outcome is taken once, and votes follow one another. The first number of a
    /// Rollback is its actor.
    pub fn of(e: Event) -> Reach
        ensures { result.event ≡ e }
    {
        match e {
            Event::Submit(n) => by_kinds(e, &[PASS], &[], &[], 0, n.0 as u64),
            Event::Pass(c) => by_kinds(e, &[], &[], &[], 0, c as u64),
            Event::Form(k) => by_kinds(e, &[ADMIT, COMMIT, ABORT_BATCH], &[], &[], 0, k.0),
            Event::Admit(t) => by_kinds(e, &[], &[], &[], 0, t.0),
            Event::Arrive(k, a) => by_kinds(
                e,
                &[ASK, PREPARE, VOUCH, DECIDE],
                &[ARRIVE, DROP_SUB],
                &[],
                a.0 as u64,
                k.0,
            ),
            Event::Ask(t, a) => by_kinds(
                e,
                &[ADMIT, ASK, PREPARE, VOUCH, DECIDE],
                &[],
                &[TAKE, DROP_CONTROL],
                a.0 as u64,
                t.0,
            ),
            Event::Take(t, a) => by_kinds(e, &[], &[], &[ASK, TAKE, DROP_CONTROL], a.0 as u64, t.0),
            Event::Run(t, a) => by_kinds(e, &[], &[], &[CLOSE], a.0 as u64, t.0),
            Event::Send(t, a) => by_kinds(e, &[], &[], &[SEND, END], a.0 as u64, t.0),
            Event::End(t, a) => by_kinds(
                e,
                &[COMMIT, ABORT_BATCH],
                &[],
                &[SEND, END, PREPARE, VOUCH, DECIDE, SEAL, FINISH],
                a.0 as u64,
                t.0,
            ),
            Event::Close(t, a) => by_kinds(e, &[], &[], &[CLOSE], a.0 as u64, t.0),
            Event::Complete(k, a) => by_kinds(e, &[], &[], &[], a.0 as u64, k.0),
            Event::Sync(l) => by_kinds(e, &[], &[], &[], 0, l as u64),
            Event::Note(k, a) => by_kinds(e, &[], &[], &[], a.0 as u64, k.0),
            Event::Commit(k) => by_kinds(e, &[], &[], &[NOTE, ABORT_BATCH], 0, k.0),
            Event::Settle(k) => by_kinds(e, &[COMMIT, ABORT_BATCH, DECIDE], &[], &[], 0, k.0),
            Event::AbortBatch(k) => by_kinds(
                e,
                &[
                    SUBMIT,
                    PASS,
                    FORM,
                    ADMIT,
                    ARRIVE,
                    ASK,
                    TAKE,
                    RUN,
                    SEND,
                    END,
                    CLOSE,
                    COMPLETE,
                    SYNC,
                    NOTE,
                    COMMIT,
                    SETTLE,
                    ABORT_BATCH,
                    ROLLBACK,
                    DROP_SUB,
                    DROP_CONTROL,
                    PREPARE,
                    VOUCH,
                    DECIDE,
                    SEAL,
                    FINISH,
                    TRIM,
                ],
                &[],
                &[],
                0,
                k.0,
            ),
            Event::Rollback(a) => by_kinds(
                e,
                &[],
                &[ARRIVE, ASK, TAKE, RUN, SEND, END, CLOSE, COMPLETE, DROP_SUB],
                &[ROLLBACK],
                a.0 as u64,
                a.0 as u64,
            ),
            Event::DropSub(k, a) => by_kinds(e, &[], &[ARRIVE, DROP_SUB], &[], a.0 as u64, k.0),
            Event::DropControl(t) => by_kinds(e, &[], &[], &[ASK, TAKE, DROP_CONTROL], 0, t.0),
            Event::Prepare(t, a) => by_kinds(e, &[], &[], &[VOUCH], a.0 as u64, t.0),
            Event::Vouch(t, a) => by_kinds(e, &[], &[], &[DECIDE], a.0 as u64, t.0),
            Event::Decide(t) => by_kinds(
                e,
                &[],
                &[],
                &[PREPARE, VOUCH, DECIDE, SEAL, FINISH],
                0,
                t.0,
            ),
            Event::Seal(t) => by_kinds(
                e,
                &[],
                &[],
                &[PREPARE, VOUCH, DECIDE, SEAL, FINISH],
                0,
                t.0,
            ),
            Event::Finish(t, a) => by_kinds(
                e,
                &[],
                &[],
                &[TAKE, RUN, SEND, END, VOUCH],
                a.0 as u64,
                t.0,
            ),
            Event::Reply(n) => by_kinds(e, &[], &[], &[], 0, n.0 as u64),
            Event::Trim(k, a) => by_kinds(
                e,
                &[],
                &[TAKE, RUN, CLOSE, COMPLETE],
                &[],
                a.0 as u64,
                k.0,
            ),
        }
    }

    /// Whether this is the event itself.
    pub fn is_of(&self, f: Event) -> bool
        ensures { result ≡ is_one (event_meant self.now.event) (event_meant f) }
    {
        kind_of(self.event) == kind_of(f) && place_of(self.event).is_same(&place_of(f))
    }

    /// Whether it may refuse this one.
    pub fn may_refuse(&self, f: Event) -> bool
        ensures { result ≡ may_refuse (event_meant self.now.event) (event_meant f) }
    {
        let place = place_of(f);
        let on_actor = is_among_if(self.actor == place.second, self.on_actor, f);
        let numbered = is_among_if(self.number == place.first, self.numbered, f);
        is_among(self.wholly, f) | (on_actor | numbered)
    }
}

fn is_among(kinds: &[u8], f: Event) -> bool
    ensures { result ≡ is_among kinds.now (event_meant f) }
{
    kinds.contains(&kind_of(f))
}

// Whether it is of one of these kinds, and a test holds, which costs less.
fn is_among_if(test: bool, kinds: &[u8], f: Event) -> bool
    ensures { result ≡ (is_among kinds.now (event_meant f) && test) }
{
    test && is_among(kinds, f)
}

// What an event reaches, by its kinds.
fn by_kinds(
    event: Event,
    wholly: &'static [u8],
    on_actor: &'static [u8],
    numbered: &'static [u8],
    actor: u64,
    number: u64,
) -> Reach
    requires wholly { wholly.now ≡ kinds_wholly (event_meant event) }
    requires on_actor { on_actor.now ≡ kinds_on_actor (event_meant event) }
    requires numbered { numbered.now ≡ kinds_numbered (event_meant event) }
    requires actor { actor ≡ actor_of (event_meant event) }
    requires number { number ≡ first_of (event_meant event) }
    ensures { result.event ≡ event }
{
    Reach {
        event,
        wholly,
        on_actor,
        numbered,
        actor,
        number,
    }
}
