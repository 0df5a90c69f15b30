//! A core of which each event gets just its footprint.
ghost use Rattle.std.specs.Prelude.{◌≡◌, true};
ghost use Rattle.std.specs.List.{AllByRecursion};
ghost use Rattle.core_events.specs.Meant.{event_meant};
ghost use Rattle.footprint_rows.specs.Footprints.{StaysOrGoesOn};
ghost use Rattle.snap_hand.specs.Hands.{Has, IsHandOf};
ghost use Rattle.snap_hand.specs.Steps.{MayBeAsked, OnSomeRun};
ghost use Rattle.snap_hand.specs.Tables.{AreTables, fixed_of};

use crate::lists::{are_listed, is_listed};
use crate::moving::move_parts;
use aml_slice::Control;
use core_events::{BOOK, DESK, Event, Footprint, footprint, part_of_cell};
use core_rows::runs_go_on;
use machine_laws::texts_have_the_facts;
use protocol_laws::{events_leave_other_parts, logs_stay};
use ready_list::ReadyList;
use ready_listing::offers;
use snap_base::{ActorId, Memory, State, TxNo, Verdict};
use snap_hand::{Hand, StepNo, Tables, apply, refusal};
use std::alloc::Global;
use std::marker::Model;

/// The tables of a text and the machine's parts, as a core has them; but each event gets just the parts of its footprint.
pub struct FootprintCore {
    tables: Tables,
    hand: Hand,
}

// By hand, so that whoever lets one go calls this, and does not repeat it.
impl Drop for FootprintCore {
    fn drop(self) {
        let FootprintCore {
            tables: _tables,
            hand: _hand,
        } = self;
    }
}

impl Model for FootprintCore {
    ghost use Rattle.footprint_rows.specs.Footprints.{IsFootprintCore};
    ghost use Rattle.snap_hand.specs.Hands.{Parts};

    ghost Value = { Parts };

    ghost view = { λ c. c.hand };

    ghost invariant = { λ c. IsFootprintCore c.tables c.hand };
}

/// Whether all parts of the footprint are at hand.
fn has_all(hand: &Hand, parts: &Footprint) -> bool
    ensures { result ≡ true → AllByRecursion (Has hand.now) parts.now }
{
    for n in 0..parts.len() {
        if !hand.has(parts.part(n)) {
            return false;
        }
    }
    true
}

/// Takes the event, where it is allowed: the rule that refuses it, or 0 where it is taken.
fn rule_of_step(alloc: Global, tables: &Tables, hand: &mut Hand, e: Event) -> Result<u8, Memory>
    requires tables { AreTables tables.now }
    requires asked { MayBeAsked (fixed_of tables.now) (event_meant e) hand.old }
    ensures places { IsHandOf (fixed_of tables.now) hand.new }
    ensures goes { StaysOrGoesOn (fixed_of tables.now) (event_meant e) hand.old hand.new }
{
    match apply(alloc, tables, e, hand) {
        Ok(()) => Ok(0),
        Err(StepNo::NotNow { rule }) => Ok(rule),
        Err(StepNo::Memory) => Err(Memory),
    }
}

/// Whether what is offered on the hand is among all that is allowed, and the event is offered exactly where no rule refuses it.
fn offers_agree(
    alloc: Global,
    tables: &Tables,
    hand: &Hand,
    e: Event,
    rule: u8,
    all: &ReadyList,
) -> Result<bool, Memory>
    requires tables { AreTables tables.now }
    requires places { IsHandOf (fixed_of tables.now) hand.now }
    requires some { OnSomeRun (fixed_of tables.now) hand.now }
{
    let offered = offers(alloc, tables, hand)?;
    if are_listed(&offered, all) {
        Ok(is_listed(&offered, e) == (rule == 0))
    } else {
        Ok(false)
    }
}

/// What a hand answers that has just the footprint of the event: the rule that refuses it, or 0 where it is taken. The refusal that
/// was asked for before is the same, and the event was offered exactly where it is taken. `None` where that is not so.
fn answer_on(
    alloc: Global,
    tables: &Tables,
    hand: &mut Hand,
    e: Event,
    all: &ReadyList,
) -> Result<Option<u8>, Memory>
    requires tables { AreTables tables.now }
    requires places { IsHandOf (fixed_of tables.now) hand.old }
    requires some { OnSomeRun (fixed_of tables.now) hand.old }
    ensures places { IsHandOf (fixed_of tables.now) hand.new }
    ensures goes { StaysOrGoesOn (fixed_of tables.now) (event_meant e) hand.old hand.new }
{
    let parts = footprint(e, tables.work.logs);
    if !has_all(hand, &parts) {
        return Ok(None);
    }
    let asked = refusal(tables, hand, e);
    if !offers_agree(alloc, tables, hand, e, asked, all)? {
        return Ok(None);
    }
    let rule = rule_of_step(alloc, tables, hand, e)?;
    Ok(if asked == rule { Some(rule) } else { None })
}

/// What a hand of just the event's footprint answers, where its parts are taken out of this hand and put back: the rule that
/// refuses the event, or 0 where it is taken. `None` where that hand answers otherwise than it was asked before, or offers
/// otherwise.
fn answer_apart(
    alloc: Global,
    tables: &Tables,
    hand: &mut Hand,
    e: Event,
    all: &ReadyList,
) -> Result<Option<u8>, Memory>
    requires tables { AreTables tables.now }
    requires places { IsHandOf (fixed_of tables.now) hand.old }
    requires some { OnSomeRun (fixed_of tables.now) hand.old }
    ensures places { IsHandOf (fixed_of tables.now) hand.new }
    ensures some { OnSomeRun (fixed_of tables.now) hand.new }
{
    runs_go_on::<Control>();
    logs_stay::<Control>();
    events_leave_other_parts::<Control>();
    let parts = footprint(e, tables.work.logs);
    let mut few = Hand::new(alloc, tables)?;
    move_parts(tables, &parts, hand, &mut few);
    let answer = answer_on(alloc, tables, &mut few, e, all);
    move_parts(tables, &parts, &mut few, hand);
    answer
}

/// What became of the transaction; `None` also where the book or the desk is not at hand.
fn verdict_on(hand: &Hand, n: TxNo) -> Option<Verdict> {
    if !hand.has(BOOK) {
        return None;
    }
    if !hand.has(DESK) {
        return None;
    }
    hand.verdict(n)
}

/// The state of the actor; `None` where it is not at hand.
fn state_on(tables: &Tables, hand: &Hand, a: ActorId) -> Option<State>
    requires { IsHandOf (fixed_of tables.now) hand.now }
{
    if !hand.has_actor(a) {
        return None;
    }
    if !hand.has(part_of_cell(a, tables.work.logs)) {
        return None;
    }
    Some(hand.state(a))
}

impl FootprintCore {
    /// The core before any event, for an accepted text and what its logs recovered to. An `Err` is want of memory.
    pub fn open(alloc: Global, tables: Tables) -> Result<FootprintCore, Memory>
        requires { AreTables tables }
    {
        texts_have_the_facts(&tables.work.program);
        let hand = Hand::open(alloc, &tables)?;
        Ok(FootprintCore { tables, hand })
    }

    /// Takes the event, where it is allowed: the rule that refuses it, or 0 where it is taken. The hand has just its footprint
    /// then. `None` where that hand is not of one mind: it lacks a part, refuses otherwise than it was asked before, or offers
    /// what is not among `all` that is allowed, or the event itself exactly where it refuses it. An `Err` is want of memory:
    /// either no room for a hand, or the event wants memory itself, and is not taken.
    pub fn answer(
        &mut self,
        alloc: Global,
        e: Event,
        all: &ReadyList,
    ) -> Result<Option<u8>, Memory> {
        answer_apart(alloc, &self.tables, &mut self.hand, e, all)
    }

    /// What became of transaction `n` of the text, which counts from 0; `None` where it is not known yet, or the text has no such
    /// transaction.
    pub fn verdict(&self, n: TxNo) -> Option<Verdict> {
        verdict_on(&self.hand, n)
    }

    /// The state of the actor; `None` where there is no such actor.
    pub fn state(&self, a: ActorId) -> Option<State> {
        state_on(&self.tables, &self.hand, a)
    }
}
