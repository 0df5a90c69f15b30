//! A core taken apart into its tables and its parts, and put together again.
ghost use Rattle.std.specs.Prelude.{◌≡◌, ◌+◌, ◌<◌, ◌≤◌, Some, None, List, [], ◌∷◌, ◌++◌, IfOk, IfErr, length, map};
ghost use Rattle.std.specs.Vec.{vec_capacity, vec_len};
ghost use Rattle.aml_slice.specs.Controls.{Rest};
ghost use Rattle.protocol.specs.Events as machine;
ghost use Rattle.protocol.specs.Parts.{Machine};
ghost use Rattle.protocol.specs.Runs.{IsRun, reached};
ghost use Rattle.snap_core.specs.Apart.{AreItsParts, ShowSomeRun};
ghost use Rattle.snap_core.specs.Cores.{CoreState, IsAt, state_at};
ghost use Rattle.snap_hand.specs.Hands.{Fits, IsHandOf, IsWhole};
ghost use Rattle.snap_hand.specs.Shown.{Shown, AreAllParts, Belongs, no_parts, part_at, places, shown, with_part, without};
ghost use Rattle.snap_hand.specs.Tables.{AreTables, fixed_of};
ghost use Rattle.snap_hand.specs.declared.parts.Part as one;

use crate::Core;
use crate::cores::runs_lead;
use core_events::first_cell;
use snap_base::Memory;
use snap_hand::{
    Hand, Part, Tables, places_are_set, places_tell_the_hand, putting_fits, taking_fits,
};
use std::alloc::Global;

impl Core {
    /// The tables of the core and all its parts, in the order of their numbers, and the hand that had them. For want of memory the
    /// core is given back.
    pub fn into_parts(self, alloc: Global) -> Result<(Tables, Vec<Part>, Hand), (Core, Memory)>
        ensures tables { IfOk result (λ apart. apart.0 ≡ self.tables) }
        ensures accepted { IfOk result (λ apart. AreTables apart.0) }
        ensures whole { IfOk result (λ apart. AreItsParts self (map shown apart.1.items)) }
        ensures parts { IfOk result (λ apart. (es : List machine.Event) → IsAt self es → AreAllParts (fixed_of self.tables) (state_at self es) (map shown apart.1.items)) }
        ensures some { IfOk result (λ apart. ShowSomeRun (fixed_of self.tables) (map shown apart.1.items)) }
        ensures hand { IfOk result (λ apart. apart.2 ≡ no_parts self.tables.work.logs (length self.tables.opening.states)) }
        ensures back { IfErr result (λ kept. kept.0 ≡ self) }
    {
        places_are_set();
        taking_fits();
        let count = part_count(&self.tables);
        match Vec::with_capacity(alloc, count) {
            Ok(room) => {
                let Core { tables, hand } = self;
                let (parts, hand) = all_parts(&tables, hand, count, room);
                Ok((tables, parts, hand))
            }
            Err(_) => Err((self, Memory)),
        }
    }

    /// The core that has these parts, all of the text and in the order of their numbers, in a hand with places for them and no
    /// part.
    pub fn from_parts(tables: Tables, empty: Hand, parts: Vec<Part>) -> Core
        requires tables { AreTables tables }
        requires empty { empty ≡ no_parts tables.work.logs (length tables.opening.states) }
        requires some { ShowSomeRun (fixed_of tables) (map shown parts.items) }
        ensures tables { result.tables ≡ tables }
        ensures whole { AreItsParts result (map shown parts.items) }
        ensures parts { (es : List machine.Event) → IsRun (fixed_of tables) es → AreAllParts (fixed_of tables) (reached (fixed_of tables) es) (map shown parts.items) → IsAt result es }
    {
        places_are_set();
        let hand = filled(&tables, empty, parts);
        Core { tables, hand }
    }
}

/// Parts that are all those of two cores of one text are those of one core: what was taken apart and put together is as before.
pub fn one_core_of_parts()
    ensures { (c d : CoreState) (ps : List Shown) → AreItsParts c ps → AreItsParts d ps → c.tables ≡ d.tables → c ≡ d }
{
    places_tell_the_hand();
}

// How many parts the text has.
fn part_count(tables: &Tables) -> usize
    requires { AreTables tables.now }
    ensures { result ≡ 4 + tables.now.work.logs + length tables.now.opening.states }
{
    first_cell(tables.work.logs) + tables.opening.states.len()
}

// All parts of a whole hand, into a list with room for them, and the hand without them.
fn all_parts(tables: &Tables, whole: Hand, count: usize, room: Vec<Part>) -> (Vec<Part>, Hand)
    requires count { count ≡ length (places whole) }
    requires whole { IsWhole whole }
    requires hand { IsHandOf (fixed_of tables.now) whole }
    requires empty { room.items ≡ [] }
    requires room { count ≤ vec_capacity room }
    ensures parts { map Some (map shown result.0.items) ≡ places whole }
    ensures hand { result.1 ≡ no_parts tables.now.work.logs (length tables.now.opening.states) }
{
    places_are_set();
    places_tell_the_hand();
    taking_fits();
    let _logs = tables.work.logs;
    let mut hand = whole;
    let mut parts = room;
    for i in 0..count {
        take_next(&mut hand, i, &mut parts);
    }
    (parts, hand)
}

// The part of this number, which is there, to the end of the list.
fn take_next(hand: &mut Hand, i: usize, parts: &mut Vec<Part>)
    requires there { (p : Shown) × (part_at hand.old i ≡ Some p) }
    requires room { vec_len parts.old < vec_capacity parts.old }
    ensures pushed { map Some (map shown parts.new.items) ≡ map Some (map shown parts.old.items) ++ part_at hand.old i ∷ [] }
    ensures len { vec_len parts.new ≡ vec_len parts.old + 1 }
    ensures room { vec_capacity parts.new ≡ vec_capacity parts.old }
    ensures left { hand.new ≡ without i hand.old }
{
    match hand.take(i) {
        Some(part) => parts.push_reserved(part),
        None => {}
    }
}

// All parts of the text, put into an empty hand.
fn filled(tables: &Tables, empty: Hand, all: Vec<Part>) -> Hand
    requires empty { empty ≡ no_parts tables.now.work.logs (length tables.now.opening.states) }
    requires places { IsHandOf (fixed_of tables.now) empty }
    requires fits { (s : Machine Rest) → Fits empty s }
    requires some { ShowSomeRun (fixed_of tables.now) (map shown all.items) }
    ensures places { IsHandOf (fixed_of tables.now) result }
    ensures whole { places result ≡ map Some (map shown all.items) }
    ensures fits { (s : Machine Rest) → AreAllParts (fixed_of tables.now) s (map shown all.items) → Fits result s }
{
    places_are_set();
    putting_fits();
    let _logs = tables.work.logs;
    let mut hand = empty;
    let mut parts = all;
    let count = parts.len();
    for _put in 0..count {
        put_last(&mut hand, &mut parts);
    }
    hand
}

// The last part of the list into its place, which is that of the number of those before it.
fn put_last(hand: &mut Hand, parts: &mut Vec<Part>)
    requires { (front : List one.Part) × ((p : one.Part) × ((parts.old.items ≡ front ++ p ∷ []) × (Belongs hand.old (length front) (shown p) × (part_at hand.old (length front) ≡ None)))) }
    ensures { (front : List one.Part) (p : one.Part) → parts.old.items ≡ front ++ p ∷ [] → (parts.new.items ≡ front) × (hand.new ≡ with_part (length front) (shown p) hand.old) }
{
    match parts.pop() {
        Some(part) => {
            let number = parts.len();
            hand.put(number, part);
        }
        None => {}
    }
}
