//! A table is made.
ghost use Rattle.std.specs.Prelude.{◌≡◌, ◌+◌, ◌<◌, ◌≤◌, [], List, map, replicate, length, Some, IfOk, IfErr, OnOk, OnErr, vec_len, vec_capacity};
ghost use Rattle.turn_table.specs.Views.{whole};
ghost use Rattle.turn_table.specs.Words.{tables_of, opening_of, IsOf, knows};

use crate::limits::MOST_PARTS;
use crate::passes::Pass;
use crate::pieces::Piece;
use crate::rule::Start;
use crate::turns::Turns;
use atomic_table::{Refused, Table};
use snap_base::Memory;
use std::alloc::{AllocError, Global};
use std::snapshot::Snapshot;

/// The parts as slots, where there is memory for them. The parts' list keeps its room.
fn slots_of<P: Drop>(alloc: Global, parts: &mut Vec<P>) -> Result<Vec<Option<P>>, AllocError>
    ensures slots { IfOk result (λ slots. slots.items ≡ map Some parts.old.items) }
    ensures emptied { OnOk result (parts.new.items ≡ []) }
    ensures room { vec_capacity parts.new ≡ vec_capacity parts.old }
    ensures err { OnErr result (parts.new.items ≡ parts.old.items) }
{
    let mut slots = Vec::with_capacity(alloc, parts.len())?;
    while let Some(part) = parts.pop() {
        slots.push_reserved(Some(part));
    }
    slots.reverse();
    Ok(slots)
}

/// The words of a table that nobody has used: no event is counted, and each turn is free.
fn all_free(alloc: Global, count: usize) -> Result<Vec<u64>, AllocError>
    ensures { IfOk result (λ words. words.items ≡ replicate count 0) }
{
    vec![in alloc; 0; count]
}

/// The parts in the slots go back into the list that has room for them.
fn put_back<P: Drop>(parts: &mut Vec<P>, mut slots: Vec<Option<P>>)
    requires slots { (ps : List P) × (slots.items ≡ map Some ps) }
    requires room { (parts.old.items ≡ []) × (vec_len slots ≤ vec_capacity parts.old) }
    ensures { (ps : List P) → slots.items ≡ map Some ps → parts.new.items ≡ ps }
{
    while let Some(slot) = slots.pop() {
        let Some(part) = slot else { unreachable!() };
        parts.push_reserved(part);
    }
    parts.reverse();
}

impl<P: Piece> Turns<P> {
    /// A table of these parts, with the one pass from which all others are split. Want of memory gives all back.
    pub fn new(
        alloc: Global,
        tables: P::Tables,
        parts: Vec<P>,
    ) -> Result<(Turns<P>, Pass<P>), (P::Tables, Vec<P>, Memory)>
        requires { (0 < vec_len parts) × (vec_len parts ≤ MOST_PARTS) }
        ensures tables { IfOk result (λ made. tables_of made.0 ≡ tables) }
        ensures parts { IfOk result (λ made. (opening_of made.0 ≡ parts.items) × (made.0.parts ≡ vec_len parts)) }
        ensures pass { IfOk result (λ made. IsOf made.0 made.1.seat × (knows made.1.seat ≡ whole)) }
        ensures err { IfErr result (λ back. (back.0 ≡ tables) × (back.1.items ≡ parts.items)) }
    {
        let start = Start {
            tables: Snapshot::of(&tables),
            parts: Snapshot::of(&parts),
        };
        let count = parts.len();
        let mut parts = parts;
        let Ok(words) = all_free(alloc, count + 1) else {
            return Err((tables, parts, Memory));
        };
        let Ok(slots) = slots_of(alloc, &mut parts) else {
            return Err((tables, parts, Memory));
        };
        match Table::new(alloc, &words, slots, &start) {
            Ok((table, seat)) => {
                let turns = Turns {
                    tables,
                    parts: count,
                    alloc,
                    table,
                };
                let pass = Pass {
                    seat,
                    entries: Vec::new(alloc),
                };
                Ok((turns, pass))
            }
            Err(Refused { slots }) => {
                put_back(&mut parts, slots);
                Err((tables, parts, Memory))
            }
        }
    }
}
