//! The hand that a run begins with.
ghost use Rattle.std.specs.Prelude.{◌≡◌, ◌≤◌, ◌<◌, ◌^◌, None, Some, IfOk, OnOk, [], length, map, option_map, replicate};
ghost use Rattle.core_rows.specs.book_part.Halves.{Halves};
ghost use Rattle.core_rows.specs.log_set.Logs.{no_records};
ghost use Rattle.protocol.specs.BookParts.{no_orders, no_votes};
ghost use Rattle.protocol.specs.Fixed as fixed;
ghost use Rattle.protocol.specs.Runs.{new_cell, opening, opening_ring};
ghost use Rattle.snap_hand.specs.Hands.{Fits, IsHandOf, IsWhole};
ghost use Rattle.snap_hand.specs.Openings.{opening_halves, opening_lists, with_opening_others};
ghost use Rattle.snap_hand.specs.Tables.{AreTables, fixed_of, text_of};

use crate::tables::base;
use crate::{Hand, Tables};
use aml_slice::Control;
use core_rows::{BookPart, CellPart, Desk, LogPart, Post, Ring, halves_stay_of_their_book};
use snap_base::{Bid, Memory, State};
use std::alloc::Global;
use std::boxed::Box;

/// How many transactions the text has.
fn tx_count(tables: &Tables) -> u32
    requires { AreTables tables.now }
    ensures { result ≡ length (text_of tables.now).txs }
{
    tables.work.txs.len() as u32
}

/// The ring before any event.
fn new_ring(alloc: Global, tables: &Tables) -> Result<Box<Ring>, Memory>
    requires { AreTables tables.now }
    ensures { IfOk result (λ r. r.value ≡ opening_ring (fixed_of tables.now)) }
{
    let actors = tables.opening.states.len() as u16;
    let ring = Ring::new(
        alloc,
        tables.work.coordinators,
        actors,
        tables.opening.next_tid,
        tables.opening.next_bid,
    )?;
    Ok(Box::new(alloc, ring)?)
}

/// The book before any event, with room for a cascade of each transaction.
fn new_book(alloc: Global, tables: &Tables) -> Result<Box<BookPart>, Memory>
    requires { AreTables tables.now }
    ensures { IfOk result (λ b. b.value ≡ record { orders = no_orders; votes = no_votes (text_of tables.now).opening.next_c; cascades = []; most = length (text_of tables.now).txs }) }
{
    let book = BookPart::new(alloc, tables.opening.next_c, tx_count(tables))?;
    Ok(Box::new(alloc, book)?)
}

/// The post before any event.
fn new_post(alloc: Global) -> Result<Box<Post<Control>>, Memory>
    ensures { IfOk result (λ p. p.value.messages ≡ record { subs = []; controls = [] }) }
{
    let post = Post::new(alloc)?;
    Ok(Box::new(alloc, post)?)
}

/// The desk before any event.
fn new_desk(alloc: Global, tables: &Tables) -> Result<Box<Desk>, Memory>
    requires { AreTables tables.now }
    ensures { IfOk result (λ d. d.value ≡ (opening (fixed_of tables.now)).desk) }
{
    let desk = Desk::new(alloc, tx_count(tables), base(tables))?;
    Ok(Box::new(alloc, desk)?)
}

/// So many logs with no records.
fn new_logs(alloc: Global, count: u8) -> Result<Vec<Option<Box<LogPart>>>, Memory>
    ensures { IfOk result (λ v. map (option_map (λ l. l.value.log)) v.items ≡ replicate count (Some no_records)) }
{
    let mut logs = Vec::new(alloc);
    for _made in 0..count {
        let log = Box::new(alloc, LogPart::new(alloc)?)?;
        logs.push(Some(log))?;
    }
    Ok(logs)
}

/// A cell for each actor, in its state, where nothing has run since batch `first`.
fn new_cells(
    alloc: Global,
    states: &[State],
    first: Bid,
) -> Result<Vec<Option<Box<CellPart<Control>>>>, Memory>
    ensures { IfOk result (λ v. map (option_map (λ c. c.value.cell)) v.items ≡ map (λ s. Some (new_cell first.0 s)) states.now) }
{
    let mut cells = Vec::new(alloc);
    for state in states {
        let cell = Box::new(alloc, CellPart::new(alloc, *state, first)?)?;
        cells.push(Some(cell))?;
    }
    Ok(cells)
}

/// A hand with the logs and the cells, as a run of the text begins with them, and none of the four other parts.
fn with_lists(alloc: Global, tables: &Tables) -> Result<Hand, Memory>
    requires { AreTables tables.now }
    ensures { IfOk result (λ h. h ≡ opening_lists (fixed_of tables.now)) }
{
    let logs = new_logs(alloc, tables.work.logs)?;
    let cells = new_cells(alloc, tables.opening.states.as_slice(), base(tables))?;
    Ok(Hand {
        ring: None,
        book: None,
        post: None,
        desk: None,
        logs,
        cells,
    })
}

impl Hand {
    // Puts in the four other parts, as a run of the text begins with them.
    fn put_others(&mut self, alloc: Global, tables: &Tables) -> Result<(), Memory>
        requires { AreTables tables.now }
        ensures { OnOk result (self.new ≡ with_opening_others (fixed_of tables.now) self.old) }
    {
        let ring = new_ring(alloc, tables)?;
        self.put_ring(ring);
        let book = new_book(alloc, tables)?;
        self.put_book(book);
        let post = new_post(alloc)?;
        self.put_post(post);
        let desk = new_desk(alloc, tables)?;
        self.put_desk(desk);
        Ok(())
    }

    /// A hand with all parts, as a run of the text begins with them from the opening of the tables. It makes a box for each part,
    /// as many as the text has logs and actors, and four more. An `Err` is want of memory, and then there is no hand.
    pub fn open(alloc: Global, tables: &Tables) -> Result<Hand, Memory>
        requires { AreTables tables.now }
        ensures fits { IfOk result (λ h. Fits h (opening (fixed_of tables.now))) }
        ensures places { IfOk result (λ h. IsHandOf (fixed_of tables.now) h) }
        ensures whole { IfOk result IsWhole }
    {
        halves_stay_of_their_book::<Control>();
        let mut hand = with_lists(alloc, tables)?;
        hand.put_others(alloc, tables)?;
        Ok(hand)
    }
}
