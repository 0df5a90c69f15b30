//! Single parts by their numbers: taken out of a hand, and put into one.
ghost use Rattle.std.specs.Prelude.{◌≡◌, ◌<◌, ◌++◌, Some, None, IfOk, length, map, replicate, slice_set, option_map, slice_get};
ghost use Rattle.std.specs.Option.{option_flatten};
ghost use Rattle.aml_slice.specs.Controls.{Rest};
ghost use Rattle.protocol.specs.Parts.{Machine};
ghost use Rattle.snap_hand.specs.Hands.{Fits, IsHandOf};
ghost use Rattle.snap_hand.specs.Shown.{Belongs, TheRing, TheBook, ThePost, TheDesk, TheLog, TheCell, no_parts, part_at, places, shown, with_part, without, without_behind};
ghost use Rattle.snap_hand.specs.Tables.{fixed_of};

use crate::{Hand, Tables};
use aml_slice::Control;
use core_events::{BOOK, DESK, FIRST_LOG, POST, RING};
use core_rows::{BookPart, CellPart, Desk, LogPart, Post, Ring};
use snap_base::Memory;
use std::alloc::Global;
use std::boxed::Box;

/// One part of the machine. The number that it has in a hand tells its kind: `RING`, `BOOK`, `POST` and `DESK` of `core_events`,
/// from `FIRST_LOG` on the logs, and from `first_cell` on the cells.
pub enum Part {
    Ring(Box<Ring>),
    Book(Box<BookPart>),
    Post(Box<Post<Control>>),
    Desk(Box<Desk>),
    Log(Box<LogPart>),
    Cell(Box<CellPart<Control>>),
}

// Written out, so that a crate above calls it and does not repeat it.
impl Drop for Part {
    fn drop(self) {
        match self {
            Part::Ring(_ring) => {}
            Part::Book(_book) => {}
            Part::Post(_post) => {}
            Part::Desk(_desk) => {}
            Part::Log(_log) => {}
            Part::Cell(_cell) => {}
        }
    }
}

impl Part {
    /// Goes to the place of this number in a hand.
    fn go_to(self, hand: &mut Hand, part: usize)
        requires kind { Belongs hand.old part (shown self) }
        requires free { part_at hand.old part ≡ None }
        ensures { hand.new ≡ with_part part (shown self) hand.old }
    {
        match self {
            Part::Ring(ring) => hand.put_ring(ring),
            Part::Book(book) => hand.put_book(book),
            Part::Post(post) => hand.put_post(post),
            Part::Desk(desk) => hand.put_desk(desk),
            Part::Log(log) => hand.put_log(part - FIRST_LOG, log),
            Part::Cell(cell) => {
                let logs = hand.logs.len();
                hand.put_cell_in(part - (FIRST_LOG + logs), cell)
            }
        }
    }
}

impl Hand {
    /// A hand with places for the logs and the actors of a text, and no part. An `Err` is want of memory, and then there is no
    /// hand.
    pub fn new(alloc: Global, tables: &Tables) -> Result<Hand, Memory>
        ensures none { IfOk result (λ h. h ≡ no_parts tables.now.work.logs (length tables.now.opening.states)) }
        ensures places { IfOk result (IsHandOf (fixed_of tables.now)) }
        ensures fits { IfOk result (λ h. (s : Machine Rest) → Fits h s) }
    {
        let logs = empty_places(alloc, tables.work.logs as usize)?;
        let cells = empty_places(alloc, tables.opening.states.len())?;
        Ok(Hand {
            ring: None,
            book: None,
            post: None,
            desk: None,
            logs,
            cells,
        })
    }

    /// Puts the part in the place of this number, which is empty.
    pub fn put(&mut self, part: usize, p: Part)
        requires kind { Belongs self.old part (shown p) }
        requires free { part_at self.old part ≡ None }
        ensures { self.new ≡ with_part part (shown p) self.old }
    {
        p.go_to(self, part)
    }

    fn put_cell_in(&mut self, a: usize, cell: Box<CellPart<Control>>)
        requires { a < length self.old.cells }
        ensures { self.new ≡ record self.old { cells = slice_set self.old.cells a (Some cell.value.cell) } }
    {
        self.cells[a] = Some(cell);
    }

    /// Takes out the part of this number; `None` where it is not there, and then nothing changes.
    pub fn take(&mut self, part: usize) -> Option<Part>
        ensures taken { option_map shown result ≡ part_at self.old part }
        ensures left { self.new ≡ without part self.old }
    {
        match part {
            RING => ring_part(self.ring.take()),
            BOOK => book_part(self.book.take()),
            POST => post_part(self.post.take()),
            DESK => desk_part(self.desk.take()),
            _ => self.take_behind(part - FIRST_LOG),
        }
    }

    // Takes out the log or the cell at place `i` of those behind the four other parts, the logs first; `None` where it is not there.
    fn take_behind(&mut self, i: usize) -> Option<Part>
        ensures taken { option_map shown result ≡ option_flatten (slice_get (map (option_map TheLog) self.old.logs ++ map (option_map TheCell) self.old.cells) i) }
        ensures left { self.new ≡ without_behind i self.old }
    {
        let logs = self.logs.len();
        if i < logs {
            self.take_log_in(i)
        } else if i - logs < self.cells.len() {
            self.take_cell_in(i - logs)
        } else {
            None
        }
    }

    fn take_log_in(&mut self, l: usize) -> Option<Part>
        requires { l < length self.old.logs }
        ensures taken { option_map shown result ≡ option_flatten (slice_get (map (option_map TheLog) self.old.logs) l) }
        ensures left { self.new ≡ record self.old { logs = slice_set self.old.logs l None } }
    {
        log_part(self.logs[l].take())
    }

    fn take_cell_in(&mut self, a: usize) -> Option<Part>
        requires { a < length self.old.cells }
        ensures taken { option_map shown result ≡ option_flatten (slice_get (map (option_map TheCell) self.old.cells) a) }
        ensures left { self.new ≡ record self.old { cells = slice_set self.old.cells a None } }
    {
        cell_part(self.cells[a].take())
    }
}

// So many places, and nothing in them.
fn empty_places<T: Drop>(alloc: Global, count: usize) -> Result<Vec<Option<T>>, Memory>
    ensures { IfOk result (λ v. v.items ≡ replicate count None) }
{
    let mut places = Vec::with_capacity(alloc, count)?;
    for _made in 0..count {
        places.push(None)?;
    }
    Ok(places)
}

fn ring_part(x: Option<Box<Ring>>) -> Option<Part>
    ensures { option_map shown result ≡ option_map (λ r. TheRing r.value) x }
{
    match x {
        Some(ring) => Some(Part::Ring(ring)),
        None => None,
    }
}

fn book_part(x: Option<Box<BookPart>>) -> Option<Part>
    ensures { option_map shown result ≡ option_map (λ b. TheBook b.value) x }
{
    match x {
        Some(book) => Some(Part::Book(book)),
        None => None,
    }
}

fn post_part(x: Option<Box<Post<Control>>>) -> Option<Part>
    ensures { option_map shown result ≡ option_map (λ p. ThePost p.value.messages) x }
{
    match x {
        Some(post) => Some(Part::Post(post)),
        None => None,
    }
}

fn desk_part(x: Option<Box<Desk>>) -> Option<Part>
    ensures { option_map shown result ≡ option_map (λ d. TheDesk d.value) x }
{
    match x {
        Some(desk) => Some(Part::Desk(desk)),
        None => None,
    }
}

fn log_part(x: Option<Box<LogPart>>) -> Option<Part>
    ensures { option_map shown result ≡ option_map (λ l. TheLog l.value.log) x }
{
    match x {
        Some(log) => Some(Part::Log(log)),
        None => None,
    }
}

fn cell_part(x: Option<Box<CellPart<Control>>>) -> Option<Part>
    ensures { option_map shown result ≡ option_map (λ c. TheCell c.value.cell) x }
{
    match x {
        Some(cell) => Some(Part::Cell(cell)),
        None => None,
    }
}
