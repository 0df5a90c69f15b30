//! Taking single parts out of a hand, and putting them back.
ghost use Rattle.std.specs.Prelude.{◌≡◌, ◌<◌, ◌++◌, nat_lt, None, Some, is_some, length, map, slice_get, slice_set};
ghost use Rattle.core_rows.specs.log_set.Logs.{LogList};
ghost use Rattle.core_rows.specs.book_part.Halves.{Halves};
ghost use Rattle.protocol.specs.Parts as parts;
ghost use Rattle.protocol.specs.Parts.{Cell};
ghost use Rattle.aml_slice.specs.Controls.{Rest};
ghost use Rattle.snap_hand.specs.Hands.{is_at_hand, is_not_out};

use crate::Hand;
use aml_slice::Control;
use core_events::{BOOK, DESK, FIRST_LOG, POST, RING};
use core_rows::{BookPart, CellPart, Desk, LogPart, Post, Ring};
use snap_base::ActorId;
use std::boxed::Box;

impl Hand {
    /// Whether the hand has a place for the cell of this actor: whether the text has such an actor. Its cell may be out.
    pub fn has_actor(&self, a: ActorId) -> bool
        ensures { result ≡ nat_lt a.0 (length self.now.cells) }
    {
        (a.0 as usize) < self.cells.len()
    }

    /// Whether the hand has a place for this log, which counts from 0: whether the text has such a log. It may be out.
    pub fn has_log(&self, l: u8) -> bool
        ensures { result ≡ nat_lt l (length self.now.logs) }
    {
        (l as usize) < self.logs.len()
    }

    /// Whether the part of this number is at hand: 0 is the ring, 1 the book, 2 the post, 3 the desk, from 4 on the logs, and
    /// behind these the cells. It is `true` where the text has no part of this number.
    pub fn has(&self, part: usize) -> bool
        ensures { result ≡ is_at_hand self.now part }
    {
        match part {
            RING => self.ring.is_some(),
            BOOK => self.book.is_some(),
            POST => self.post.is_some(),
            DESK => self.desk.is_some(),
            _ => self.has_behind(part - FIRST_LOG),
        }
    }

    // Whether the log or the cell at place `i` of those behind the four other parts, the logs first, is at hand.
    fn has_behind(&self, i: usize) -> bool
        ensures { result ≡ is_not_out (slice_get (map is_some self.now.logs ++ map is_some self.now.cells) i) }
    {
        if i < self.logs.len() {
            self.has_log_at(i)
        } else {
            self.has_cell_at(i - self.logs.len())
        }
    }

    fn has_log_at(&self, l: usize) -> bool
        requires { l < length self.now.logs }
        ensures { slice_get (map is_some self.now.logs) l ≡ Some result }
    {
        self.logs[l].is_some()
    }

    /// Whether the cell of the actor is at hand. It is `true` where the text has no such actor.
    pub fn has_cell(&self, a: ActorId) -> bool
        ensures { result ≡ is_not_out (slice_get (map is_some self.now.cells) a.0) }
    {
        self.has_cell_at(a.0 as usize)
    }

    fn has_cell_at(&self, a: usize) -> bool
        ensures { result ≡ is_not_out (slice_get (map is_some self.now.cells) a) }
    {
        match self.cells.get(a) {
            Some(cell) => cell.is_some(),
            None => true,
        }
    }

    /// Takes out the cell of the actor, which is there.
    pub(crate) fn take_cell(&mut self, a: ActorId) -> Box<CellPart<Control>>
        requires { (x : Cell Rest) × (slice_get self.old.cells a.0 ≡ Some (Some x)) }
        ensures there { slice_get self.old.cells a.0 ≡ Some (Some result.value.cell) }
        ensures taken { self.new ≡ record self.old { cells = slice_set self.old.cells a.0 None } }
    {
        self.cells[a.0 as usize].take().unwrap()
    }

    /// Puts the cell of the actor in its place.
    pub(crate) fn put_cell(&mut self, a: ActorId, cell: Box<CellPart<Control>>)
        requires { a.0 < length self.old.cells }
        ensures { self.new ≡ record self.old { cells = slice_set self.old.cells a.0 (Some cell.value.cell) } }
    {
        self.cells[a.0 as usize] = Some(cell);
    }

    /// Takes out the ring, which is there.
    pub(crate) fn take_ring(&mut self) -> Box<Ring>
        requires { (x : parts.Ring) × (self.old.ring ≡ Some x) }
        ensures there { self.old.ring ≡ Some result.value }
        ensures taken { self.new ≡ record self.old { ring = None } }
    {
        self.ring.take().unwrap()
    }

    /// Puts the ring in its place.
    pub(crate) fn put_ring(&mut self, ring: Box<Ring>)
        ensures { self.new ≡ record self.old { ring = Some ring.value } }
    {
        self.ring = Some(ring);
    }

    /// Takes out the book, which is there.
    pub(crate) fn take_book(&mut self) -> Box<BookPart>
        requires { (x : Halves) × (self.old.book ≡ Some x) }
        ensures there { self.old.book ≡ Some result.value }
        ensures taken { self.new ≡ record self.old { book = None } }
    {
        self.book.take().unwrap()
    }

    /// Puts the book in its place.
    pub(crate) fn put_book(&mut self, book: Box<BookPart>)
        ensures { self.new ≡ record self.old { book = Some book.value } }
    {
        self.book = Some(book);
    }

    /// Takes out the post, which is there.
    pub(crate) fn take_post(&mut self) -> Box<Post<Control>>
        requires { (x : parts.Post Rest) × (self.old.post ≡ Some x) }
        ensures there { self.old.post ≡ Some result.value.messages }
        ensures taken { self.new ≡ record self.old { post = None } }
    {
        self.post.take().unwrap()
    }

    /// Puts the post in its place.
    pub(crate) fn put_post(&mut self, post: Box<Post<Control>>)
        ensures { self.new ≡ record self.old { post = Some post.value.messages } }
    {
        self.post = Some(post);
    }

    /// Takes out the desk, which is there.
    pub(crate) fn take_desk(&mut self) -> Box<Desk>
        requires { (x : parts.Desk) × (self.old.desk ≡ Some x) }
        ensures there { self.old.desk ≡ Some result.value }
        ensures taken { self.new ≡ record self.old { desk = None } }
    {
        self.desk.take().unwrap()
    }

    /// Puts the desk in its place.
    pub(crate) fn put_desk(&mut self, desk: Box<Desk>)
        ensures { self.new ≡ record self.old { desk = Some desk.value } }
    {
        self.desk = Some(desk);
    }

    /// Takes out the log of this number, which is there.
    pub(crate) fn take_log(&mut self, l: usize) -> Box<LogPart>
        requires { (x : LogList) × (slice_get self.old.logs l ≡ Some (Some x)) }
        ensures there { slice_get self.old.logs l ≡ Some (Some result.value.log) }
        ensures taken { self.new ≡ record self.old { logs = slice_set self.old.logs l None } }
    {
        self.logs[l].take().unwrap()
    }

    /// Puts the log of this number in its place.
    pub(crate) fn put_log(&mut self, l: usize, log: Box<LogPart>)
        requires { l < length self.old.logs }
        ensures { self.new ≡ record self.old { logs = slice_set self.old.logs l (Some log.value.log) } }
    {
        self.logs[l] = Some(log);
    }

    /// The ring, lent. It must be at hand.
    pub fn ring(&self) -> &Ring
        requires { (x : parts.Ring) × (self.now.ring ≡ Some x) }
        ensures { self.now.ring ≡ Some result.now }
    {
        self.ring.as_ref().unwrap().as_ref()
    }

    /// The book of ACTs, lent. It must be at hand.
    pub fn book(&self) -> &BookPart
        requires { (x : Halves) × (self.now.book ≡ Some x) }
        ensures { self.now.book ≡ Some result.now }
    {
        self.book.as_ref().unwrap().as_ref()
    }

    /// The post, lent: the sub-batches and the controls under way. It must be at hand.
    pub fn post(&self) -> &Post<Control>
        requires { (x : parts.Post Rest) × (self.now.post ≡ Some x) }
        ensures { self.now.post ≡ Some result.now.messages }
    {
        self.post.as_ref().unwrap().as_ref()
    }

    /// The desk, lent: the batches, and the transactions that have their reply. It must be at hand.
    pub fn desk(&self) -> &Desk
        requires { (x : parts.Desk) × (self.now.desk ≡ Some x) }
        ensures { self.now.desk ≡ Some result.now }
    {
        self.desk.as_ref().unwrap().as_ref()
    }

    /// The log of this number, lent. The text must have it, and it must be at hand.
    pub fn log(&self, l: usize) -> &LogPart
        requires { (x : LogList) × (slice_get self.now.logs l ≡ Some (Some x)) }
        ensures { slice_get self.now.logs l ≡ Some (Some result.now.log) }
    {
        self.logs[l].as_ref().unwrap().as_ref()
    }

    /// The cell of the actor, lent: its state, its boxes and its schedule. The text must have the actor, and its cell must be at
    /// hand.
    pub fn cell(&self, a: ActorId) -> &CellPart<Control>
        requires { (x : Cell Rest) × (slice_get self.now.cells a.0 ≡ Some (Some x)) }
        ensures { slice_get self.now.cells a.0 ≡ Some (Some result.now.cell) }
    {
        self.cells[a.0 as usize].as_ref().unwrap().as_ref()
    }
}
