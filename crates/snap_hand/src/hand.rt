//! The hand: parts of the machine by their numbers, as contracts see them.

use aml_slice::Control;
use core_rows::{BookPart, CellPart, Desk, LogPart, Post, Ring};
use std::boxed::Box;
use std::marker::Model;

/// Parts of the machine at hand, by their numbers: the ring, the book, the post, the desk, then the logs, then the cells.
/// Contracts see for each whether it is there and what it shows. Each has a box of its own, made where a run begins, so that to
/// take it out or put it in moves a pointer.
pub struct Hand {
    pub(crate) ring: Option<Box<Ring>>,
    pub(crate) book: Option<Box<BookPart>>,
    pub(crate) post: Option<Box<Post<Control>>>,
    pub(crate) desk: Option<Box<Desk>>,
    pub(crate) logs: Vec<Option<Box<LogPart>>>,
    pub(crate) cells: Vec<Option<Box<CellPart<Control>>>>,
}

// Written out, so that a crate above calls it and does not repeat it.
impl Drop for Hand {
    fn drop(self) {
        let Hand {
            ring: _ring,
            book: _book,
            post: _post,
            desk: _desk,
            logs: _logs,
            cells: _cells,
        } = self;
    }
}

impl Model for Hand {
    ghost use Rattle.std.specs.Prelude.{map, option_map};
    ghost use Rattle.snap_hand.specs.Hands.{Parts};

    ghost Value = { Parts };

    ghost view = { λ h. record {
      ring = option_map (λ r. r.value) h.ring;
      book = option_map (λ b. b.value) h.book;
      post = option_map (λ p. p.value.messages) h.post;
      desk = option_map (λ d. d.value) h.desk;
      logs = map (option_map (λ l. l.value.log)) h.logs.items;
      cells = map (option_map (λ c. c.value.cell)) h.cells.items;
    } };
}
