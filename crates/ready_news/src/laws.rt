//! The laws, part by part. Each is about a state of a run, an event that is allowed there, and some events among which those of
//! the list are: what reads a change, was refused before the event and is allowed after it is among them.

ghost use Rattle.std.specs.Prelude.{◌≡◌, ℕ, false, Option, Some, List, slice_get, Contains};
ghost use Rattle.aml_slice.specs.Controls.{Rest};
ghost use Rattle.listing_facts.specs.batch_table.Askings.{is_next_open};
ghost use Rattle.listing_facts.specs.batch_table.Listed.{is_number};
ghost use Rattle.book_part.specs.Halves.{Halves, Shows};
ghost use Rattle.protocol.specs.Conditions.{epoch};
ghost use Rattle.protocol.specs.Effects.{after};
ghost use Rattle.protocol.specs.Events.{Event};
ghost use Rattle.protocol.specs.Fixed.{Fixed};
ghost use Rattle.protocol.specs.Parts.{Cell, Log, Machine};
ghost use Rattle.protocol_ready.specs.Telling.{AnswersTell, BookTells, CellTells, DeskTells, LogTells, PostTells, RingTells};
ghost use Rattle.snap_base.specs.declared.ids.Bid.{Bid};
ghost use Rattle.snap_hand.specs.Hands.{IsHandOf, IsWhole, Parts};
ghost use Rattle.ready_news.specs.InAnswers.{answers_listed};
ghost use Rattle.ready_news.specs.InBook.{book_listed};
ghost use Rattle.ready_news.specs.InCells.{cells_listed};
ghost use Rattle.ready_news.specs.InDesk.{by_desk};
ghost use Rattle.ready_news.specs.InPost.{post_listed};
ghost use Rattle.ready_news.specs.InRing.{logs_listed, ring_listed};
ghost use Rattle.ready_news.specs.New.{IsBehind, is_new, is_sync};

use aml_slice::Control;
use book_part::unbegun_acts_wait_for_nothing;
use listing_facts::{parts_list_all, run_parts_list_all, undone_have_declared};
use protocol_laws::{allowed_or_refused, frame, numbers_are_in_range};
use protocol_theorems::sizes_hold;
use snap_hand::runs_go_on;

/// A list in which the events listed by the ring stand tells all that is new of what the ring has next.
pub fn ring_is_told()
    ensures { (w : Fixed Rest) (e : Event) (s : Machine Rest) (es : List Event) → ((f : Event) → Contains (ring_listed e w.text (after w e s).desk (after w e s).book (after w e s).ring) f → Contains es f) → RingTells (is_new w e s) w.text (after w e s).ring es }
{
    frame::<Control>();
}

/// A list in which the Syncs listed by the event stand tells all that is new of the logs: which have got a record to sync.
pub fn logs_are_told()
    ensures { (w : Fixed Rest) (e : Event) (s : Machine Rest) (h : Parts) (es : List Event) → IsBehind w e s h → ((f : Event) → Contains (logs_listed w.text.logs h.logs e) f → Contains es f) → (l : ℕ) (g : Log) → slice_get (after w e s).logs l ≡ Some g → LogTells (is_new w e s) l g es }
{}

/// A list in which the events listed by the post stand tells all that is new of what is under way.
pub fn post_is_told()
    ensures { (w : Fixed Rest) (e : Event) (s : Machine Rest) (h : Parts) (es : List Event) → IsBehind w e s h → ((f : Event) → Contains (post_listed e h.cells (after w e s).book (after w e s).desk (after w e s).post) f → Contains es f) → PostTells (is_new w e s) (after w e s).post es }
{
    allowed_or_refused::<Control>();
    runs_go_on::<Control>();
}

/// A list in which the events listed by the cells stand, on a hand with all parts, tells all that is new of what lies at actors.
pub fn cells_are_told()
    ensures { (w : Fixed Rest) (e : Event) (s : Machine Rest) (h : Parts) (es : List Event) → IsHandOf w h → IsWhole h → IsBehind w e s h → ((f : Event) → Contains (cells_listed w.text e h) f → Contains es f) → (a : ℕ) (c : Cell Rest) → slice_get (after w e s).cells a ≡ Some c → CellTells (is_new w e s) (epoch (after w e s).book) a c es }
{
    allowed_or_refused::<Control>();
    runs_go_on::<Control>();
    undone_have_declared::<Control>();
    numbers_are_in_range::<Control>();
    sizes_hold::<Control>();
    parts_list_all::<Control>();
}

/// A list in which the events listed by the desk stand tells all that is new of what batches wait for after an event that is no
/// Sync, by which batch is the next to commit.
pub fn desk_is_told()
    ensures { (w : Fixed Rest) (e : Event) (s : Machine Rest) (h : Parts) (next : Option Bid) (es : List Event) → IsBehind w e s h → is_sync e ≡ false → ((k : ℕ) → is_next_open k (after w e s).desk.batches ≡ is_number k next) → ((f : Event) → Contains (by_desk next (after w e s).desk e) f → Contains es f) → DeskTells (is_new w e s) (after w e s).desk es }
{
    allowed_or_refused::<Control>();
    parts_list_all::<Control>();
}

/// A list in which the events listed by the book stand tells all that is new of what ACTs wait for, where some halves show the
/// book, and the event is no sync.
pub fn book_is_told()
    ensures { (w : Fixed Rest) (e : Event) (s : Machine Rest) (h : Parts) (x : Halves) (es : List Event) → is_sync e ≡ false → IsBehind w e s h → Shows x (after w e s).book → ((f : Event) → Contains (book_listed e h.cells (after w e s).book) f → Contains es f) → BookTells (is_new w e s) (after w e s).book es }
{
    allowed_or_refused::<Control>();
    runs_go_on::<Control>();
    run_parts_list_all::<Control>();
    unbegun_acts_wait_for_nothing();
}

/// A list in which the Replies listed by the answers stand tells all that is new of replies that are due.
pub fn answers_are_told()
    ensures { (w : Fixed Rest) (e : Event) (s : Machine Rest) (h : Parts) (es : List Event) → IsBehind w e s h → ((f : Event) → Contains (answers_listed (after w e s).ring.next_bid e h.cells (after w e s).book (after w e s).desk) f → Contains es f) → AnswersTell (is_new w e s) (after w e s).book (after w e s).desk es }
{
    runs_go_on::<Control>();
}
