//! How many events may still come, at most, as all parts tell it together.
ghost use Rattle.std.specs.Prelude.{◌≡◌, ◌+◌, ◌-◌, ◌^◌, min, length, option_map};
ghost use Rattle.aml_slice.specs.Controls.{Rest};
ghost use Rattle.protocol.specs.Left.{batch_left, cell_left, control_left, left, reply_left, ring_left, sub_left, total};
ghost use Rattle.protocol.specs.Parts.{Machine};
ghost use Rattle.snap_hand.specs.Hands.{IsWhole};
ghost use Rattle.snap_hand.specs.Left.{FitsAll, of_part};
ghost use Rattle.snap_hand.specs.Tables.{fixed_of};

use crate::{Hand, Tables};
use aml_slice::Control;
use core_rows::{BookPart, CellPart, Desk, LogPart, Post, Ring};
use protocol::Visits;
use snap_base::Tid;
use std::boxed::Box;

/// What a transaction that is still to be submitted may bring, and one that waits at a coordinator.
const TO_SUBMIT: u64 = 927;

const WAITING: u64 = 910;

/// What a visit of an ACT may cost, and one of a PACT.
const ACT_VISIT: u64 = 7;

const PACT_VISIT: u64 = 3;

/// What controls of a text may cost, where the ACTs are those of this book.
#[derive(Drop)]
struct TextVisits<'a> {
    tables: &'a Tables,
    book: &'a BookPart,
}

impl<'a> Visits<Control> for TextVisits<'a> {
    ghost use Rattle.std.specs.Prelude.{map};

    ghost code = { λ v. (fixed_of v.tables.now).code };

    ghost acts = { λ v. map (λ x. x.tid) v.book.now.orders.acts };

    fn cost(&self, tid: Tid) -> u64 {
        if self.book.is_act(tid) {
            ACT_VISIT
        } else {
            PACT_VISIT
        }
    }

    fn cost_behind(&self, tid: Tid, control: &Control) -> u64 {
        let visits = u64::from(control.moves_left());
        if self.book.is_act(tid) {
            ACT_VISIT * visits
        } else {
            PACT_VISIT * visits
        }
    }
}

impl Hand {
    /// How many events may still come, at most, and `u64::MAX` where more. All parts are at hand. It walks through all that
    /// they hold, also what is over.
    pub fn left(&self, tables: &Tables) -> u64
        requires { IsWhole self.now }
        ensures { (s : Machine Rest) → FitsAll self.now s → result ≡ min (left (fixed_of tables.now) s) (2 ^ 64 - 1) }
    {
        let book = self.book();
        let visits = TextVisits { tables, book };
        ring_left(tables, self.ring())
            .saturating_add(book.left())
            .saturating_add(post_left(self.post(), &visits))
            .saturating_add(desk_left(self.desk()))
            .saturating_add(logs_left(&self.logs))
            .saturating_add(cells_left(&self.cells, book.epoch(), &visits))
    }
}

fn ring_left(tables: &Tables, ring: &Ring) -> u64
    ensures { result ≡ min (ring_left (fixed_of tables.now) ring.now) (2 ^ 64 - 1) }
{
    let next = u64::from(ring.next_tx().0);
    let to_submit = (tables.work.txs.len() as u64).saturating_sub(next);
    to_submit
        .saturating_mul(TO_SUBMIT)
        .saturating_add(ring.waiting().saturating_mul(WAITING))
        .saturating_add(ring.way(tables.work.coordinators))
}

fn post_left<W: Visits<Control>>(post: &Post<Control>, visits: &W) -> u64
    ensures { result ≡ min (total sub_left post.now.messages.subs + total (control_left (W.code visits.now) (W.acts visits.now)) post.now.messages.controls) (2 ^ 64 - 1) }
{
    post.subs_left().saturating_add(post.controls_left(visits))
}

fn desk_left(desk: &Desk) -> u64
    ensures { result ≡ min (total batch_left desk.now.batches + total reply_left desk.now.replied) (2 ^ 64 - 1) }
{
    desk.batches_left().saturating_add(desk.replies_left())
}

fn logs_left(logs: &[Option<Box<LogPart>>]) -> u64
    ensures { result ≡ min (total (λ o. of_part (λ g. length g.waiting) (option_map (λ l. l.value.log) o)) logs.now) (2 ^ 64 - 1) }
{
    let mut left: u64 = 0;
    for log in logs {
        left = left.saturating_add(log_left(log));
    }
    left
}

fn log_left(log: &Option<Box<LogPart>>) -> u64
    ensures { result ≡ of_part (λ g. length g.waiting) (option_map (λ l. l.value.log) log.now) }
{
    match log {
        Some(log) => log.waiting() as u64,
        None => 0,
    }
}

fn cells_left<W: Visits<Control>>(
    cells: &[Option<Box<CellPart<Control>>>],
    epoch: u64,
    visits: &W,
) -> u64
    ensures { result ≡ min (total (λ o. of_part (cell_left (W.code visits.now) (W.acts visits.now) epoch) (option_map (λ c. c.value.cell) o)) cells.now) (2 ^ 64 - 1) }
{
    let mut left: u64 = 0;
    for cell in cells {
        left = left.saturating_add(cell_left(cell, epoch, visits));
    }
    left
}

fn cell_left<W: Visits<Control>>(
    cell: &Option<Box<CellPart<Control>>>,
    epoch: u64,
    visits: &W,
) -> u64
    ensures { result ≡ min (of_part (cell_left (W.code visits.now) (W.acts visits.now) epoch) (option_map (λ c. c.value.cell) cell.now)) (2 ^ 64 - 1) }
{
    match cell {
        Some(cell) => cell.left(epoch, visits),
        None => 0,
    }
}
