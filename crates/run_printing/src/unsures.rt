//! The lines that tell, where a log's device failed, that it is not known whether a transaction is committed.
ghost use Rattle.std.specs.Prelude.{◌≡◌, ◌<◌, ◌≤◌, ◌||◌, ℕ, [], ◌∷◌, false, get_or, length, map, IfOk, IsTrue, IsFalse};
ghost use Rattle.std.specs.Io.KnownBytes.{Appends};
ghost use Rattle.core_events.specs.Meant.{event_meant};
ghost use Rattle.protocol.specs.Report.{replied};
ghost use Rattle.protocol.specs.Words.{is_among};
ghost use Rattle.run_printing.specs.Printed.{AppendsLines, IsBrokenOff, unanswered, unsure_line};
ghost use Rattle.snap_outside.specs.Causes.{EndsAtFault};

use crate::writes::write_text;
use core_events::Event;
use snap_base::{Memory, TxNo, Verdict};
use snap_outside::Sink;
use snap_report::reply_line;
use std::alloc::Global;

/// Writes a line for each transaction that the events do not answer, of `count` transactions, in the order of their numbers: it is
/// not known whether it is committed, since the device of this log failed. Nothing is told of a failure here: want of memory ends the
/// lines between two of them, and a sink that fails cuts them. It takes one pass over the events and one over the transactions.
pub fn write_unsures<O: Sink>(alloc: Global, out: &mut O, log: u8, count: u32, kept: &[Event])
    ensures lines { AppendsLines (unsure_line log) (O.taken out.old) (O.taken out.new) (O.faults out.old) (O.faults out.new) (unanswered (map event_meant kept.now) count) }
    ensures later { O.faults out.old ≤ O.faults out.new }
    ensures once { EndsAtFault ⊥ (O.faults out.old) (O.late out.old) (O.faults out.new) (O.late out.new) }
{
    let Ok(answered) = answered_by(alloc, count, kept) else {
        return;
    };
    for number in 0..count {
        if answered[number as usize] {
            continue;
        }
        if !write_unsure(alloc, out, log, number) {
            return;
        }
    }
}

/// Of each of so many transactions, whether the events answer it.
fn answered_by(alloc: Global, count: u32, kept: &[Event]) -> Result<Vec<bool>, Memory>
    ensures count { IfOk result (λ v. length v.items ≡ count) }
    ensures answered { IfOk result (λ v. (n : ℕ) → n < count → get_or v.items n false ≡ is_among n (replied (map event_meant kept.now))) }
{
    let mut answered = vec![in alloc; false; count as usize]?;
    for event in kept {
        mark(&mut answered, *event);
    }
    Ok(answered)
}

/// Marks the transaction that the event answers.
fn mark(answered: &mut Vec<bool>, event: Event)
    ensures count { length answered.new.items ≡ length answered.old.items }
    ensures marked { (n : ℕ) → n < length answered.old.items → get_or answered.new.items n false ≡ (get_or answered.old.items n false || is_among n (replied (event_meant event ∷ []))) }
{
    if let Event::Reply(tx) = event {
        let at = tx.0 as usize;
        if at < answered.len() {
            answered[at] = true;
        }
    }
}

/// Writes the line of one transaction, and tells whether it was written whole.
fn write_unsure<O: Sink>(alloc: Global, out: &mut O, log: u8, number: u32) -> bool
    ensures whole { IsTrue result → Appends (O.taken out.old) (O.taken out.new) (unsure_line log number) }
    ensures cut { IsFalse result → IsBrokenOff (O.taken out.old) (O.taken out.new) (O.faults out.old) (O.faults out.new) (unsure_line log number) }
    ensures later { O.faults out.old ≤ O.faults out.new }
    ensures once { EndsAtFault (IsTrue result) (O.faults out.old) (O.late out.old) (O.faults out.new) (O.late out.new) }
{
    match reply_line(alloc, TxNo(number), &Verdict::Unsure { log }) {
        Ok(line) => write_text(out, line.as_str()).is_ok(),
        Err(_) => false,
    }
}
