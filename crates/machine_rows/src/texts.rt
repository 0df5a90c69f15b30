//! The texts of the rows.

ghost use Rattle.std.specs.Prelude.{IfOk};
ghost use Rattle.snap_hand.specs.machine_text.Texts.{MayBegin};
ghost use Rattle.snap_hand.specs.Tables.{AreTables};
ghost use Rattle.snap_hand.specs.snap_work.Kept.{KeepsLimits};
ghost use Rattle.snap_hand.specs.snap_work.Works.{work_of};

use snap_base::{Bid, Memory, Sequence, Tid};
use snap_core::Tables;
use snap_hand::{Opening, Work, works_are_texts};
use std::alloc::Global;
use std::test::Fail;
use work_text::{parse_work, transactions_may_run};

/// The methods of each text, all on the first field.
const PROGRAM: &str =
    "method put(n) { f0 = f0 + n; return f0; }\nmethod move(to, n) { if f0 < n { fail 7; } f0 = f0 - n; let r = call to put(n); return r; }\nmethod bad() { f0 = f0 + 1; fail 9; }\n";

/// The two parts of a text before and behind the first place where `between` stands in it; the whole text and an empty one where it
/// stands nowhere.
pub fn halves<'a>(text: &'a str, between: &str) -> (&'a str, &'a str) {
    text.split_once(between).unwrap_or((text, ""))
}

/// Coordinators, logs, transactions of a batch, live batches and live ACTs.
fn settings_of(alloc: Global, words: &str) -> Result<String, Memory> {
    let (coordinators, words) = halves(words, " ");
    let (logs, words) = halves(words, " ");
    let (batch, words) = halves(words, " ");
    let (batches, acts) = halves(words, " ");
    Ok(format!(in alloc;
        "coordinators {coordinators}\nlogs {logs}\nbatch {batch}\nbatches {batches}\nacts {acts}\n"
    )?)
}

/// One actor of nothing, two of 100 and 50, three of 100.
fn actors_of(word: &str) -> &'static str {
    match word {
        "one" => "actors 1\n",
        "two" => "actors 2\nactor 0 100\nactor 1 50\n",
        _ => "actors 3\nactor 0 100\nactor 1 100\nactor 2 100\n",
    }
}

/// The text of these settings, actors and transactions, which stand apart by `, `.
fn text_of(
    alloc: Global,
    settings: &str,
    actors: &str,
    transactions: &str,
) -> Result<String, Memory> {
    let settings = settings_of(alloc, settings)?;
    let actors = actors_of(actors);
    let lines = transactions.replace(alloc, ", ", "\n")?;
    Ok(format!(in alloc; "snapper 1\n{settings}program\n{PROGRAM}end\n{actors}{lines}")?)
}

/// The work of a text, which has one.
fn work_asked(alloc: Global, text: &str) -> Result<Work, Fail>
    ensures { IfOk result (λ w. KeepsLimits (work_of w)) }
{
    transactions_may_run();
    Ok(parse_work(alloc, text.as_bytes())?)
}

/// The number from 0 to 255 that the word spells in decimal digits; 0 where it spells none of them.
pub fn number_of(word: &str) -> u8 {
    word.parse().unwrap_or(0)
}

/// The states of a work, behind runs that drew these numbers last: a tid, a batch and a commit number, or none.
fn opening_of(alloc: Global, work: &Work, drawn: &str) -> Result<Opening, Memory>
    ensures { IfOk result (λ o. MayBegin (work_of work.now) o) }
{
    let (tid, numbers) = halves(drawn, " ");
    let (bid, c) = halves(numbers, " ");
    let (tid, bid, c) = (number_of(tid), number_of(bid), number_of(c));
    Ok(Opening {
        states: Sequence::from_vec(Vec::from_slice(alloc, work.states.as_slice())?),
        committed: Sequence::new(alloc),
        next_tid: Tid(tid as u64 + 1),
        next_bid: Bid(bid as u64 + 1),
        next_c: c as u64 + 1,
    })
}

/// A work and the opening that it begins with.
fn joined(work: Work, opening: Opening) -> Tables
    requires limits { KeepsLimits (work_of work) }
    requires begins { MayBegin (work_of work) opening }
    ensures { AreTables result }
{
    works_are_texts();
    Tables { work, opening }
}

/// A work with the states that it begins with.
fn begun(alloc: Global, work: Work, drawn: &str) -> Result<Tables, Memory>
    requires { KeepsLimits (work_of work) }
    ensures { IfOk result AreTables }
{
    let opening = opening_of(alloc, &work, drawn)?;
    Ok(joined(work, opening))
}

/// The work and opening that a row runs, of words that tell: coordinators, logs, transactions of a batch, live batches and live
/// ACTs; behind ` of ` its actors; behind ` behind ` the last numbers of earlier runs, if there were any; behind `: ` the
/// transactions. It fails where they tell no work text, and where memory ends.
pub fn tables_of(alloc: Global, asked: &str) -> Result<Tables, Fail>
    ensures { IfOk result AreTables }
{
    let (head, transactions) = halves(asked, ": ");
    let (settings, actors) = halves(head, " of ");
    let (actors, drawn) = halves(actors, " behind ");
    let text = text_of(alloc, settings, actors, transactions)?;
    let work = work_asked(alloc, text.as_str())?;
    Ok(begun(alloc, work, drawn)?)
}
