//! The texts of the runs.

ghost use Rattle.std.specs.Prelude.{IfOk};
ghost use Rattle.snap_core.specs.machine_text.Texts.{MayBegin};
ghost use Rattle.snap_core.specs.snap_hand.Tables.{AreTables};
ghost use Rattle.snap_core.specs.snap_work.Kept.{KeepsLimits};
ghost use Rattle.snap_core.specs.snap_work.Works.{work_of};

use rand_core::utils::NextWord;
use rand_pcg::Pcg32;
use snap_base::Memory;
use snap_core::{Opening, Tables, Work, fresh, works_are_texts};
use std::alloc::Global;
use std::test::Fail;
use work_text::{parse_work, transactions_may_run};

/// The methods of each text, all on the first field. What one actor gives another gets, so that the sum stays.
const PROGRAM: &str = "\
method look() { return f0; }
method put(n) { f0 = f0 + n; return f0; }
method move(to, n) { if f0 < n { fail 7; } f0 = f0 - n; let there = call to put(n); return there; }
method hand(to, n) { let there = call to put(n); return there; }
method pass(over, to, n) { if f0 < n { fail 7; } f0 = f0 - n; let there = call over hand(to, n); return there; }
method bad(to) { f0 = f0 + 1; let there = call to put(1); fail 9; }
";

/// How many actors each text has. It is a prime number, so that actors of one distance are all of them.
const ACTORS: u32 = 5;

/// The lines of the actors, each with 100 in its first field.
const STATES: &str = "actors 5\nactor 0 100\nactor 1 100\nactor 2 100\nactor 3 100\nactor 4 100\n";

/// What the first fields of all actors sum up to.
pub const TOTAL: i64 = 500;

/// Coordinators, logs, transactions of a batch, live batches and live ACTs.
pub type Settings = [u32; 5];

/// Texts by hand: who waits and who dies, an order that there is not, a cascade, calls in a circle and calls that come back, one
/// actor that all want, both kinds on all logs.
pub const BY_HAND: [(Settings, &str); 6] = [
    (
        [1, 1, 1, 1, 4],
        "act 0 move 1 10\nact 1 move 0 5\nact 2 move 0 3\nact 1 move 2 4\n",
    ),
    (
        [1, 1, 1, 2, 2],
        "act 0 move 1 30\npact 0 move 1 5 uses 0:1 1:1\nact 1 move 0 7\npact 1 move 0 2 uses 0:1 1:1\n",
    ),
    (
        [1, 1, 1, 4, 1],
        "pact 1 move 0 60 uses 0:1 1:1\npact 2 bad 0 uses 0:1 2:1\npact 3 move 0 4 uses 0:1 3:1\nact 0 move 1 5\npact 0 move 4 9 uses 0:1 4:1\n",
    ),
    (
        [2, 2, 2, 4, 4],
        "act 0 pass 1 2 10\nact 1 pass 2 0 10\nact 2 pass 0 1 10\nact 3 pass 4 3 5\npact 3 pass 4 3 5 uses 3:2 4:1\npact 0 pass 1 2 1 uses 0:1 1:1 2:1\n",
    ),
    (
        [4, 4, 1, 8, 8],
        "pact 0 move 0 1 uses 0:2\nact 0 look\npact 1 move 0 1 uses 0:1 1:1\nact 2 move 0 2\npact 3 move 0 3 uses 0:1 3:1\nact 4 bad 0\npact 0 look uses 0:1 4:1\nact 0 move 1 300\n",
    ),
    (
        [2, 4, 2, 4, 4],
        "pact 0 move 1 10 uses 0:1 1:1\nact 1 move 2 5\nact 0 move 3 3\npact 2 look uses 1:1 2:1\npact 1 bad 0 uses 0:1 1:1\nact 2 move 0 7\nact 2 move 1 300\npact 0 move 2 1 uses 0:1 2:1\nact 0 bad 4\npact 2 move 0 6 uses 0:1 2:1\nact 1 move 0 2\nact 2 move 4 9\npact 1 move 1 8 uses 1:2\npact 2 bad 4 uses 2:1 4:1\nact 1 pass 3 4 6\npact 0 pass 2 4 20 uses 0:1 2:1 4:1\n",
    ),
];

/// Two transactions, each of one slice on an actor of its own.
pub const TWO_ACTORS: &str = "\
snapper 1
coordinators 1
logs 1
batch 16
batches 8
acts 8
program
method put(n) { f0 = f0 + n; return f0; }
method move(to, n) { if f0 < n { fail 7; } f0 = f0 - n; let r = call to put(n); return r; }
method twice(to) { let a = call to put(1); let b = call to put(1); return b; }
method bad() { f0 = f0 + 1; fail 9; }
method via(to) { let r = call to bad(); return r; }
end
actors 2
pact 0 put 1 uses 0:1
pact 1 put 1 uses 1:1
";

/// The text of these settings and transactions.
pub fn text_of(alloc: Global, settings: Settings, lines: &str) -> Result<Vec<u8>, Memory> {
    let [coordinators, logs, batch, batches, acts] = settings;
    let text = format!(in alloc;
        "snapper 1\ncoordinators {coordinators}\nlogs {logs}\nbatch {batch}\nbatches {batches}\nacts {acts}\nprogram\n{PROGRAM}end\n{STATES}{lines}"
    )?;
    Ok(text.into_bytes())
}

/// The actors that a drawn transaction may call: its own, and two more.
#[derive(Clone, Copy)]
struct Actors {
    own: u32,
    second: u32,
    third: u32,
}

/// A call of a method that a word draws.
fn call(alloc: Global, actors: Actors, word: u32) -> Result<String, Memory> {
    let Actors { own, second, third } = actors;
    let amount = word / 8 % 70;
    let method = word % 8;
    if method == 0 {
        return Ok(format!(in alloc; "{own} bad {second}")?);
    }
    if method == 1 {
        return Ok(format!(in alloc; "{own} look")?);
    }
    if method < 4 {
        return Ok(format!(in alloc; "{own} pass {second} {third} {amount}")?);
    }
    if method == 4 {
        return Ok(format!(in alloc; "{own} pass {second} {own} {amount}")?);
    }
    Ok(format!(in alloc; "{own} move {second} {amount}")?)
}

/// Two calls of each of the actors, more than are made.
fn uses(alloc: Global, actors: Actors) -> Result<String, Memory> {
    let mut uses = String::new(alloc);
    for actor in 0..ACTORS {
        if actor == actors.own || actor == actors.second || actor == actors.third {
            uses.push_str(&format!(in alloc; " {actor}:2")?)?;
        }
    }
    Ok(uses)
}

/// The line of a transaction that these words draw.
fn line(alloc: Global, place: u32, what: u32) -> Result<String, Memory> {
    let own = place % ACTORS;
    let distance = 1 + place / ACTORS % (ACTORS - 1);
    let actors = Actors {
        own,
        second: (own + distance) % ACTORS,
        third: (own + 2 * distance) % ACTORS,
    };
    let call = call(alloc, actors, what / 2)?;
    if what % 2 == 0 {
        return Ok(format!(in alloc; "act {call}\n")?);
    }
    let uses = uses(alloc, actors)?;
    Ok(format!(in alloc; "pact {call} uses{uses}\n")?)
}

/// The text of a few transactions of both kinds that a seed draws.
pub fn drawn(alloc: Global, seed: u64) -> Result<Vec<u8>, Memory> {
    let count = 6 + Pcg32::new(seed, 2).next_word() / 1024 % 8;
    crowd(alloc, seed, count)
}

/// The text of so many transactions of both kinds that a seed draws.
pub fn crowd(alloc: Global, seed: u64, count: u32) -> Result<Vec<u8>, Memory> {
    let mut generator = Pcg32::new(seed, 2);
    let words = generator.next_word();
    let settings = [
        1 + words % 4,
        1 + words / 4 % 4,
        1 + words / 16 % 4,
        1 + words / 64 % 4,
        1 + words / 256 % 4,
    ];
    let mut lines = String::new(alloc);
    for _ in 0..count {
        let (place, what) = (generator.next_word(), generator.next_word());
        lines.push_str(&line(alloc, place, what)?)?;
    }
    text_of(alloc, settings, lines.as_str())
}

/// The work of a text, which has one.
fn work_asked(alloc: Global, text: &[u8]) -> Result<Work, Fail>
    ensures { IfOk result (λ w. KeepsLimits (work_of w)) }
{
    transactions_may_run();
    Ok(parse_work(alloc, text)?)
}

/// A work and the opening that it begins with.
fn joined(work: Work, opening: Opening) -> Tables
    requires limits { KeepsLimits (work_of work) }
    requires begins { MayBegin (work_of work) opening }
    ensures { AreTables result }
{
    works_are_texts();
    Tables { work, opening }
}

/// A work with the states that it begins with.
fn begun(alloc: Global, work: Work) -> Result<Tables, Memory>
    requires { KeepsLimits (work_of work) }
    ensures { IfOk result AreTables }
{
    let opening = fresh(alloc, work.states.as_slice())?;
    Ok(joined(work, opening))
}

/// What a run of the text begins with.
pub fn tables_of(alloc: Global, text: &[u8]) -> Result<Tables, Fail>
    ensures { IfOk result AreTables }
{
    let work = work_asked(alloc, text)?;
    Ok(begun(alloc, work)?)
}
