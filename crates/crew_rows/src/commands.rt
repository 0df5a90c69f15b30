//! The command `run` by workers: what it prints against a serial run of what it printed, and what its logs recover to.

use crate::gates::{Crossing, LITTLE, Meeting, PATIENCE};
use crate::rows::{Placed, serial_states};
use crate::texts::{BY_HAND, TWO_ACTORS, drawn, tables_of, text_of};
use snap_base::{ActorId, Bid, Memory, Place, State, TxResult};
use snap_core::Event;
use snap_outside::{FreeGate, Gate, MemLog, MemSink, MemSource};
use snap_report::{Status, actor_line, end_line};
use snap_run::{Outcome, run};
use std::alloc::Global;
use std::sync::Wait;
use std::test::Fail;
use std::thread::Threads;
use work_gen::generate;

/// How a call ended.
struct Ran(Outcome<MemLog, MemSink, MemSink>);

// By hand, so that whoever lets it go calls this, and does not repeat it.
impl Drop for Ran {
    fn drop(self) {
        let Ran(_outcome) = self;
    }
}

impl Ran {
    /// What was printed.
    fn output(&self) -> &str {
        str::from_utf8(self.0.out.bytes()).unwrap_or("no text")
    }

    /// The events that were taken, a line for each.
    fn trace(&self) -> &str {
        str::from_utf8(self.0.trace.bytes()).unwrap_or("no text")
    }

    /// What a crash leaves of the logs that keeps what is synced alone.
    fn logs_left(&self, alloc: Global) -> Result<Vec<MemLog>, Memory> {
        let mut logs = Vec::new(alloc);
        for log in &self.0.logs {
            let image = log.image(alloc, log.ops().len(), 0)?;
            logs.push(MemLog::new(alloc, image, Vec::new(alloc))?)?;
        }
        Ok(logs)
    }

    /// How many batches were settled.
    fn settled(&self) -> u32 {
        let mut settled: u32 = 0;
        for event in &self.0.kept {
            if let Event::Settle(_) = event {
                settled = settled.saturating_add(1);
            }
        }
        settled
    }
}

/// Four logs that are still to be made.
fn new_logs(alloc: Global) -> Result<Vec<MemLog>, Memory> {
    let mut logs = Vec::new(alloc);
    for _ in 0..4 {
        logs.push(MemLog::new(alloc, Vec::new(alloc), Vec::new(alloc))?)?;
    }
    Ok(logs)
}

/// The call with these words.
fn call<R: Threads + Wait + Sync, G: Gate + Sync>(
    rt: &R,
    alloc: Global,
    words: &str,
    text: &[u8],
    logs: Vec<MemLog>,
    gate: &G,
) -> Result<Ran, Fail> {
    if logs.len() != 4 {
        return Err("there are four logs".into());
    }
    let mut list = Vec::new(alloc);
    for word in words.split(' ') {
        list.push(String::from_str(alloc, word)?)?;
    }
    let mut input = MemSource::new(text.to_vec(alloc)?, Vec::new(alloc));
    let out = MemSink::new(alloc, Vec::new(alloc))?;
    let trace = MemSink::new(alloc, Vec::new(alloc))?;
    Ok(Ran(run(
        rt,
        alloc,
        list.as_slice(),
        &mut input,
        logs,
        out,
        trace,
        gate,
    )))
}

/// The part with this number, from 0 on; empty where there is none.
fn part(text: &str, between: char, number: usize) -> &str {
    text.split(between).nth(number).unwrap_or("")
}

/// What the line of a reply says: the place and the value or the code, where it has a place.
fn placed_by(line: &str) -> Placed {
    let (verdict, place, given) = (part(line, ' ', 2), part(line, ' ', 3), part(line, ' ', 4));
    let place = Place {
        batch: Bid(part(place, '.', 0).parse().ok()?),
        side: part(place, '.', 1).parse().ok()?,
        order: part(place, '.', 2).parse().ok()?,
    };
    match verdict {
        "committed" => Some((place, TxResult::Value(given.parse().ok()?))),
        "code" => Some((place, TxResult::Fail(given.parse().ok()?))),
        _ => None,
    }
}

/// The transactions' replies: what each says, how many there are, and how many of them say that it committed.
#[derive(Drop)]
struct Replies {
    placed: Vec<Placed>,
    count: u32,
    committed: u32,
}

/// What the output says of so many transactions; none where one has several replies, or none of the text has one.
fn replies_in(alloc: Global, output: &str, count: usize) -> Result<Option<Replies>, Memory> {
    let mut has_reply = vec![in alloc; false; count]?;
    let mut replies = Replies {
        placed: vec![in alloc; None; count]?,
        count: 0,
        committed: 0,
    };
    for line in output.split('\n') {
        if part(line, ' ', 0) != "tx" {
            continue;
        }
        let n: usize = part(line, ' ', 1).parse().unwrap_or(count);
        let Some(replied) = has_reply.get_mut(n) else {
            return Ok(None);
        };
        if *replied {
            return Ok(None);
        }
        *replied = true;
        if let Some(placed) = replies.placed.get_mut(n) {
            *placed = placed_by(line);
        }
        replies.count = replies.count.saturating_add(1);
        if part(line, ' ', 2) == "committed" {
            replies.committed = replies.committed.saturating_add(1);
        }
    }
    Ok(Some(replies))
}

/// The lines of the actors with these states.
fn actor_lines(alloc: Global, states: &[State]) -> Result<String, Memory> {
    let mut lines = String::new(alloc);
    let mut number: u16 = 0;
    for state in states {
        lines.push_str(&actor_line(alloc, ActorId(number), state)?)?;
        number = number.saturating_add(1);
    }
    Ok(lines)
}

/// What is not so of what a run of the text printed and left; nothing, where all is.
fn untrue<R: Threads + Wait + Sync>(
    rt: &R,
    alloc: Global,
    text: &[u8],
    ran: &Ran,
) -> Result<&'static str, Fail> {
    if ran.0.status != Status::Done {
        return Ok("it is done");
    }
    let tables = tables_of(alloc, text)?;
    let count = tables.work.txs.len();
    let Some(replies) = replies_in(alloc, ran.output(), count)? else {
        return Ok("no transaction has two replies");
    };
    if replies.count as usize != count {
        return Ok("each transaction has a reply");
    }
    let Some(states) = serial_states(alloc, &tables, replies.placed.as_slice())? else {
        return Ok("one by one in the printed order they give what was printed");
    };
    let lines = actor_lines(alloc, states.as_slice())?;
    let aborted = replies.count.saturating_sub(replies.committed);
    let end = end_line(alloc, replies.committed, aborted, ran.settled())?;
    let ending = format!(in alloc; "{lines}{end}")?;
    if !ran.output().ends_with(ending.as_str()) {
        return Ok("the states are those of the serial run, and the counts are right");
    }
    let printed = count.saturating_add(states.len()).saturating_add(1);
    if ran.output().split('\n').count() != printed.saturating_add(1) {
        return Ok("nothing else is printed");
    }
    let logs = ran.logs_left(alloc)?;
    let recovered = call(rt, alloc, "recover", b"", logs, &FreeGate::new())?;
    if !recovered.output().starts_with(lines.as_str()) {
        return Ok("the logs recover to these states");
    }
    Ok("")
}

/// Runs the text by so many workers, and tells what is not so, and behind it the events that were taken.
fn run_untrue<R: Threads + Wait + Sync, G: Gate + Sync>(
    rt: &R,
    alloc: Global,
    text: &[u8],
    workers: u64,
    gate: &G,
) -> Result<String, Fail> {
    let words = format!(in alloc; "run --workers {workers}")?;
    let ran = call(rt, alloc, words.as_str(), text, new_logs(alloc)?, gate)?;
    let mut told = String::from_str(alloc, untrue(rt, alloc, text, &ran)?)?;
    if !told.is_empty() {
        told.push_str("; taken were\n")?;
        told.push_str(ran.trace())?;
    }
    Ok(told)
}

/// Whether each of the two transactions committed with value 1, and the run is as it should be.
fn have_committed<R: Threads + Wait + Sync>(
    rt: &R,
    alloc: Global,
    ran: &Ran,
) -> Result<bool, Fail> {
    let Some(replies) = replies_in(alloc, ran.output(), 2)? else {
        return Ok(false);
    };
    for placed in replies.placed.as_slice() {
        let Some((_, TxResult::Value(1))) = placed else {
            return Ok(false);
        };
    }
    let wrong = untrue(rt, alloc, TWO_ACTORS.as_bytes(), ran)?;
    Ok(replies.committed == 2 && wrong.is_empty())
}

/// Two slices wait for each other inside the gate: two workers meet there, and one worker does not.
#[test]
fn slices_of_two_workers_meet_on_two_actors(rt: HostRuntime) -> Result<(), Fail> {
    let alloc = rt.alloc();
    for (words, patience, meet) in [
        ("run --workers 2", PATIENCE, true),
        ("run --workers 1", LITTLE, false),
    ] {
        let gate = Meeting::new(patience);
        let ran = call(
            &rt,
            alloc,
            words,
            TWO_ACTORS.as_bytes(),
            new_logs(alloc)?,
            &gate,
        )?;
        assert_eq!(rt; gate.has_met(), meet, "{words}: {}", ran.trace());
        assert!(rt;
            have_committed(&rt, alloc, &ran)?,
            "{words}: {}{}",
            ran.output(),
            ran.trace()
        );
    }
    Ok(())
}

/// What the command prints with workers is what its transactions give one by one, and its logs recover to these states.
#[test]
fn workers_print_what_one_by_one_gives(rt: HostRuntime) -> Result<(), Fail> {
    let alloc = rt.alloc();
    for (settings, lines) in BY_HAND {
        let text = text_of(alloc, settings, lines)?;
        for workers in 1..9 {
            let wrong = run_untrue(&rt, alloc, text.as_slice(), workers, &FreeGate::new())?;
            assert_eq!(rt; wrong.as_str(), "", "{workers} workers of {lines}");
        }
    }
    for seed in 0..48u64 {
        let text = drawn(alloc, seed)?;
        let workers = 1 + seed % 8;
        let wrong = run_untrue(&rt, alloc, text.as_slice(), workers, &FreeGate::new())?;
        assert_eq!(rt; wrong.as_str(), "", "{workers} workers, drawn by {seed}");
    }
    for (seed, workers) in [(0, 8), (1, 4), (2, 2)] {
        let text = generate(alloc, 500, seed)?;
        let gate = Crossing::new();
        let wrong = run_untrue(&rt, alloc, text.as_slice(), workers, &gate)?;
        assert_eq!(rt; wrong.as_str(), "", "generated by {seed}");
        assert!(rt; gate.is_of_several(), "generated by {seed}");
    }
    Ok(())
}
