//! Logs that are followed while they grow: a device shows the next of its contents from each call for its length on, as one does to which
//! another program appends.

use crate::fakes::{Drip, Trickle};
use crate::logs::log_bytes;
use command_words::workers_of;
use snap_base::Memory;
use snap_outside::{Failed, LogDev};
use snap_report::{Status, status_line};
use snap_run::{Outcome, run_solo};
use std::alloc::Global;
use std::test::Fail;

/// A device that grows. It takes no write.
struct Growing {
    now: Vec<u8>,
    /// What it is to show later, the last first.
    later: Vec<Vec<u8>>,
    /// How many writes and syncs it got.
    changes: u64,
}

impl Drop for Growing {
    fn drop(self) {
        let Growing {
            now: _now,
            later: _later,
            changes: _changes,
        } = self;
    }
}

impl Growing {
    /// A device that shows these contents one after the other, and the last one for ever.
    fn new(alloc: Global, contents: &str) -> Result<Growing, Memory> {
        let mut later = Vec::new(alloc);
        for content in contents.rsplit('|') {
            later.push(log_bytes(alloc, content)?)?;
        }
        Ok(Growing {
            now: Vec::new(alloc),
            later,
            changes: 0,
        })
    }
}

impl LogDev for Growing {
    ghost use Rattle.std.specs.Prelude.{None, Some, vec_len};
    ghost use Rattle.std.proofs.Common.{rules};

    ghost told = { λ _. None };

    ghost told_length = { λ d. Some (vec_len d.now) };

    ghost faults = { λ d. d.changes };

    fn len(&mut self) -> Result<u64, Failed> {
        if let Some(next) = self.later.pop() {
            self.now = next;
        }
        Ok(self.now.len() as u64)
    }

    fn read_at(&mut self, at: u64, buf: &mut [u8]) -> Result<usize, Failed> {
        let from = self.now.len().min(at as usize);
        let count = (self.now.len() - from).min(buf.len());
        buf[..count].copy_from_slice(&self.now[from..from + count]);
        Ok(count)
    }

    fn write_at(&mut self, _at: u64, _bytes: &[u8]) -> Result<(), Failed> {
        self.changes = self.changes.saturating_add(1);
        Err(Failed)
    }

    fn sync(&mut self) -> Result<(), Failed> {
        self.changes = self.changes.saturating_add(1);
        Err(Failed)
    }

    ghost content_length = { Prim.search rules };
}

/// The call of a row, and its end.
struct Followed(Outcome<Growing, Drip, Drip>);

impl Drop for Followed {
    fn drop(self) {
        let Followed(_outcome) = self;
    }
}

impl Followed {
    /// How it ended and what it printed, in the way of the rows; and whether a device was to be changed.
    fn told(&self, alloc: Global) -> Result<String, Memory> {
        let line = status_line(alloc, &self.0.status)?;
        let output = str::from_utf8(self.0.out.0.bytes()).unwrap_or("no text");
        let mut told = format!(in alloc; "{output}{line}")?;
        for log in &self.0.logs {
            if log.changes != 0 {
                told.push_str("changed")?;
            }
        }
        Ok(told.replace(alloc, "\n", "/")?)
    }
}

/// Calls the program with these words and no input.
fn call(alloc: Global, words: &[String], logs: Vec<Growing>) -> Result<Followed, Fail> {
    if logs.len() != 4 {
        return Err("there are four logs".into());
    }
    if workers_of(words) != 0 {
        return Err("there are no workers".into());
    }
    let mut input = Trickle::new(alloc, "", 0)?;
    let out = Drip::new(alloc, 0)?;
    let trace = Drip::new(alloc, 0)?;
    let followed = Followed(run_solo(alloc, words, &mut input, logs, out, trace));
    Ok(followed)
}

/// Follows a log that shows these contents, as log 0, in so many rounds. The other devices are empty.
fn follow(alloc: Global, contents: &str, rounds: &str) -> Result<Followed, Fail> {
    let words = vec![in alloc;
        String::from_str(alloc, "follow")?,
        String::from_str(alloc, rounds)?,
    ]?;
    let mut logs = Vec::new(alloc);
    for shown in [contents, "", "", ""] {
        logs.push(Growing::new(alloc, shown)?)?;
    }
    call(alloc, words.as_slice(), logs)
}

/// The number of rounds; what is told then, where `/` stands for a line feed; and the contents of log 0, apart by `|`.
const ROWS: [[&str; 3]; 9] = [
    // a log with 1, then 4, then 7 records: what committed when the round before read shows, and not what committed since
    [
        "3",
        "actor 0 105/following batches 1 acts 0/",
        "genesis:1:100|genesis:1:100;info:1:0:1,complete:1:0:105;done:1:105|genesis:1:100;info:1:0:1,complete:1:0:105;done:1:105;info:2:0:2,complete:2:0:110;done:2:110",
    ],
    [
        "2",
        "actor 0 100/following batches 0 acts 0/",
        "genesis:1:100|genesis:1:100;info:1:0:1,complete:1:0:105;done:1:105",
    ],
    [
        "4",
        "actor 0 110/following batches 2 acts 0/",
        "genesis:1:100|genesis:1:100;info:1:0:1,complete:1:0:105;done:1:105|genesis:1:100;info:1:0:1,complete:1:0:105;done:1:105;info:2:0:2,complete:2:0:110;done:2:110",
    ],
    // it has fewer records than before
    [
        "3",
        "snapper: log 0 at 0: Back/",
        "genesis:1:100;info:1:0:1,complete:1:0:105;done:1:105|genesis:1:100;info:1:0:1,complete:1:0:105",
    ],
    // it is compacted in between
    [
        "2",
        "snapper: log 0 at 0: Back/",
        "genesis:1:100;info:1:0:1,complete:1:0:105;done:1:105|genesis:1:100,checkpoint:1:2:2:1:1:0:105",
    ],
    // a checkpoint's counts and states go on
    [
        "2",
        "actor 0 106/following batches 1 acts 1/",
        "genesis:1:100,checkpoint:1:2:2:1:1:0:105;prepare:2:0:106;actdone:2:1:1:106:0",
    ],
    // its bytes end within a group, as where a group was appended while they were read
    [
        "2",
        "actor 0 105/following batches 1 acts 0/",
        "genesis:1:100;info:1:0:1,complete:1:0:105;done:1:105-c3|genesis:1:100;info:1:0:1,complete:1:0:105;done:1:105",
    ],
    // and so they stay
    [
        "2",
        "snapper: log 0 at 318: Damage/",
        "genesis:1:100;info:1:0:1,complete:1:0:105;done:1:105-c3",
    ],
    // no log says how many there are
    ["2", "snapper: log 0 at 0: NoGenesis/", ""],
];

/// What is told of the first row that is told otherwise; nothing where none is.
fn untrue(alloc: Global) -> Result<String, Fail> {
    for [rounds, wanted, contents] in ROWS {
        let told = follow(alloc, contents, rounds)?.told(alloc)?;
        if told.as_str() != wanted {
            return Ok(told);
        }
    }
    Ok(String::new(alloc))
}

#[test]
fn logs_that_grow_are_followed_as_their_rows_say(rt: HostRuntime) -> Result<(), Fail> {
    assert_eq!(rt; untrue(rt.alloc())?.as_str(), "");
    Ok(())
}
