//! Logs as rows spell them. An empty word is an empty file, and `=` stands before the bytes of a file. Else groups stand apart by
//! `;` and their records by `,`; `old ` in front makes it a log of format 1, and `-c` and a number at the end cuts so many bytes
//! off. A record is `genesis:2:7.8_9` (Genesis of two logs, actors with first fields 7, and 8 and 9), `info:4:0.1:5` (batch 4 of
//! actors 0 and 1 with transaction 5), `complete:4:1:9` (actor 1 completes it with first field 9), `done:4:80` (its commit:
//! transaction 5 had the result 80), `commit:4` (a commit that tells no results), `prepare:7:1:9` (undeclared transaction 7 leaves
//! actor 1 with first field 9), `actdone:7:4:2:80:0.1` (its commit, behind batch 4, with number 2 and result 80, on actors 0 and
//! 1), `act:7:4:2:0.1` (one that tells no result), `checkpoint:3:9:5:2:4:1:7.8_9` (the checkpoint of generation 3 with the next
//! numbers 9, 5 and 2, for 4 batches, an undeclared transaction and the states that they left), or `x` with the bytes of an item.

use snap_base::Memory;
use std::alloc::Global;

/// How a part of a record is written: a word or, behind their number, words apart by `.`; a word spells numbers apart by `_`,
/// of which those that are left out are 0, in so many bytes each.
#[derive(Clone, Copy)]
struct Kind {
    is_list: bool,
    numbers: usize,
    width: usize,
}

/// A number of one byte.
const BYTE: Kind = Kind {
    is_list: false,
    numbers: 1,
    width: 1,
};

/// A number of two bytes.
const SHORT: Kind = Kind {
    is_list: false,
    numbers: 1,
    width: 2,
};

/// A list of numbers of two bytes.
const SHORTS: Kind = Kind {
    is_list: true,
    numbers: 1,
    width: 2,
};

/// A number of eight bytes.
const LONG: Kind = Kind {
    is_list: false,
    numbers: 1,
    width: 8,
};

/// A list of numbers of eight bytes.
const LONGS: Kind = Kind {
    is_list: true,
    numbers: 1,
    width: 8,
};

/// The fields of an actor.
const STATE: Kind = Kind {
    is_list: false,
    numbers: 16,
    width: 8,
};

/// A list of the fields of actors.
const STATES: Kind = Kind {
    is_list: true,
    numbers: 16,
    width: 8,
};

/// How the word of a record begins, its tag, and how its parts are written.
const RECORDS: [(&str, u8, &[Kind]); 9] = [
    ("genesis:", 1, &[BYTE, STATES]),
    ("info:", 2, &[LONG, SHORTS, LONGS]),
    ("complete:", 3, &[LONG, SHORT, STATE]),
    ("commit:", 4, &[LONG]),
    ("prepare:", 5, &[LONG, SHORT, STATE]),
    ("act:", 6, &[LONG, LONG, LONG, SHORTS]),
    ("done:", 7, &[LONG, LONGS]),
    ("actdone:", 8, &[LONG, LONG, LONG, LONG, SHORTS]),
    (
        "checkpoint:",
        16,
        &[LONG, LONG, LONG, LONG, LONG, LONG, STATES],
    ),
];

/// The bytes that a row's word for a log spells.
pub fn log_bytes(alloc: Global, word: &str) -> Result<Vec<u8>, Memory> {
    if let Some(bytes) = word.strip_prefix("=") {
        return Ok(bytes.as_bytes().to_vec(alloc)?);
    }
    let (header, word) = match word.strip_prefix("old ") {
        Some(rest) => (b"SNAPLOG1", rest),
        None => (b"SNAPLOG2", word),
    };
    let (groups, cut) = word.rsplit_once("-c").unwrap_or((word, "0"));
    let mut bytes = Vec::new(alloc);
    if !groups.is_empty() {
        bytes.extend_from_slice(header)?;
        push_groups(alloc, &mut bytes, groups)?;
    }
    let kept = bytes.len().saturating_sub(cut.parse().unwrap_or(0));
    bytes.truncate(kept);
    Ok(bytes)
}

/// Adds the bytes of the groups that stand apart by `;`, and the mark behind them.
fn push_groups(alloc: Global, bytes: &mut Vec<u8>, groups: &str) -> Result<(), Memory> {
    for group in groups.split(';') {
        let mut items = Vec::new(alloc);
        for record in group.split(',') {
            let mut item = Vec::new(alloc);
            push_record(&mut item, record)?;
            push_last(&mut items, (item.len() as u64).to_be_bytes(), 2)?;
            items.extend_from_slice(&item)?;
        }
        bytes.push(1)?;
        push_last(bytes, (items.len() as u64).to_be_bytes(), 4)?;
        bytes.extend_from_slice(&items)?;
    }
    Ok(bytes.push(0)?)
}

/// Adds the bytes of a record that a word and its parts spell, or of an item after `x`.
fn push_record(item: &mut Vec<u8>, record: &str) -> Result<(), Memory> {
    for (front, tag, kinds) in RECORDS {
        if let Some(parts) = record.strip_prefix(front) {
            item.push(tag)?;
            for (kind, words) in kinds.iter().zip(parts.split(':')) {
                push_words(item, *kind, words)?;
            }
            return Ok(());
        }
    }
    let bytes = record.strip_prefix("x").unwrap_or("");
    Ok(item.extend_from_slice(bytes.as_bytes())?)
}

/// Adds the bytes of the words of a record's part, after their number where it is a list.
fn push_words(item: &mut Vec<u8>, kind: Kind, words: &str) -> Result<(), Memory> {
    if kind.is_list {
        let count = words.split('.').count() as u64;
        push_last(item, count.to_be_bytes(), 2)?;
    }
    for word in words.split('.') {
        let mut numbers = word.split('_');
        for _ in 0..kind.numbers {
            let number: i64 = numbers.next().unwrap_or("").parse().unwrap_or(0);
            push_last(item, number.to_be_bytes(), kind.width)?;
        }
    }
    Ok(())
}

/// The last bytes of a number, so many.
fn push_last(item: &mut Vec<u8>, number: [u8; 8], width: usize) -> Result<(), Memory> {
    let left_out = number.len().saturating_sub(width);
    Ok(item.extend_from_slice(&number[left_out..])?)
}
