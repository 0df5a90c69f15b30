//! Which calls of the outside fail.

use crate::texts::{number_at, part};

/// Where a call may fail.
#[derive(Clone, Copy, Debug)]
pub(crate) enum Place {
    Log(u8),
    Read,
    Write,
    Trace,
}

/// All places.
pub(crate) const PLACES: [Place; 7] = [
    Place::Log(0),
    Place::Log(1),
    Place::Log(2),
    Place::Log(3),
    Place::Read,
    Place::Write,
    Place::Trace,
];

/// The numbers, from 1 on, of the calls that fail; 0 is none.
#[derive(Clone, Copy)]
pub(crate) struct Failing {
    pub(crate) logs: [u64; 4],
    pub(crate) read: u64,
    pub(crate) write: u64,
    pub(crate) trace: u64,
}

/// None fails.
pub(crate) const NONE: Failing = Failing {
    logs: [0; 4],
    read: 0,
    write: 0,
    trace: 0,
};

impl Failing {
    /// The call with this number fails at this place, and no other call.
    pub(crate) fn at(place: Place, call: u64) -> Failing {
        let mut failing = NONE;
        match place {
            Place::Log(0) => failing.logs[0] = call,
            Place::Log(1) => failing.logs[1] = call,
            Place::Log(2) => failing.logs[2] = call,
            Place::Log(_) => failing.logs[3] = call,
            Place::Read => failing.read = call,
            Place::Write => failing.write = call,
            Place::Trace => failing.trace = call,
        }
        failing
    }

    /// The calls that a row names fail: its second part has their numbers for log 0, log 1, the input, the output and the trace.
    pub(crate) fn of(asked: &str) -> Failing {
        let numbers = part(asked, '|', 1);
        Failing {
            logs: [number_at(numbers, 0), number_at(numbers, 1), 0, 0],
            read: number_at(numbers, 2),
            write: number_at(numbers, 3),
            trace: number_at(numbers, 4),
        }
    }
}
