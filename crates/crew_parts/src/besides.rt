//! What stands beside a part of the machine.
ghost use Rattle.std.specs.Prelude.{◌≡◌, false, true, option_map};
ghost use Rattle.crew_parts.specs.Besides.{HasAppended, HasWritten, IsSoundBeside, MayAppendTo, MayWriteTo, beside_desk, beside_log, beside_none, has_failed_there, is_ready_journal, is_ready_output, is_shut_there};
ghost use Rattle.crew_parts.specs.Shares.{output_seen};

use crate::held::Held;
use core_events::{DESK, FIRST_LOG};
use gate_log::{AppendNo, Log};
use snap_base::{Memory, Sequence};
use snap_outside::{Failed, LogDev, Sink};
use std::alloc::Global;
use std::boxed::Box;
use std::marker::Model;

/// A place on the heap for a journal or for the output.
pub struct Slot<D: LogDev, O: Sink> {
    held: Box<Held<D, O>>,
}

// Written out, so that a crate above calls it and does not repeat it.
impl<D: LogDev + Drop, O: Sink + Drop> Drop for Slot<D, O> {
    fn drop(self) {
        let Slot { held: _held } = self;
    }
}

impl<D: LogDev + Drop, O: Sink + Drop> Slot<D, O> {
    /// An empty slot. `Memory` where there is none.
    pub fn new(alloc: Global) -> Result<Self, Memory> {
        let held = Box::new(alloc, Held::nothing())?;
        Ok(Slot { held })
    }

    /// Beside a log, a journal that takes appends.
    pub fn with_journal(self, log: Log<D>) -> Beside<D, O>
        requires open { log.shut ≡ false }
        requires format { log.format ≡ 2 }
        ensures { result ≡ beside_log log }
    {
        self.with(Held::journal(log))
    }

    /// Beside the desk, the output.
    pub fn with_output(self, out: O) -> Beside<D, O>
        ensures { result ≡ beside_desk (output_seen O.taken O.faults O.late false out) }
    {
        self.with(Held::output(out))
    }

    fn with(self, what: Held<D, O>) -> Beside<D, O>
        ensures { result ≡ what }
    {
        let Slot { mut held } = self;
        let _nothing = Box::replace(&mut held, what);
        Beside { held: Some(held) }
    }
}

/// What stands beside a part: beside a log its journal on its device, beside the desk the output, and nothing beside the others.
/// What is there stays in its slot, so that to move it moves a pointer.
pub struct Beside<D: LogDev, O: Sink> {
    held: Option<Box<Held<D, O>>>,
}

impl<D: LogDev, O: Sink> Model for Beside<D, O> {
    ghost use Rattle.std.specs.Prelude.{option_map};
    ghost use Rattle.crew_parts.specs.Besides.{beside_held};
    ghost use Rattle.crew_parts.specs.Shares.{BesideState};

    ghost Value = { BesideState };

    ghost view = { λ b. beside_held (option_map (λ h. h.value) b.held) };
}

// Written out for the same reason.
impl<D: LogDev + Drop, O: Sink + Drop> Drop for Beside<D, O> {
    fn drop(self) {
        let Beside { held: _held } = self;
    }
}

impl<D: LogDev, O: Sink> Beside<D, O> {
    /// Beside a part that is neither a log nor the desk.
    pub fn bare() -> Self
        ensures { result ≡ beside_none }
    {
        Beside { held: None }
    }

    /// Takes it apart, into the journal and the output, each of which is `None` where it is not here. Whether the output failed
    /// is not told.
    pub fn open(self) -> (Option<Log<D>>, Option<O>)
        ensures journal { result.0 ≡ self.journal }
    {
        let Beside { held } = self;
        match held {
            Some(held) => Box::into_inner(held).open(),
            None => (None, None),
        }
    }

    /// Whether a journal is here that is shut: its device failed at an append.
    pub fn is_shut(&self) -> bool
        ensures { result ≡ is_shut_there self.now.journal }
    {
        match &self.held {
            Some(held) => held.is_shut(),
            None => false,
        }
    }

    /// Whether an output is here that failed at a line.
    pub fn has_failed(&self) -> bool
        ensures { result ≡ has_failed_there self.now.output }
    {
        match &self.held {
            Some(held) => held.has_failed(),
            None => false,
        }
    }

    /// Whether the part of this number, where there are so many logs, can go on with this beside it: a log with a journal that
    /// takes appends, the desk with an output that has not failed.
    pub fn is_sound(&self, part: usize, logs: u8) -> bool
        ensures only { result ≡ true → IsSoundBeside logs part self.now }
        ensures all { IsSoundBeside logs part self.now → result ≡ true }
    {
        if part == DESK {
            return self.has_output();
        }
        if part < FIRST_LOG || part - FIRST_LOG >= logs as usize {
            return true;
        }
        self.has_journal()
    }

    fn has_output(&self) -> bool
        ensures { result ≡ is_ready_output self.now.output }
    {
        match &self.held {
            Some(held) => held.has_output(),
            None => false,
        }
    }

    fn has_journal(&self) -> bool
        ensures { result ≡ is_ready_journal self.now.journal }
    {
        match &self.held {
            Some(held) => held.has_journal(),
            None => false,
        }
    }

    /// Appends the pieces, in their order, to the journal, as one group. `Memory` leaves all as it was. `Device` shuts the journal,
    /// whose device then has a front of the group's operations. `Shut` does not come, since the journal takes appends.
    pub fn append(&mut self, alloc: Global, pieces: &[Sequence<u8>]) -> Result<(), AppendNo>
        requires { MayAppendTo self.old pieces.now }
        ensures { HasAppended self.old self.new pieces.now result }
    {
        match &mut self.held {
            Some(held) => held.append(alloc, pieces),
            None => unreachable!(),
        }
    }

    /// Writes a line to the output, which has not failed yet. Where the output fails at it, it took a front of the line, and has
    /// failed from then on.
    pub fn write(&mut self, line: &[u8]) -> Result<(), Failed>
        requires { MayWriteTo self.old }
        ensures { HasWritten self.old self.new line.now result }
    {
        match &mut self.held {
            Some(held) => held.write(line),
            None => unreachable!(),
        }
    }

    /// The journal, where it is here. The output is let go.
    pub fn into_journal(self) -> Option<Log<D>>
    where
        O: Drop,
        ensures { result ≡ self.journal }
    {
        let (journal, _output) = self.open();
        journal
    }

    /// The output, where it is here, and whether it failed. The journal's device is let go.
    pub fn into_output(self) -> Option<(O, bool)>
    where
        D: Drop,
        ensures { self.output ≡ option_map (λ p. output_seen O.taken O.faults O.late p.1 p.0) result }
    {
        let Beside { held } = self;
        match held {
            Some(held) => Box::into_inner(held).into_output(),
            None => None,
        }
    }
}
