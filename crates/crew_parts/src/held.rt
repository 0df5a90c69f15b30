//! What is held in the place beside a part.
ghost use Rattle.std.specs.Prelude.{◌≡◌, false, option_map};
ghost use Rattle.crew_parts.specs.Besides.{HasAppended, HasWritten, MayAppendTo, MayWriteTo, beside_desk, beside_log, beside_none, has_failed_there, is_ready_journal, is_ready_output, is_shut_there};
ghost use Rattle.crew_parts.specs.Shares.{output_seen};

use gate_log::{AppendNo, Log};
use run_effects::{append_pieces, write_all};
use snap_base::Sequence;
use snap_outside::{Failed, LogDev, Sink};
use std::alloc::Global;
use std::marker::Model;

/// A journal, the output, or neither.
pub(crate) struct Held<D: LogDev, O: Sink> {
    journal: Option<Log<D>>,
    output: Option<O>,
    /// Whether the journal's device failed at an append. The journal is shut then.
    cut: bool,
    /// Whether the output failed at a line of this crew. Nothing is written to it then.
    failed: bool,
}

impl<D: LogDev, O: Sink> Model for Held<D, O> {
    ghost use Rattle.std.specs.Prelude.{◌≡◌, option_map};
    ghost use Rattle.crew_parts.specs.Besides.{IsOfFormat2, is_shut_there};
    ghost use Rattle.crew_parts.specs.Shares.{BesideState, output_seen};

    ghost Value = { BesideState };

    ghost view = { λ h. record { journal = h.journal; output = option_map (output_seen O.taken O.faults O.late h.failed) h.output } };

    ghost invariant = { λ h. (h.cut ≡ is_shut_there h.journal) × IsOfFormat2 h.journal };
}

// Written out, since the journal's device is let go by its log.
impl<D: LogDev + Drop, O: Sink + Drop> Drop for Held<D, O> {
    fn drop(self) {
        let (journal, _output) = self.open();
        let_go(journal);
    }
}

/// The device of a journal that is not needed any more is let go.
pub(crate) fn let_go<D: LogDev + Drop>(journal: Option<Log<D>>) {
    match journal {
        Some(log) => {
            let _device = log.into_dev();
        }
        None => {}
    }
}

impl<D: LogDev, O: Sink> Held<D, O> {
    /// Neither a journal nor the output.
    pub(crate) fn nothing() -> Self
        ensures { result ≡ beside_none }
    {
        Held {
            journal: None,
            output: None,
            cut: false,
            failed: false,
        }
    }

    /// A journal that takes appends.
    pub(crate) fn journal(log: Log<D>) -> Self
        requires open { log.shut ≡ false }
        requires format { log.format ≡ 2 }
        ensures { result ≡ beside_log log }
    {
        Held {
            journal: Some(log),
            output: None,
            cut: false,
            failed: false,
        }
    }

    /// The output.
    pub(crate) fn output(out: O) -> Self
        ensures { result ≡ beside_desk (output_seen O.taken O.faults O.late false out) }
    {
        Held {
            journal: None,
            output: Some(out),
            cut: false,
            failed: false,
        }
    }

    /// Takes it apart, into the journal and the output, each of which is `None` where it is not here. Whether the output failed
    /// is not told.
    pub(crate) fn open(self) -> (Option<Log<D>>, Option<O>)
        ensures journal { result.0 ≡ self.journal }
    {
        let Held {
            journal,
            output,
            cut: _,
            failed: _,
        } = self;
        (journal, output)
    }

    /// The output, where it is here, and whether it failed. The journal's device is let go.
    pub(crate) fn into_output(self) -> Option<(O, bool)>
    where
        D: Drop,
        ensures { self.output ≡ option_map (λ p. output_seen O.taken O.faults O.late p.1 p.0) result }
    {
        let Held {
            journal,
            output,
            cut: _,
            failed,
        } = self;
        let_go(journal);
        match output {
            Some(out) => Some((out, failed)),
            None => None,
        }
    }

    pub(crate) fn is_shut(&self) -> bool
        ensures { result ≡ is_shut_there self.now.journal }
    {
        self.cut
    }

    pub(crate) fn has_failed(&self) -> bool
        ensures { result ≡ has_failed_there self.now.output }
    {
        match &self.output {
            Some(_) => self.failed,
            None => false,
        }
    }

    pub(crate) fn has_output(&self) -> bool
        ensures { result ≡ is_ready_output self.now.output }
    {
        self.output.is_some() && !self.failed
    }

    pub(crate) fn has_journal(&self) -> bool
        ensures { result ≡ is_ready_journal self.now.journal }
    {
        self.journal.is_some() && !self.cut
    }

    pub(crate) fn append(&mut self, alloc: Global, pieces: &[Sequence<u8>]) -> Result<(), AppendNo>
        requires { MayAppendTo self.old pieces.now }
        ensures { HasAppended self.old self.new pieces.now result }
    {
        let result = match &mut self.journal {
            Some(log) => append_pieces(alloc, log, pieces),
            None => unreachable!(),
        };
        if result == Err(AppendNo::Device) {
            self.cut = true;
        }
        result
    }

    pub(crate) fn write(&mut self, line: &[u8]) -> Result<(), Failed>
        requires { MayWriteTo self.old }
        ensures { HasWritten self.old self.new line.now result }
    {
        match &mut self.output {
            Some(out) => match write_all(out, line) {
                Ok(()) => Ok(()),
                Err(failed) => {
                    self.failed = true;
                    Err(failed)
                }
            },
            None => unreachable!(),
        }
    }
}
