//! The work that a run is asked for.

use aml_check::Checked;
use snap_base::{Sequence, State, Tx};

/// What a run is asked for.
pub struct Work {
    /// How many coordinators pass the token on, 1 to `MOST_COORDINATORS`.
    pub coordinators: u8,
    /// How many logs there are, 1 to `MOST_LOGS`.
    pub logs: u8,
    /// How many transactions a batch may have, 1 to `MOST_IN_A_BATCH`.
    pub batch: u16,
    /// How many batches may be live, 1 to `MOST_BATCHES`.
    pub batches: u8,
    /// How many ACTs may be live, 1 to `MOST_ACTS`.
    pub acts: u8,
    pub program: Checked,
    /// Each actor's state at the beginning; 1 to `MOST_ACTORS` actors.
    pub states: Sequence<State>,
    /// The transactions in the order of the text, at most `MOST_TRANSACTIONS`.
    pub txs: Sequence<Tx>,
}

// Written out, so that a crate above calls it and does not repeat it.
impl Drop for Work {
    fn drop(self) {
        let Work {
            coordinators: _coordinators,
            logs: _logs,
            batch: _batch,
            batches: _batches,
            acts: _acts,
            program: _program,
            states: _states,
            txs: _txs,
        } = self;
    }
}
