//! The Geneses of the logs: the first one, and how many there are.
ghost use Rattle.std.specs.Prelude.{◌≡◌, ℕ, ◌+◌, ◌≤◌, min, List, [], ◌∷◌, length, filter, IsTrue, ◌↔◌, MatchOption};
ghost use Rattle.txn_records.specs.declared.records.Record.{Record};
ghost use Rattle.txn_records.specs.declared.records.Record.TheVariants.{Genesis};
ghost use Rattle.snap_recover.specs.Logs.{is_genesis, geneses};

use snap_base::{Sequence, State};
use txn_records::Record;

/// The number of logs and the states of the first Genesis, log by log; `None` where no log has one.
pub fn first_genesis(logs: &[Sequence<Record>]) -> Option<(u8, &Sequence<State>)>
    ensures { MatchOption result (geneses logs.now ≡ []) (λ g. (rest : List Record) × (geneses logs.now ≡ Genesis g.0 g.1.now ∷ rest)) }
{
    for rs in logs {
        let found = genesis_of(rs.as_slice());
        if found.is_some() {
            return found;
        }
    }
    None
}

/// The number of logs and the states of the first Genesis of one log.
fn genesis_of(rs: &[Record]) -> Option<(u8, &Sequence<State>)>
    ensures { MatchOption result (filter is_genesis rs.now ≡ []) (λ g. (rest : List Record) × (filter is_genesis rs.now ≡ Genesis g.0 g.1.now ∷ rest)) }
{
    for r in rs {
        if let Record::Genesis { logs, states } = r {
            return Some((*logs, states));
        }
    }
    None
}

/// How many Geneses the logs have, where all from two on count as two.
pub(crate) fn count_geneses(logs: &[Sequence<Record>]) -> u8
    ensures { result ≡ min 2 (length (geneses logs.now)) }
{
    let mut count: u8 = 0;
    for rs in logs {
        count = add_geneses(count, rs.as_slice());
    }
    count
}

/// The count with the Geneses of one log.
fn add_geneses(so_far: u8, rs: &[Record]) -> u8
    requires few { so_far ≤ 2 }
    ensures { result ≡ min 2 (so_far + length (filter is_genesis rs.now)) }
{
    let mut count = so_far;
    for r in rs {
        count = raised(count, r);
    }
    count
}

/// The count with one record.
fn raised(count: u8, r: &Record) -> u8
    requires few { count ≤ 2 }
    ensures { result ≡ min 2 (count + length (filter is_genesis (r.now ∷ []))) }
{
    match r {
        Record::Genesis { .. } if count < 2 => count + 1,
        _ => count,
    }
}
