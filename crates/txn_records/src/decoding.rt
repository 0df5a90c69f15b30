//! Bytes to a record, or to the first byte at which none goes on.
ghost use Rattle.std.specs.Prelude.{◌≡◌, IfOk, IfErr, MatchResult};
ghost use Rattle.txn_records.specs.Records.{record_bytes, IsRecord};
ghost use Rattle.txn_records.specs.Faults.{IsNoRecord};
ghost use Rattle.txn_records.specs.declared.records.Record.{Record};

use crate::Record;
use crate::numbers::Stop;
use crate::reading::read;
use std::alloc::Global;

/// Why no record was read.
#[derive(Clone, Copy, Debug, PartialEq, Eq)]
pub enum DecodeNo {
    /// The bytes are no record's: the first offset at which no record goes on, at most `LONGEST_RECORD`.
    Bad { offset: u32 },
    /// There was no memory.
    Memory,
}

/// The record that the bytes are, all of the bytes.
pub fn decode(alloc: Global, bytes: &[u8]) -> Result<Record, DecodeNo>
    // What is read is spelled so.
    ensures found { IfOk result (λ r. IsRecord r × (bytes.now ≡ record_bytes r)) }
    // What is refused goes on as some record does up to the offset, and as none behind it.
    ensures bad { IfErr result (IsNoRecord bytes.now) }
    // What is spelled so is read, unless memory runs out.
    ensures only { (r : Record) → IsRecord r → bytes.now ≡ record_bytes r → MatchResult result (λ s. s ≡ r) (λ e. e ≡ DecodeNo.Memory) }
{
    match read(alloc, bytes) {
        Ok(record) => Ok(record),
        Err(Stop::Left(left)) => Err(DecodeNo::Bad {
            offset: (bytes.len() - left) as u32,
        }),
        Err(Stop::Memory) => Err(DecodeNo::Memory),
    }
}
