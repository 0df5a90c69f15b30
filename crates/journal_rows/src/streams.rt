//! Sources and sinks: what each call moves.
use crate::devices::{are_zeros, is_filled};
use snap_base::Memory;
use snap_files::{StdinSource, StdoutSink};
use snap_outside::{MemSink, MemSource, Sink, Source};
use std::alloc::Global;
use std::rt::HostRuntime;

/// Whether the sink takes so many bytes of each piece, in order; none stands for a fault.
pub fn takes<S: Sink>(sink: &mut S, rows: &[(&[u8], Option<usize>)]) -> bool {
    for (piece, count) in rows {
        if sink.write(*piece).ok() != *count {
            return false;
        }
    }
    true
}

/// Whether the source moves these bytes into buffers of zeros with so much room, in order, and leaves zeros behind
/// them; none stands for a fault.
fn gives<S: Source>(
    alloc: Global,
    source: &mut S,
    rows: &[(usize, Option<&[u8]>)],
) -> Result<bool, Memory> {
    for (room, moved) in rows {
        if !gives_so(alloc, source, *room, *moved)? {
            return Ok(false);
        }
    }
    Ok(true)
}

fn gives_so<S: Source>(
    alloc: Global,
    source: &mut S,
    room: usize,
    moved: Option<&[u8]>,
) -> Result<bool, Memory> {
    let mut buffer = vec![in alloc; 0u8; room]?;
    let count = source.read(&mut buffer).ok();
    Ok(match moved {
        Some(bytes) => count == Some(bytes.len()) && is_filled(&buffer, bytes.len(), bytes),
        None => count.is_none() && are_zeros(&buffer),
    })
}

/// A source of "abc" whose second call fails.
const SOURCE: [(usize, Option<&[u8]>); 4] = [
    (2, Some(b"ab")),
    (2, None),
    (2, Some(b"c")),
    (2, Some(b"")),
];

/// A sink whose second call fails.
const SINK: [(&[u8], Option<usize>); 3] = [(b"ab", Some(2)), (b"x", None), (b"c", Some(1))];

/// The standard output.
const OUTPUT: [(&[u8], Option<usize>); 2] = [(b"", Some(0)), (b"a line\n", Some(7))];

/// Streams in memory move bytes.
pub fn memory_moves_bytes(alloc: Global) -> Result<bool, Memory> {
    let mut source = MemSource::new(b"abc".to_vec(alloc)?, [2].to_vec(alloc)?);
    let is_given = gives(alloc, &mut source, &SOURCE)?;
    let mut sink = MemSink::new(alloc, [2].to_vec(alloc)?)?;
    let is_taken = takes(&mut sink, &SINK);
    let is_late = source.late() == 2 && sink.late() == 1;
    Ok(is_given && is_taken && is_late && sink.bytes() == b"abc".as_slice() && sink.wanted() == 0)
}

/// The standard streams are there.
pub fn standard_streams_are_there(rt: &HostRuntime) -> Result<bool, Memory> {
    let mut source = StdinSource::new(rt);
    let is_given = gives(rt.alloc(), &mut source, &[(0, Some(b""))])?;
    let mut sink = StdoutSink::new(rt);
    let is_taken = takes(&mut sink, &OUTPUT);
    Ok(is_given && is_taken && source.faults() == 0 && sink.faults() == 0)
}
