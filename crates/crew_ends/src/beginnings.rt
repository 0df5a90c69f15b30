//! What a crew begins with.
ghost use Rattle.std.specs.Prelude.{◌≡◌, ◌+◌, ◌≤◌, ◌^◌, [], false, length, map, IfOk, IfErr, vec_capacity, vec_len};
ghost use Rattle.std.specs.List.{AllByRecursion};
ghost use Rattle.crew_ends.specs.Ends.{AreBeside};
ghost use Rattle.crew_ends.specs.Rooms.{IsRoomFor};
ghost use Rattle.crew_parts.specs.Crews.{AreFirstShares};
ghost use Rattle.crew_parts.specs.Shares.{output_seen};
ghost use Rattle.gate_log.specs.declared.limits.TheConstants.{FARTHEST_END};
ghost use Rattle.snap_core.specs.Cores.{IsAt};
ghost use Rattle.snap_hand.specs.Tables.{AreTables, fixed_of};

use crate::laying::lay_out;
use crate::rooms::{Beginning, Room};
use crew_parts::{Share, Slot};
use gate_log::{FARTHEST_END, Log};
use snap_base::Memory;
use snap_core::Core;
use snap_hand::{Part, Tables, first_cell};
use snap_outside::{LogDev, Sink};
use std::alloc::Global;

/// All parts of a new core as shares: beside the logs, as many as the text says, are their journals, which take appends, and
/// beside the desk is the output. Without memory the core, the logs and the output come back as they were.
pub fn shares_of<D: LogDev + Drop, O: Sink + Drop>(
    alloc: Global,
    core: Core,
    logs: Vec<Log<D>>,
    out: O,
) -> Result<Beginning<D, O>, (Core, Vec<Log<D>>, O, Memory)>
    requires new { IsAt core [] }
    requires logs { length logs.items ≡ core.tables.work.logs }
    requires open { AllByRecursion (λ l. l.shut ≡ false) logs.items }
    requires format { AllByRecursion (λ l. l.format ≡ 2) logs.items }
    requires ends { AllByRecursion (λ l. l.end ≤ FARTHEST_END + 2 ^ 32) logs.items }
    ensures tables { IfOk result (λ made. (made.tables ≡ core.tables) × AreTables made.tables) }
    ensures begins { IfOk result (λ made. AreFirstShares (fixed_of core.tables) made.shares.items) }
    ensures beside { IfOk result (λ made. AreBeside logs.items (output_seen O.taken O.faults O.late false out) made.shares.items) }
    ensures room { IfOk result (λ made. IsRoomFor (fixed_of core.tables) made.room) }
    ensures back { IfErr result (λ kept. (kept.0 ≡ core) × ((kept.1 ≡ logs) × (kept.2 ≡ out))) }
{
    let Ok(reserved) = Reserved::new(alloc, part_count(core.tables()), logs.len()) else {
        return Err((core, logs, out, Memory));
    };
    match core.into_parts(alloc) {
        Ok((tables, parts, hand)) => {
            let Reserved {
                parts: room,
                shares,
                journals,
                output,
            } = reserved;
            let mut logs = logs;
            let shares = lay_out(parts, &mut logs, journals, output.with_output(out), shares);
            let room = Room {
                hand,
                parts: room,
                logs,
            };
            Ok(Beginning {
                tables,
                shares,
                room,
            })
        }
        Err((core, _)) => Err((core, logs, out, Memory)),
    }
}

/// All memory that a beginning takes for itself.
#[derive(Drop)]
struct Reserved<D: LogDev + Drop, O: Sink + Drop> {
    /// Empty, with room for all parts at the end.
    parts: Vec<Part>,
    /// Empty, with room for all shares.
    shares: Vec<Share<D, O>>,
    /// A slot for each log.
    journals: Vec<Slot<D, O>>,
    output: Slot<D, O>,
}

impl<D: LogDev + Drop, O: Sink + Drop> Reserved<D, O> {
    /// For so many parts, of which so many are logs.
    fn new(alloc: Global, count: usize, logs: usize) -> Result<Self, Memory>
        ensures parts { IfOk result (λ made. (made.parts.items ≡ []) × (count ≤ vec_capacity made.parts)) }
        ensures shares { IfOk result (λ made. (made.shares.items ≡ []) × (count ≤ vec_capacity made.shares)) }
        ensures journals { IfOk result (λ made. vec_len made.journals ≡ logs) }
    {
        Ok(Reserved {
            parts: Vec::with_capacity(alloc, count)?,
            shares: Vec::with_capacity(alloc, count)?,
            journals: slots(alloc, logs)?,
            output: Slot::new(alloc)?,
        })
    }
}

/// So many slots.
fn slots<D: LogDev + Drop, O: Sink + Drop>(
    alloc: Global,
    count: usize,
) -> Result<Vec<Slot<D, O>>, Memory>
    ensures { IfOk result (λ made. vec_len made ≡ count) }
{
    let mut made = Vec::with_capacity(alloc, count)?;
    for _made in 0..count {
        made.push_reserved(Slot::new(alloc)?);
    }
    Ok(made)
}

/// How many parts the text has.
fn part_count(tables: &Tables) -> usize
    requires { AreTables tables.now }
    ensures { result ≡ 4 + tables.now.work.logs + length tables.now.opening.states }
{
    first_cell(tables.work.logs) + tables.opening.states.len()
}
