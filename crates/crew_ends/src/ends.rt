//! What a crew ends with.
ghost use Rattle.std.specs.Prelude.{◌≡◌, List, length};
ghost use Rattle.crew_ends.specs.Ends.{AreBeside, IsSomeEnd};
ghost use Rattle.crew_ends.specs.Rooms.{IsRoomFor};
ghost use Rattle.crew_parts.specs.Crews.{HasCome};
ghost use Rattle.crew_parts.specs.Shares.{ShareState, output_seen};
ghost use Rattle.protocol.specs.Events as machine;
ghost use Rattle.snap_core.specs.Cores.{IsAt};
ghost use Rattle.snap_hand.specs.Tables.{AreTables, fixed_of};

use crate::rooms::Room;
use crate::taking::{Apart, take_apart};
use crew_parts::{Share, runs_lead};
use gate_log::Log;
use snap_core::Core;
use snap_hand::Tables;
use snap_outside::{LogDev, Sink};

/// What a crew ended with: its core, its logs in the order of their numbers, and its output.
pub struct Ended<D: LogDev, O: Sink> {
    /// The core, with all parts as the crew left them.
    pub core: Core,
    /// The logs, in the order of their numbers. A log whose device failed is shut.
    pub logs: Vec<Log<D>>,
    /// The output.
    pub out: O,
    /// Whether the output failed at a line.
    pub broken: bool,
}

/// Makes a core of the shares to which a crew has come, and gives back the logs and the output that stand beside them. It needs no
/// memory: the room was made at the beginning.
pub fn core_of<D: LogDev + Drop, O: Sink + Drop>(
    tables: Tables,
    shares: Vec<Share<D, O>>,
    room: Room<D>,
) -> Ended<D, O>
    requires tables { AreTables tables }
    requires come { IsSomeEnd (fixed_of tables) shares.items }
    requires room { IsRoomFor (fixed_of tables) room }
    // The core is where the events have come to.
    ensures tables { result.core.tables ≡ tables }
    ensures core { (start : List ShareState) (es : List machine.Event) → HasCome (fixed_of tables) start es shares.items → IsAt result.core es }
    ensures beside { AreBeside result.logs.items (output_seen O.taken O.faults O.late result.broken result.out) shares.items }
    ensures many { length result.logs.items ≡ tables.work.logs }
{
    runs_lead(&tables);
    let count = tables.work.logs as usize;
    let Apart {
        hand,
        parts,
        logs,
        out,
        broken,
    } = take_apart(shares, room, count);
    let core = Core::from_parts(tables, hand, parts);
    Ended {
        core,
        logs,
        out,
        broken,
    }
}
