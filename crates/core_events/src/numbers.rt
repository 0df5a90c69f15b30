//! The numbers of the machine's parts: ring, book, post and desk, behind them the logs, and behind these the actors' cells.
ghost use Rattle.std.specs.Prelude.{◌≡◌};
ghost use Rattle.protocol.specs.Events as protocol;

use snap_base::ActorId;

/// The number of the ring among the machine's parts.
pub const RING: usize = 0;

/// The number of the book among the machine's parts.
pub const BOOK: usize = 1;

/// The number of the post among the machine's parts.
pub const POST: usize = 2;

/// The number of the desk among the machine's parts.
pub const DESK: usize = 3;

/// The number of log 0 among the machine's parts. The other logs follow it, in their order.
pub const FIRST_LOG: usize = 4;

/// The number of log `l` among the machine's parts.
pub fn part_of_log(l: u8) -> usize
    ensures { result ≡ protocol.log l }
{
    FIRST_LOG + l as usize
}

/// The number of actor 0's cell among the machine's parts, where there are so many logs. It is also how many parts are no
/// cells. The other actors' cells follow it, in the order of the actors.
pub fn first_cell(logs: u8) -> usize
    ensures { result ≡ protocol.cell logs 0 }
{
    FIRST_LOG + logs as usize
}

/// The number of the actor's cell among the machine's parts, where there are so many logs.
pub fn part_of_cell(a: ActorId, logs: u8) -> usize
    ensures { result ≡ protocol.cell logs a.0 }
{
    first_cell(logs) + a.0 as usize
}

/// The constants are the numbers of the machine's own parts.
pub fn parts_have_numbers()
    ensures ring { RING ≡ protocol.ring }
    ensures book { BOOK ≡ protocol.book }
    ensures post { POST ≡ protocol.post }
    ensures desk { DESK ≡ protocol.desk }
    ensures logs { FIRST_LOG ≡ protocol.log 0 }
{}
