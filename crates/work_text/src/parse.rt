//! A text as a work, or its first fault; whether it is too long, and whether it is UTF-8, is asked first.

ghost use Rattle.std.specs.Prelude.{◌≡◌, ◌≤◌, ◌+◌, ◌==◌, length, take, IfOk, IsErrOf};
ghost use Rattle.std.specs.List.{count_by};
ghost use Rattle.snap_work.specs.Works.{work_of};
ghost use Rattle.work_text.specs.Readings.{Is};
ghost use Rattle.work_text.specs.Reads.{Reads, IsWork, IsFirstWorkFault};

use crate::faults::at_line;
use crate::reading::read_lines;
use crate::texts::Cursor;
use snap_work::{LONGEST_WORK, Limit, Work, WorkCause, WorkFault, WorkNo};
use std::alloc::Global;

/// The work that a text stands for, or the text's first fault, with the line where it stands (0 where the text is too long).
pub fn parse_work(alloc: Global, bytes: &[u8]) -> Result<Work, WorkNo>
    // What is read is what the text stands for.
    ensures found { IfOk result (λ w. IsWork bytes.now (work_of w)) }
    // A fault is the first one of the text.
    ensures fault { (fault : WorkFault) → IsErrOf result (WorkNo.Fault fault) → IsFirstWorkFault bytes.now fault }
{
    read_text(alloc, bytes)
}

// What a text is read as.
fn read_text(alloc: Global, bytes: &[u8]) -> Result<Work, WorkNo>
    ensures { Is work_of result (Reads bytes.now) }
{
    if bytes.len() > LONGEST_WORK {
        let cause = WorkCause::Limit {
            which: Limit::Input,
            found: LONGEST_WORK as u64 + 1,
        };
        return Err(at_line(0, cause));
    }
    match str::from_utf8(bytes) {
        Ok(_) => {
            let cursor = Cursor {
                rest: bytes,
                line: 1,
            };
            read_lines(alloc, cursor)
        }
        Err(end) => {
            let line = line_at(bytes, end.valid_up_to());
            Err(at_line(line, WorkCause::NotUtf8))
        }
    }
}

// The line of a place in a text, from 1 on.
fn line_at(bytes: &[u8], place: usize) -> u32
    requires within { place ≤ length bytes.now }
    requires short { length bytes.now ≤ LONGEST_WORK }
    ensures { result ≡ 1 + count_by (λ b. b == 10) (take place bytes.now) }
{
    let mut line = 1;
    let mut at = 0;
    while at < place {
        if bytes[at] == b'\n' {
            line += 1;
        }
        at += 1;
    }
    line
}
