//! The lines of the program.

ghost use Rattle.std.specs.Prelude.{◌≡◌, ℕ, ◌+◌, ◌<◌, ◌≤◌, List, length, Some, None, MatchResult, IfOk};
ghost use Rattle.aml_check.specs.Checked.{methods_of};
ghost use Rattle.work_text.specs.Lines.{text_of, up_to_end};
ghost use Rattle.work_text.specs.Readings.{Is};
ghost use Rattle.work_text.specs.Reads as reads;
ghost use Rattle.work_text.specs.Parts.{IsFaultBehind, IsNear, IsTextNo};
ghost use Rattle.work_text.specs.Cursors.{ahead, end_of, IsShort};

use crate::faults::at_line;
use crate::lines::next_line;
use crate::texts::Cursor;
use aml_check::Checked;
use aml_parser::{TextNo, faults_stand_in_the_text, lines_stand_in_the_text, parse_program_bytes};
use aml_resolver::{CheckNo, check, faults_stand_in_the_program};
use snap_work::{LONGEST_WORK, ProgramCause, WorkCause, WorkNo};
use std::alloc::Global;

// A fault of a line behind another one.
fn fault_behind(before: u32, line: u32, cause: WorkCause) -> WorkNo
    requires { before + line ≤ 1 + LONGEST_WORK }
    ensures { IsFaultBehind before line cause result }
{
    at_line(before + line, cause)
}

// What is wrong with the program's text, in the whole text.
fn text_no(before: u32, no: TextNo) -> WorkNo
    requires { IsNear before no }
    ensures { IsTextNo before no result }
{
    match no {
        TextNo::Memory => WorkNo::Memory,
        TextNo::Fault(fault) => {
            let cause = ProgramCause::Text {
                cause: fault.cause,
                column: fault.column,
            };
            fault_behind(before, fault.line, WorkCause::Program(cause))
        }
    }
}

// The program of a text that begins behind a line.
fn program_text(alloc: Global, before: u32, text: &[u8]) -> Result<Checked, WorkNo>
    requires { before + length text.now ≤ LONGEST_WORK }
    ensures { Is methods_of result (reads.program_text before text.now) }
{
    faults_stand_in_the_text(text);
    lines_stand_in_the_text(text);
    faults_stand_in_the_program(1 + text.len());
    let tree = match parse_program_bytes(alloc, text) {
        Ok(tree) => tree,
        Err(no) => return Err(text_no(before, no)),
    };
    match check(alloc, tree) {
        Ok(program) => Ok(program),
        Err(CheckNo::Memory) => Err(WorkNo::Memory),
        Err(CheckNo::Fault(fault)) => {
            let cause = ProgramCause::Check(fault.cause);
            Err(fault_behind(before, fault.line, WorkCause::Program(cause)))
        }
    }
}

// The text before the first line that is `end`, and what lies behind that; or the number behind the last line.
fn program_end<'a>(cursor: Cursor<'a>) -> Result<(&'a [u8], Cursor<'a>), u32>
    requires { IsShort cursor }
    ensures found { MatchResult result (λ x. (front : List (List ℕ)) × (up_to_end (ahead cursor.entry) ≡ Some (front, ahead x.1)) × (x.0.now ≡ text_of front)) (λ last. up_to_end (ahead cursor.entry) ≡ None) }
    ensures onward { MatchResult result (λ x. (end_of x.1 ≡ end_of cursor.entry) × IsShort x.1) (λ last. last ≡ end_of cursor.entry) }
    ensures within { IfOk result (λ x. length x.0.now ≤ length cursor.entry.rest.now) }
{
    let mut at = cursor;
    while let Some((line, behind)) = next_line(at) {
        if line.bytes == b"end".as_slice() {
            let length = cursor.rest.len() - at.rest.len();
            return Ok((&cursor.rest[..length], behind));
        }
        at = behind;
    }
    Err(at.line)
}

/// The program up to its `end`, and what lies behind that; the program begins behind a line.
pub(crate) fn program<'a>(
    alloc: Global,
    before: u32,
    cursor: Cursor<'a>,
) -> Result<(Checked, Cursor<'a>), WorkNo>
    requires short { IsShort cursor }
    requires behind { before < cursor.line }
    ensures reads { Is (λ x. (methods_of x.0, ahead x.1)) result (reads.program_lines (end_of cursor.entry) before (up_to_end (ahead cursor.entry))) }
    ensures kept { IfOk result (λ x. (end_of x.1 ≡ end_of cursor.entry) × IsShort x.1) }
{
    match program_end(cursor) {
        Ok((text, behind)) => Ok((program_text(alloc, before, text)?, behind)),
        Err(last) => Err(at_line(last, WorkCause::BadHeader)),
    }
}
