//! The lines of a text, one after the other.

ghost use Rattle.std.specs.Prelude.{◌≡◌, ◌≢◌, ℕ, ◌+◌, ◌<◌, ◌≤◌, List, ◌++◌, ◌∷◌, [], length, IfSome, take, drop, None, Some, MatchOption, MatchResult, IfOk};
ghost use Rattle.snap_base.specs.Lines.{lines};
ghost use Rattle.work_text.specs.Lines.{says, next};
ghost use Rattle.work_text.specs.Cursors.{line_of, ahead, end_of, IsShort};

use crate::texts::{Cursor, Line};

// Where the first line of a text ends.
fn line_end(rest: &[u8]) -> usize
    ensures within { result ≤ length rest.now }
    ensures feed { result < length rest.now → rest.now ≡ take result rest.now ++ 10 ∷ drop (result + 1) rest.now }
    ensures cut { rest.now ≢ [] → lines rest.now ≡ take result rest.now ∷ lines (drop (result + 1) rest.now) }
{
    let mut at = 0;
    while at < rest.len() && rest[at] != b'\n' {
        at += 1;
    }
    at
}

/// The next line, and what lies behind it.
pub(crate) fn next_line<'a>(cursor: Cursor<'a>) -> Option<(Line<'a>, Cursor<'a>)>
    requires { IsShort cursor }
    ensures found { MatchOption result (ahead cursor.entry ≡ []) (λ x. ahead cursor.entry ≡ line_of x.0 ∷ ahead x.1) }
    ensures onward { MatchOption result (end_of cursor.entry ≡ cursor.entry.line) (λ x. (end_of x.1 ≡ end_of cursor.entry) × IsShort x.1 × (length x.1.rest.now < length cursor.entry.rest.now)) }
    ensures feed { IfSome result (λ x. x.1.rest.now ≢ [] → cursor.entry.rest.now ≡ x.0.bytes.now ++ 10 ∷ x.1.rest.now) }
    ensures some { IfSome result (λ x. cursor.entry.rest.now ≢ []) }
    ensures number { IfSome result (λ x. x.0.number < x.1.line) }
{
    if cursor.rest.is_empty() {
        return None;
    }
    let at = line_end(cursor.rest);
    let line = Line {
        number: cursor.line,
        bytes: &cursor.rest[..at],
    };
    let behind = (at + 1).min(cursor.rest.len());
    let next = Cursor {
        rest: &cursor.rest[behind..],
        line: cursor.line + 1,
    };
    Some((line, next))
}

/// Whether a line outside the program is not skipped.
pub(crate) fn is_said(line: &[u8]) -> bool
    ensures { result ≡ says line.now }
{
    !line.is_empty() && line[0] != b'#'
}

/// The next line that says something, and what lies behind it; or the number behind the last line.
pub(crate) fn next_said<'a>(cursor: Cursor<'a>) -> Result<(Line<'a>, Cursor<'a>), u32>
    requires { IsShort cursor }
    ensures found { MatchResult result (λ x. next (ahead cursor.entry) ≡ Some (line_of x.0, ahead x.1)) (λ last. next (ahead cursor.entry) ≡ None) }
    ensures onward { MatchResult result (λ x. (end_of x.1 ≡ end_of cursor.entry) × IsShort x.1 × (length x.1.rest.now < length cursor.entry.rest.now)) (λ last. last ≡ end_of cursor.entry) }
    ensures number { IfOk result (λ x. x.0.number < x.1.line) }
{
    let mut at = cursor;
    while let Some((line, behind)) = next_line(at) {
        if is_said(line.bytes) {
            return Ok((line, behind));
        }
        at = behind;
    }
    Err(at.line)
}
