//! Lines that set a number.

ghost use Rattle.std.specs.Prelude.{◌≡◌, ℕ, ◌<◌, ◌≤◌, ◌++◌, ◌^◌, Some, IfOk, IfSome};
ghost use Rattle.std.specs.Fmt.{decimal};
ghost use Rattle.work_text.specs.Readings.{Is};
ghost use Rattle.work_text.specs.Settings as spec;
ghost use Rattle.work_text.specs.Reads as reads;
ghost use Rattle.work_text.specs.Cursors.{line_of, ahead, end_of, IsShort};
ghost use Rattle.snap_work.specs.declared.faults.WorkNo.TheVariants as no;

use crate::faults::at_line;
use crate::lines::next_said;
use crate::texts::{Cursor, Line};
use decimal_words::natural;
use snap_work::{Limit, WorkCause, WorkNo};

// The number behind a word.
fn number_behind(line: &[u8], word: &[u8]) -> Option<u64>
    ensures found { IfSome result (λ n. line.now ≡ word.now ++ decimal n) }
    ensures only { (n : ℕ) → n < 2 ^ 64 → line.now ≡ word.now ++ decimal n → result ≡ Some n }
{
    let number = natural(line.strip_prefix(word)?)?;
    Some(number)
}

// The number that a line sets, from 1 on.
fn setting(line: Line<'_>, word: &[u8], most: u64, which: Limit) -> Result<u64, WorkNo>
    ensures reads { Is (λ n. n) result (spec.setting (record { word = word.now; most = most; which = which }) (line_of line.entry)) }
    ensures within { IfOk result (λ n. n ≤ most) }
{
    let Some(found) = number_behind(line.bytes, word) else {
        return Err(at_line(line.number, WorkCause::BadHeader));
    };
    if found < 1 || found > most {
        return Err(at_line(line.number, WorkCause::Limit { which, found }));
    }
    Ok(found)
}

/// The number that the next line sets, and what lies behind it.
pub(crate) fn set<'a>(
    cursor: Cursor<'a>,
    word: &[u8],
    most: u64,
    which: Limit,
) -> Result<(u64, Cursor<'a>), WorkNo>
    requires { IsShort cursor }
    ensures reads { Is (λ x. (x.0, ahead x.1)) result (reads.line (end_of cursor.entry) (ahead cursor.entry) (spec.setting (record { word = word.now; most = most; which = which }))) }
    ensures within { IfOk result (λ x. x.0 ≤ most) }
    ensures kept { IfOk result (λ x. (end_of x.1 ≡ end_of cursor.entry) × IsShort x.1) }
{
    match next_said(cursor) {
        Ok((line, behind)) => Ok((setting(line, word, most, which)?, behind)),
        Err(last) => Err(at_line(last, WorkCause::BadHeader)),
    }
}

/// The number of the next line, which is just this, and what lies behind it.
pub(crate) fn exactly<'a>(cursor: Cursor<'a>, bytes: &[u8]) -> Result<(u32, Cursor<'a>), WorkNo>
    requires { IsShort cursor }
    ensures reads { Is (λ x. (x.0, ahead x.1)) result (reads.line (end_of cursor.entry) (ahead cursor.entry) (reads.exactly bytes.now)) }
    ensures number { IfOk result (λ x. x.0 < x.1.line) }
    ensures kept { IfOk result (λ x. (end_of x.1 ≡ end_of cursor.entry) × IsShort x.1) }
{
    match next_said(cursor) {
        Ok((line, behind)) => Ok((just(line, bytes)?, behind)),
        Err(last) => Err(at_line(last, WorkCause::BadHeader)),
    }
}

fn just(line: Line<'_>, bytes: &[u8]) -> Result<u32, WorkNo>
    ensures reads { Is (λ n. n) result (reads.exactly bytes.now (line_of line.entry)) }
    ensures number { IfOk result (λ n. n ≡ line.entry.number) }
{
    if line.bytes == bytes {
        Ok(line.number)
    } else {
        Err(at_line(line.number, WorkCause::BadHeader))
    }
}
