//! The parts of an input: what stands before, between and behind its dividers.
ghost use Rattle.std.specs.Prelude.{◌≡◌, ◌+◌, ◌<◌, ◌≤◌, ◌⊎◌, [], ◌∷◌, ◌++◌, length, take, drop, MatchOption, Contains};
ghost use Rattle.snap_base.specs.Lines.{lines};
ghost use Rattle.audit_words.specs.Papers.{AreParts, IsCutAt, LacksDivider, ended};
ghost use Rattle.audit_papers.specs.Bytes.{IsOneLine};

/// The parts of an input: the text of a work, the trace of its run, and what the run printed.
pub struct Parts<'a> {
    pub text: &'a [u8],
    pub trace: &'a [u8],
    pub report: &'a [u8],
}

/// The first line of some bytes, without its line feed, and where the next one begins.
pub(crate) fn first_line<'a>(bytes: &'a [u8]) -> (&'a [u8], usize)
    requires { 0 < length bytes.now }
    ensures onward { (0 < result.1) × (result.1 ≤ length bytes.now) }
    ensures line { IsOneLine result.0.now }
    ensures cut { (bytes.now ≡ ended result.0.now ++ drop result.1 bytes.now) ⊎ ((bytes.now ≡ result.0.now) × (result.1 ≡ length bytes.now)) }
{
    for at in 0..bytes.len() {
        if bytes[at] == b'\n' {
            return (&bytes[..at], at + 1);
        }
    }
    (bytes, bytes.len())
}

/// What stands before the last line that is the divider, and what stands behind it; `None` exactly where no line is the
/// divider. Linear in the bytes.
fn cut_at<'a>(bytes: &'a [u8], divider: &[u8]) -> Option<(&'a [u8], &'a [u8])>
    requires line { IsOneLine divider.now }
    requires some { 0 < length divider.now }
    ensures { MatchOption result (¬ Contains (lines bytes.now) divider.now) (λ x. IsCutAt divider.now bytes.now x.0.now x.1.now) }
{
    let mut found: Option<(usize, usize)> = None;
    let mut at = 0;
    while at < bytes.len() {
        let (line, next) = first_line(&bytes[at..]);
        if line == divider {
            found = Some((at, at + next));
        }
        at += next;
    }
    match found {
        None => None,
        Some((front, behind)) => Some((&bytes[..front], &bytes[behind..])),
    }
}

/// The parts of an input: the last line `== report` divides it, and the last line `== trace` before that one. `None` exactly
/// where one of them is lacking. Linear in the input.
pub fn parts_of<'a>(input: &'a [u8]) -> Option<Parts<'a>>
    ensures { MatchOption result (LacksDivider input.now) (λ p. AreParts input.now p.text.now p.trace.now p.report.now) }
{
    let (front, report) = cut_at(input, b"== report")?;
    let (text, trace) = cut_at(front, b"== trace")?;
    Some(Parts {
        text,
        trace,
        report,
    })
}
