//! The line and the column of a place in a text.

ghost use Rattle.std.specs.Prelude.{◌≡◌, ◌==◌, ◌≤◌, length};
ghost use Rattle.std.specs.List.{count_by};
ghost use Rattle.aml_tokens.specs.Lexing.{capped, line_at, column_at, behind_line_feed};

/// The line and the column of a place in a text, both from 1 on; of a place behind the text those of
/// its end. A column counts bytes. What is above 2^32 - 1 is told as that.
pub fn position(text: &[u8], at: usize) -> (u32, u32)
    ensures line { result.0 ≡ line_at text.now at }
    ensures column { result.1 ≡ column_at text.now at }
{
    let front = &text[..at.min(text.len())];
    (
        told(1 + line_feeds(front)),
        told(1 + bytes_behind_line_feed(front)),
    )
}

/// A number as a fault tells it.
pub fn told(n: usize) -> u32
    ensures { result ≡ capped n }
{
    n.min(u32::MAX as usize) as u32
}

/// How many line feeds stand in the bytes.
pub fn line_feeds(bytes: &[u8]) -> usize
    ensures count { result ≡ count_by (λ b. b == 10) bytes.now }
    ensures within { result ≤ length bytes.now }
{
    let mut count = 0;
    for byte in bytes {
        if *byte == b'\n' {
            count += 1;
        }
    }
    count
}

/// How many bytes stand behind the last line feed.
fn bytes_behind_line_feed(bytes: &[u8]) -> usize
    ensures count { result ≡ behind_line_feed 0 bytes.now }
    ensures within { result ≤ length bytes.now }
{
    let mut count = 0;
    for byte in bytes {
        count = match *byte {
            b'\n' => 0,
            _ => count + 1,
        };
    }
    count
}
