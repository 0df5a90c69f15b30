//! Reading a number of one, two or eight bytes between two bounds.
ghost use Rattle.std.specs.Prelude.{◌≡◌, ℕ, suc, ◌+◌, ◌*◌, ◌<◌, ◌≤◌, ◌^◌, ◌++◌, length, take, MatchResult};
ghost use Rattle.std.specs.Int.{to_be_bytes, from_be_bytes, w16, w64};
ghost use Rattle.txn_records.specs.Stops.{IsWhyUnread, Any, Seq};
ghost use Rattle.txn_records.specs.Texts.{one_byte};
ghost use Rattle.txn_records.specs.Numbers.{Numbers, Between, BeginsNumber};

use snap_base::Memory;

/// Why reading ended early.
#[derive(Clone, Copy, Debug)]
pub(crate) enum Stop {
    /// The bytes that are left from the first one on at which nothing goes on.
    Left(usize),
    /// There was no memory.
    Memory,
}

impl From<Memory> for Stop {
    ghost use Rattle.std.specs.Prelude.{◌≡◌};
    ghost use Rattle.txn_records.specs.declared.numbers.Stop.TheVariants as stops;

    ghost from_gives = { λ _ e. e ≡ stops.Memory };

    fn from(_error: Memory) -> Stop {
        Stop::Memory
    }
}

/// Goes over a number between two bounds of which `more` bytes follow the first, which is worth `unit`, and
/// gives what is behind it. A byte is read only where a number between the bounds has it behind those
/// before it.
fn walk(bytes: &[u8], more: u32, unit: u64, low: u64, high: u64) -> Result<&[u8], Stop>
    requires unit { unit ≡ 256 ^ more }
    requires some { low ≤ high }
    requires fits { high < unit * 256 }
    ensures { MatchResult result (λ rest. BeginsNumber (suc more) low high bytes.now rest.now) (IsWhyUnread (Numbers (suc more) low high) bytes.now) }
{
    let Some((first, rest)) = bytes.split_first() else {
        return Err(Stop::Left(0));
    };
    let digit = *first as u64;
    if digit < low / unit || high / unit < digit {
        return Err(Stop::Left(bytes.len()));
    }
    if more == 0 {
        return Ok(rest);
    }
    let base = digit * unit;
    let most = (high - base).min(unit - 1);
    walk(rest, more - 1, unit / 256, low.saturating_sub(base), most)
}

/// The number of eight bytes between the bounds that stands first, and what is behind it.
pub(crate) fn u64_between(bytes: &[u8], low: u64, high: u64) -> Result<(u64, &[u8]), Stop>
    requires { low ≤ high }
    ensures { MatchResult result (λ x. Between low high x.0 × (bytes.now ≡ to_be_bytes w64 x.0 ++ x.1.now)) (IsWhyUnread (Seq (Between low high) (to_be_bytes w64) (λ n. Any)) bytes.now) }
{
    if bytes.len() >= 8 {
        let (number, rest) = front_u64(bytes);
        if low <= number && number <= high {
            return Ok((number, rest));
        }
    }
    match walk(bytes, 7, 1 << 56, low, high) {
        Ok(rest) => Ok((first_u64(bytes), rest)),
        Err(stop) => Err(stop),
    }
}

/// The number of two bytes between the bounds that stands first, and what is behind it.
pub(crate) fn u16_between(bytes: &[u8], low: u16, high: u16) -> Result<(u16, &[u8]), Stop>
    requires { low ≤ high }
    ensures { MatchResult result (λ x. Between low high x.0 × (bytes.now ≡ to_be_bytes w16 x.0 ++ x.1.now)) (IsWhyUnread (Seq (Between low high) (to_be_bytes w16) (λ n. Any)) bytes.now) }
{
    if bytes.len() >= 2 {
        let (number, rest) = front_u16(bytes);
        if low <= number && number <= high {
            return Ok((number, rest));
        }
    }
    match walk(bytes, 1, 256, low as u64, high as u64) {
        Ok(rest) => Ok((first_u16(bytes), rest)),
        Err(stop) => Err(stop),
    }
}

/// The byte between the bounds that stands first, and what is behind it.
pub(crate) fn u8_between(bytes: &[u8], low: u8, high: u8) -> Result<(u8, &[u8]), Stop>
    requires { low ≤ high }
    ensures { MatchResult result (λ x. Between low high x.0 × (bytes.now ≡ one_byte x.0 ++ x.1.now)) (IsWhyUnread (Seq (Between low high) one_byte (λ n. Any)) bytes.now) }
{
    match walk(bytes, 0, 1, low as u64, high as u64) {
        Ok(rest) => Ok((bytes[0], rest)),
        Err(stop) => Err(stop),
    }
}

/// The number of eight bytes at the front, whatever it is, and the bytes behind it.
fn front_u64(bytes: &[u8]) -> (u64, &[u8])
    requires { 8 ≤ length bytes.now }
    ensures { bytes.now ≡ to_be_bytes w64 result.0 ++ result.1.now }
{
    let (_, rest) = bytes.split_at(8);
    (first_u64(bytes), rest)
}

/// The number of two bytes at the front, whatever it is, and the bytes behind it.
fn front_u16(bytes: &[u8]) -> (u16, &[u8])
    requires { 2 ≤ length bytes.now }
    ensures { bytes.now ≡ to_be_bytes w16 result.0 ++ result.1.now }
{
    let (_, rest) = bytes.split_at(2);
    (first_u16(bytes), rest)
}

fn first_u64(bytes: &[u8]) -> u64
    requires { 8 ≤ length bytes.now }
    ensures { result ≡ from_be_bytes w64 (take 8 bytes.now) }
{
    let (front, _) = bytes.split_at(8);
    u64::from_be_bytes([
        front[0], front[1], front[2], front[3], front[4], front[5], front[6], front[7],
    ])
}

fn first_u16(bytes: &[u8]) -> u16
    requires { 2 ≤ length bytes.now }
    ensures { result ≡ from_be_bytes w16 (take 2 bytes.now) }
{
    let (front, _) = bytes.split_at(2);
    u16::from_be_bytes([front[0], front[1]])
}
