//! Reading a log's bytes: its items with their places, its closed gate and its format.
ghost use Rattle.std.specs.Prelude.{◌≡◌, ℕ, ◌+◌, ◌<◌, ◌≤◌, ◌^◌, length, take, slice_index, IfOk, MatchOption, MatchResult, ◌++◌, ◌∷◌, [], ◌-◌};
ghost use Rattle.gate_log.specs.Bytes.{magic, format_of, DiffersAt, IsPlacedLogAt};
ghost use Rattle.gate_log.specs.Reading.{BeginsItem, BeginsNoItem, AreItems, BeginsPiece, BeginsNoPiece, BeginsGroup, IsNoGroup, IsNoLog};

use crate::limits::FARTHEST_END;
use crate::{LogItem, OpenNo};
use snap_base::{Memory, Sequence};
use std::alloc::Global;

const MAGIC: [u8; 7] = *b"SNAPLOG";

/// The mark of a log of format 1.
const FIRST_MARK: u8 = b'1';

/// The first place at which the bytes differ from those with which each log begins.
fn differs_at(bytes: &[u8]) -> Option<usize>
    requires { 7 ≤ length bytes.now }
    ensures { MatchOption result (take 7 bytes.now ≡ magic) (DiffersAt bytes.now) }
{
    for (i, byte) in MAGIC.iter().enumerate() {
        if bytes[i] != *byte {
            return Some(i);
        }
    }
    None
}

/// The item at the front, and what is behind it.
fn split_item(bytes: &[u8]) -> Option<(&[u8], &[u8])>
    ensures { MatchOption result (BeginsNoItem bytes.now) (λ x. BeginsItem bytes.now x.0.now x.1.now) }
{
    if bytes.len() < 2 {
        return None;
    }
    let (front, behind) = bytes.split_at(2);
    let len = u16::from_be_bytes([front[0], front[1]]) as usize;
    if len == 0 || behind.len() < len {
        return None;
    }
    let (item, rest) = behind.split_at(len);
    Some((item, rest))
}

/// Adds the items that fill the bytes to those found, and tells whether items do. The first item's length
/// stands at `at`.
fn push_items(
    alloc: Global,
    at: u64,
    bytes: &[u8],
    found: &mut Sequence<LogItem>,
) -> Result<bool, Memory>
    requires { at + length bytes.now < 2 ^ 64 - 2 }
    ensures { IfOk result (λ whole. AreItems whole at bytes.now found.old found.new) }
{
    let mut place = at;
    let mut rest = bytes;
    while !rest.is_empty() {
        let Some((item, behind)) = split_item(rest) else {
            return Ok(false);
        };
        push_item(alloc, place + 2, item, found)?;
        place += 2 + item.len() as u64;
        rest = behind;
    }
    Ok(true)
}

/// Adds an item to those found.
fn push_item(
    alloc: Global,
    at: u64,
    item: &[u8],
    found: &mut Sequence<LogItem>,
) -> Result<(), Memory>
    ensures { IfOk result (λ _. found.new ≡ found.old ++ record { at = at; bytes = item.now } ∷ []) }
{
    let bytes = Sequence::from_vec(Vec::from_slice(alloc, item)?);
    found.push(LogItem { at, bytes })
}

/// The piece behind its length in four bytes, and what is behind it, of which there is some.
fn split_piece(bytes: &[u8]) -> Option<(&[u8], &[u8])>
    ensures { MatchOption result (BeginsNoPiece bytes.now) (λ x. BeginsPiece bytes.now x.0.now x.1.now) }
{
    if bytes.len() < 4 {
        return None;
    }
    let (front, behind) = bytes.split_at(4);
    let len = u32::from_be_bytes([front[0], front[1], front[2], front[3]]) as usize;
    if behind.len() <= len {
        return None;
    }
    let (piece, rest) = behind.split_at(len);
    Some((piece, rest))
}

/// Adds the items of the group behind the open gate at `at` to those found, and gives what is behind the
/// group.
fn read_group<'a>(
    alloc: Global,
    at: u64,
    bytes: &'a [u8],
    found: &mut Sequence<LogItem>,
) -> Result<&'a [u8], OpenNo>
    requires { at + length bytes.now < 2 ^ 64 - 8 }
    ensures { MatchResult result (λ rest. BeginsGroup at bytes.now rest.now found.old found.new) (IsNoGroup at bytes.now) }
{
    let damage = OpenNo::Damage { offset: at };
    let Some((piece, rest)) = split_piece(bytes) else {
        return Err(damage);
    };
    if !push_items(alloc, at + 5, piece, found)? {
        return Err(damage);
    }
    Ok(rest)
}

/// The end of the log behind the header, and its items.
fn read_groups(alloc: Global, bytes: &[u8]) -> Result<(u64, Sequence<LogItem>), OpenNo>
    requires long { 8 < length bytes.now }
    requires begins { take 7 bytes.now ≡ magic }
    ensures read { MatchResult result (λ read. IsPlacedLogAt bytes.now read.0 read.1) (IsNoLog bytes.now) }
    ensures within { IfOk result (λ read. (read.0 < length bytes.now) × (read.0 < FARTHEST_END)) }
{
    let mut found = Sequence::new(alloc);
    let mut at = 8u64;
    let mut rest = &bytes[8..];
    while rest[0] == 1 {
        let behind = read_group(alloc, at, &rest[1..], &mut found)?;
        at += (rest.len() - behind.len()) as u64;
        rest = behind;
    }
    Ok((at, found))
}

/// The end of the log that the bytes are, and its items with the places of their bytes.
pub(crate) fn read_log(alloc: Global, bytes: &[u8]) -> Result<(u64, Sequence<LogItem>), OpenNo>
    requires { 8 < length bytes.now }
    ensures read { MatchResult result (λ read. IsPlacedLogAt bytes.now read.0 read.1) (IsNoLog bytes.now) }
    ensures within { IfOk result (λ read. (read.0 < length bytes.now) × (read.0 < FARTHEST_END)) }
{
    if let Some(offset) = differs_at(bytes) {
        return Err(OpenNo::NotALog {
            offset: offset as u64,
        });
    }
    read_groups(alloc, bytes)
}

/// The format of a log whose bytes these are.
pub(crate) fn format_at(bytes: &[u8]) -> u8
    requires { 8 < length bytes.now }
    ensures { result ≡ format_of (slice_index bytes.now 7) }
{
    if bytes[7] == FIRST_MARK { 1 } else { 2 }
}
