//! The numbers that words spell.
ghost use Rattle.std.specs.Prelude.{◌≡◌, ℕ, ◌≤◌, Some, IfSome};
ghost use Rattle.std.specs.Fmt.{decimal};
ghost use Rattle.command_words.specs.declared.limits.TheConstants.{FEWEST_ROUNDS, MOST_ROUNDS};
ghost use Rattle.snap_work.specs.declared.limits.TheConstants.{MOST_TRANSACTIONS, MOST_WORKERS};

use crate::limits::{FEWEST_ROUNDS, MOST_ROUNDS};
use decimal_words::natural;
use snap_work::{MOST_TRANSACTIONS, MOST_WORKERS};

/// The number of transactions that a word spells, where a text may have so many.
pub(crate) fn count_of(word: &[u8]) -> Option<u32>
    ensures found { IfSome result (λ n. (word.now ≡ decimal n) × (n ≤ MOST_TRANSACTIONS)) }
    ensures only { (n : ℕ) → n ≤ MOST_TRANSACTIONS → word.now ≡ decimal n → result ≡ Some n }
{
    let number = natural(word)?;
    if number > MOST_TRANSACTIONS as u64 {
        return None;
    }
    Some(number as u32)
}

/// The number of workers that a word spells, where a run may have so many.
pub(crate) fn workers_of(word: &[u8]) -> Option<u8>
    ensures found { IfSome result (λ n. (word.now ≡ decimal n) × (n ≤ MOST_WORKERS)) }
    ensures only { (n : ℕ) → n ≤ MOST_WORKERS → word.now ≡ decimal n → result ≡ Some n }
{
    let number = natural(word)?;
    if number > MOST_WORKERS as u64 {
        return None;
    }
    Some(number as u8)
}

/// The number of rounds that a word spells, where a follower may make so many.
pub(crate) fn rounds_of(word: &[u8]) -> Option<u16>
    ensures found { IfSome result (λ n. (word.now ≡ decimal n) × (FEWEST_ROUNDS ≤ n) × (n ≤ MOST_ROUNDS)) }
    ensures only { (n : ℕ) → FEWEST_ROUNDS ≤ n → n ≤ MOST_ROUNDS → word.now ≡ decimal n → result ≡ Some n }
{
    let number = natural(word)?;
    if number < FEWEST_ROUNDS as u64 {
        return None;
    }
    if number > MOST_ROUNDS as u64 {
        return None;
    }
    Some(number as u16)
}
