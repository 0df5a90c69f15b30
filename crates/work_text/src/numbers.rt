//! The words of a line, and numbers that words spell.

ghost use Rattle.std.specs.Prelude.{◌≡◌, ℕ, ℤ, ◌<◌, List, map, Some, IfOk, IfSome, MatchOption};
ghost use Rattle.std.specs.Fmt.{decimal};
ghost use Rattle.work_text.specs.Lines.{words};
ghost use Rattle.work_text.specs.Parts.{AreNumbers};

use decimal_words::{natural, signed};
use std::alloc::{AllocError, Global};

/// The words that there is room for at once; a longer line's room grows.
const WORDS: usize = 12;

/// The words of a line.
pub(crate) fn words_of(alloc: Global, line: &[u8]) -> Result<Vec<&[u8]>, AllocError>
    ensures { IfOk result (λ v. map (λ word. word.now) v.items ≡ words line.now) }
{
    let mut words = Vec::with_capacity(alloc, WORDS)?;
    let mut from = 0;
    for at in 0..line.len() {
        if line[at] == b' ' {
            words.push(&line[from..at])?;
            from = at + 1;
        }
    }
    words.push(&line[from..])?;
    Ok(words)
}

/// The numbers that words spell, and `None` where one of them spells none.
pub(crate) fn numbers(alloc: Global, words: &[&[u8]]) -> Result<Option<Vec<i64>>, AllocError>
    ensures { IfOk result (λ read. MatchOption read ((values : List ℤ) → ¬ AreNumbers (map (λ word. word.now) words.now) values) (λ v. AreNumbers (map (λ word. word.now) words.now) v.items)) }
{
    let mut values = Vec::with_capacity(alloc, words.len())?;
    for word in words {
        let Some(value) = signed(word) else {
            return Ok(None);
        };
        values.push(value)?;
    }
    Ok(Some(values))
}

/// The actor that a word names, if it is one of the first ones.
pub(crate) fn actor_of(word: &[u8], actors: u16) -> Option<u16>
    ensures found { IfSome result (λ n. (word.now ≡ decimal n) × (n < actors)) }
    ensures only { (n : ℕ) → word.now ≡ decimal n → n < actors → result ≡ Some n }
{
    let number = natural(word)?;
    if number >= actors as u64 {
        return None;
    }
    Some(number as u16)
}
