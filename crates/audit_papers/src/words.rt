//! The words of a line, and what words spell.
ghost use Rattle.std.specs.Prelude.{◌≡◌, ◌≢◌, ℕ, ℤ, ◌≤◌, List, [], ◌∷◌, ◌++◌, map, IfOk, MatchOption, FitsSigned};
ghost use Rattle.std.specs.Fmt.{decimal, signed_decimal};
ghost use Rattle.std.specs.Int.{w64};
ghost use Rattle.std.specs.List.{AllByRecursion};
ghost use Rattle.snap_base.specs.Text.{place_text};
ghost use Rattle.snap_base.specs.declared.verdicts.Place.{Place};
ghost use Rattle.audit_words.specs.Papers.{IsPlaceInRange};
ghost use Rattle.audit_papers.specs.LineWords.{LacksByte, texts, words};

use decimal_words::{natural, signed};
use snap_base::{Bid, Place};
use std::alloc::{AllocError, Global};

/// The words of a line: what stands between its blanks.
pub(crate) fn words_of(alloc: Global, line: &[u8]) -> Result<Vec<&[u8]>, AllocError>
    ensures { IfOk result (λ v. texts v.items ≡ words line.now) }
{
    line.split(|b| *b == b' ').collect(alloc)
}

/// What stands behind a word; `None` exactly where another word stands first, or none.
pub(crate) fn behind_word<'a>(words: &'a [&'a [u8]], word: &[u8]) -> Option<&'a [&'a [u8]]>
    ensures { MatchOption result ((rest : List (List ℕ)) → texts words.now ≢ word.now ∷ rest) (λ rest. texts words.now ≡ word.now ∷ texts rest.now) }
{
    let (first, rest) = words.split_first()?;
    if *first == word {
        return Some(rest);
    }
    None
}

/// The number from 0 to `most` that the first word spells, and what stands behind it; `None` exactly where it spells none.
pub(crate) fn number<'a>(words: &'a [&'a [u8]], most: u64) -> Option<(u64, &'a [&'a [u8]])>
    ensures { MatchOption result ((n : ℕ) (rest : List (List ℕ)) → n ≤ most → texts words.now ≢ decimal n ∷ rest) (λ x. (x.0 ≤ most) × (texts words.now ≡ decimal x.0 ∷ texts x.1.now)) }
{
    let (first, rest) = words.split_first()?;
    let number = natural(first)?;
    if number > most {
        return None;
    }
    Some((number, rest))
}

/// The number from 0 to `most` that stands behind a word, and what stands behind it; `None` exactly where none does.
pub(crate) fn named<'a>(
    words: &'a [&'a [u8]],
    word: &[u8],
    most: u64,
) -> Option<(u64, &'a [&'a [u8]])>
    ensures { MatchOption result ((n : ℕ) (rest : List (List ℕ)) → n ≤ most → texts words.now ≢ word.now ∷ decimal n ∷ rest) (λ x. (x.0 ≤ most) × (texts words.now ≡ word.now ∷ decimal x.0 ∷ texts x.1.now)) }
{
    let rest = behind_word(words, word)?;
    number(rest, most)
}

/// The number from 0 to `most` that is all that the words spell; `None` exactly where they spell none.
pub(crate) fn last_number(words: &[&[u8]], most: u64) -> Option<u64>
    ensures { MatchOption result ((n : ℕ) → n ≤ most → texts words.now ≢ decimal n ∷ []) (λ n. (n ≤ most) × (texts words.now ≡ decimal n ∷ [])) }
{
    let (number, rest) = number(words, most)?;
    if rest.is_empty() {
        return Some(number);
    }
    None
}

/// The number from 0 to `most` that is all that stands behind a word; `None` exactly where none does.
pub(crate) fn last_named(words: &[&[u8]], word: &[u8], most: u64) -> Option<u64>
    ensures { MatchOption result ((n : ℕ) → n ≤ most → texts words.now ≢ word.now ∷ decimal n ∷ []) (λ n. (n ≤ most) × (texts words.now ≡ word.now ∷ decimal n ∷ [])) }
{
    let rest = behind_word(words, word)?;
    last_number(rest, most)
}

/// The number of 64 bits with a sign that is all that stands there; `None` exactly where none is.
pub(crate) fn last_signed(words: &[&[u8]]) -> Option<i64>
    ensures { MatchOption result ((z : ℤ) → FitsSigned w64 z → texts words.now ≢ signed_decimal z ∷ []) (λ z. (FitsSigned w64 z) × (texts words.now ≡ signed_decimal z ∷ [])) }
{
    let (first, rest) = words.split_first()?;
    if rest.is_empty() {
        return signed(first);
    }
    None
}

/// The numbers of 64 bits with a sign that the words spell; `None` exactly where a word spells none.
pub(crate) fn all_signed(alloc: Global, words: &[&[u8]]) -> Result<Option<Vec<i64>>, AllocError>
    ensures { IfOk result (λ read. MatchOption read ((zs : List ℤ) → AllByRecursion (FitsSigned w64) zs → texts words.now ≢ map signed_decimal zs) (λ v. AllByRecursion (FitsSigned w64) v.items × (texts words.now ≡ map signed_decimal v.items))) }
{
    let mut values = Vec::new(alloc);
    for word in words {
        let Some(value) = signed(word) else {
            return Ok(None);
        };
        values.push(value)?;
    }
    Ok(Some(values))
}

/// What stands before the first such byte, and what stands behind it; `None` exactly where the word has none.
fn cut(word: &[u8], byte: u8) -> Option<(&[u8], &[u8])>
    ensures { MatchOption result (LacksByte byte word.now) (λ x. (word.now ≡ x.0.now ++ byte ∷ x.1.now) × LacksByte byte x.0.now) }
{
    for at in 0..word.len() {
        if word[at] == byte {
            return Some((&word[..at], &word[at + 1..]));
        }
    }
    None
}

/// The number from 0 to `most` that stands before the first point of a word, and what stands behind the point; `None` exactly
/// where there is none.
fn number_before_point(word: &[u8], most: u64) -> Option<(u64, &[u8])>
    ensures { MatchOption result ((n : ℕ) (rest : List ℕ) → n ≤ most → word.now ≢ decimal n ++ 46 ∷ rest) (λ x. (x.0 ≤ most) × (word.now ≡ decimal x.0 ++ 46 ∷ x.1.now)) }
{
    let (front, rest) = cut(word, b'.')?;
    let number = natural(front)?;
    if number > most {
        return None;
    }
    Some((number, rest))
}

/// The place that a word spells: its batch, its side from 0 to 255 and its order, with points between them; `None` exactly
/// where it spells none.
fn place_of(word: &[u8]) -> Option<Place>
    ensures { MatchOption result ((p : Place) → IsPlaceInRange p → word.now ≢ place_text p) (λ p. IsPlaceInRange p × (word.now ≡ place_text p)) }
{
    let (batch, behind) = number_before_point(word, u64::MAX)?;
    let (side, last) = number_before_point(behind, u8::MAX as u64)?;
    let order = natural(last)?;
    Some(Place {
        batch: Bid(batch),
        side: side as u8,
        order,
    })
}

/// The place that the first word spells, and what stands behind it; `None` exactly where it spells none.
pub(crate) fn place<'a>(words: &'a [&'a [u8]]) -> Option<(Place, &'a [&'a [u8]])>
    ensures { MatchOption result ((p : Place) (rest : List (List ℕ)) → IsPlaceInRange p → texts words.now ≢ place_text p ∷ rest) (λ x. IsPlaceInRange x.0 × (texts words.now ≡ place_text x.0 ∷ texts x.1.now)) }
{
    let (first, rest) = words.split_first()?;
    let place = place_of(first)?;
    Some((place, rest))
}
