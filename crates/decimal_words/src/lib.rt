//! Whole numbers as texts spell them: decimal, without leading zeros, and with a sign only where a
//! number is below 0. Each number has one spelling, the one that `{}` prints.
#![tactic(auto)]

ghost use Rattle.std.specs.Prelude.{◌≡◌, ℕ, ◌<◌, ◌^◌, ℤ, Some, IfSome, FitsSigned, IsTrue, ◌↔◌};
ghost use Rattle.std.specs.Fmt.{decimal, signed_decimal};
ghost use Rattle.std.specs.Int.{w64};
ghost use Rattle.decimal_words.specs.Plain.{IsPlain, IsSignedPlain};

/// The number from 0 to 2^64 - 1 that a word spells, and `None` where it spells none.
pub fn natural(word: &[u8]) -> Option<u64>
    ensures found { IfSome result (λ n. word.now ≡ decimal n) }
    ensures only { (n : ℕ) → n < 2 ^ 64 → word.now ≡ decimal n → result ≡ Some n }
{
    if !is_plain(word) {
        return None;
    }
    let Ok(text) = str::from_utf8(word) else {
        return None;
    };
    text.parse().ok()
}

/// The number of 64 bits with a sign that a word spells, and `None` where it spells none.
pub fn signed(word: &[u8]) -> Option<i64>
    ensures found { IfSome result (λ z. word.now ≡ signed_decimal z) }
    ensures only { (z : ℤ) → FitsSigned w64 z → word.now ≡ signed_decimal z → result ≡ Some z }
{
    if !is_signed_plain(word) {
        return None;
    }
    let Ok(text) = str::from_utf8(word) else {
        return None;
    };
    text.parse().ok()
}

// No sign stands first, and no zero before other bytes.
fn is_plain(word: &[u8]) -> bool
    ensures { IsTrue result ↔ IsPlain word.now }
{
    !word.is_empty() && word[0] != b'+' && (word.len() == 1 || word[0] != b'0')
}

// No '+' stands first, no zero before other bytes, and a '-' only before what is not zero.
fn is_signed_plain(word: &[u8]) -> bool
    ensures { IsTrue result ↔ IsSignedPlain word.now }
{
    if !word.is_empty() && word[0] == b'-' {
        word.len() > 1 && word[1] != b'0'
    } else {
        is_plain(word)
    }
}
