//! The lines of a text, and the event of a line.

ghost use Rattle.std.specs.Prelude.{◌≡◌, ℕ, ◌<◌, ◌^◌, [], ◌∷◌, ◌++◌, length, Option, Some, IfSome, MatchOption};
ghost use Rattle.std.specs.Fmt.{decimal};
ghost use Rattle.core_events.specs.declared.events.Event as event;
ghost use Rattle.snap_base.specs.Lines.{lines};
ghost use Rattle.trace_text.specs.Lines.{event_line, numbers_text, IsEvent};
ghost use Rattle.trace_text.specs.Reads.{LacksByte};

use crate::names::name_of;
use crate::parts::event_with;
use core_events::Event;
use decimal_words::natural;

// What stands before the first such byte, and what stands behind it.
fn cut<'a>(text: &'a [u8], byte: u8) -> Option<(&'a [u8], &'a [u8])>
    ensures { MatchOption result (LacksByte byte text.now) (λ x. (text.now ≡ x.0.now ++ byte ∷ x.1.now) × LacksByte byte x.0.now) }
{
    for at in 0..text.len() {
        if text[at] == byte {
            return Some((&text[..at], &text[at + 1..]));
        }
    }
    None
}

/// The first line of a text, and what lies behind it.
pub(crate) fn next_line<'a>(rest: &'a [u8]) -> (&'a [u8], &'a [u8])
    requires { 0 < length rest.now }
    ensures cut { lines rest.now ≡ result.0.now ∷ lines result.1.now }
    ensures onward { length result.1.now < length rest.now }
{
    match cut(rest, b'\n') {
        Some(parts) => parts,
        None => (rest, &rest[rest.len()..]),
    }
}

// The second number that a word spells.
fn actor_of(word: &[u8]) -> Option<u16>
    ensures found { IfSome result (λ a. word.now ≡ decimal a) }
    ensures only { (a : ℕ) → a < 2 ^ 16 → word.now ≡ decimal a → result ≡ Some a }
{
    let number = natural(word)?;
    if number > u16::MAX as u64 {
        return None;
    }
    Some(number as u16)
}

// The numbers that stand behind a name.
fn numbers_of(text: &[u8]) -> Option<(u64, Option<u16>)>
    ensures found { IfSome result (λ x. text.now ≡ numbers_text x.0 x.1) }
    ensures only { (n : ℕ) (second : Option ℕ) → n < 2 ^ 64 → IfSome second (λ a. a < 2 ^ 16) → text.now ≡ numbers_text n second → result ≡ Some (n, second) }
{
    match cut(text, b' ') {
        Some((first, second)) => {
            let n = natural(first)?;
            let a = actor_of(second)?;
            Some((n, Some(a)))
        }
        None => {
            let n = natural(text)?;
            Some((n, None))
        }
    }
}

/// The event that a line is of.
pub(crate) fn event_of(line: &[u8]) -> Option<Event>
    ensures found { IfSome result (λ e. (line.now ≡ event_line e) × IsEvent e) }
    ensures only { (e : event.Event) → IsEvent e → line.now ≡ event_line e → result ≡ Some e }
{
    let (word, numbers) = cut(line, b' ')?;
    let name = name_of(word)?;
    let (n, second) = numbers_of(numbers)?;
    event_with(name, n, second)
}
