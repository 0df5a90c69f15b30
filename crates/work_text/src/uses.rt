//! The actors that a PACT declares.

ghost use Rattle.std.specs.Prelude.{◌≡◌, ◌≢◌, ℕ, ◌<◌, ◌≤◌, List, ◌++◌, ◌∷◌, [], map, Some, IfOk, IfSome, IsTrue, ◌↔◌, MatchOption};
ghost use Rattle.std.specs.List.{AllByRecursion};
ghost use Rattle.std.specs.Fmt.{decimal};
ghost use Rattle.snap_base.specs.declared.ids.ActorId.{ActorId};
ghost use Rattle.aml_check.specs.Transactions.{AreAscending, IsUse};
ghost use Rattle.work_text.specs.Transactions.{use_word, uses_words, AreUses, DeclaresRoot};
ghost use Rattle.work_text.specs.Parts.{AreDeclared, IsWithoutColon};

use crate::numbers::actor_of;
use aml_check::MOST_CALLS;
use decimal_words::natural;
use snap_base::{ActorId, Kind};
use std::alloc::{AllocError, Global};

// What stands before the first ':' of a word, and what stands behind it.
fn cut_word(word: &[u8]) -> Option<(&[u8], &[u8])>
    ensures found { IfSome result (λ x. word.now ≡ x.0.now ++ 58 ∷ x.1.now) }
    ensures only { (a b : List ℕ) → IsWithoutColon a → word.now ≡ a ++ 58 ∷ b → MatchOption result (0 < 0) (λ x. (x.0.now ≡ a) × (x.1.now ≡ b)) }
{
    let mut at = 0;
    while at < word.len() {
        if word[at] == b':' {
            return Some((&word[..at], &word[at + 1..]));
        }
        at += 1;
    }
    None
}

// The actor and the number of calls that a word declares.
fn use_of(actors: u16, word: &[u8]) -> Option<(ActorId, u8)>
    ensures found { IfSome result (λ u. (word.now ≡ use_word u) × IsUse actors u) }
    ensures only { (u : ActorId × ℕ) → word.now ≡ use_word u → IsUse actors u → result ≡ Some u }
{
    let (actor, calls) = cut_word(word)?;
    declared(actors, actor, calls)
}

// The actor and the number of calls that two words declare: what stands before the ':', and what stands behind it.
fn declared(actors: u16, actor: &[u8], calls: &[u8]) -> Option<(ActorId, u8)>
    ensures found { IfSome result (λ u. (actor.now ≡ decimal u.0.0) × (calls.now ≡ decimal u.1) × IsUse actors u) }
    ensures only { (u : ActorId × ℕ) → actor.now ≡ decimal u.0.0 → calls.now ≡ decimal u.1 → IsUse actors u → result ≡ Some u }
{
    let actor = actor_of(actor, actors)?;
    let calls = calls_of(calls)?;
    Some((ActorId(actor), calls))
}

// The number of calls that a word spells.
fn calls_of(word: &[u8]) -> Option<u8>
    ensures found { IfSome result (λ n. (word.now ≡ decimal n) × (1 ≤ n) × (n ≤ MOST_CALLS)) }
    ensures only { (n : ℕ) → word.now ≡ decimal n → 1 ≤ n → n ≤ MOST_CALLS → result ≡ Some n }
{
    let calls = natural(word)?;
    if calls < 1 || calls > u64::from(MOST_CALLS) {
        return None;
    }
    Some(calls as u8)
}

// The actors that words name, each with its number of calls, in whatever order they stand.
fn uses_of(
    alloc: Global,
    actors: u16,
    words: &[&[u8]],
) -> Result<Option<Vec<(ActorId, u8)>>, AllocError>
    ensures { IfOk result (λ read. MatchOption read ((uses : List (ActorId × ℕ)) → AllByRecursion (IsUse actors) uses → map (λ word. word.now) words.now ≢ map use_word uses) (λ v. (map (λ word. word.now) words.now ≡ map use_word v.items) × AllByRecursion (IsUse actors) v.items)) }
{
    let mut uses = Vec::with_capacity(alloc, words.len())?;
    for word in words {
        let Some(declared) = use_of(actors, word) else {
            return Ok(None);
        };
        uses.push(declared)?;
    }
    Ok(Some(uses))
}

// Whether each actor is above the one before it.
fn are_ascending(uses: &[(ActorId, u8)]) -> bool
    ensures { IsTrue result ↔ AreAscending uses.now }
{
    for at in 1..uses.len() {
        if uses[at].0.0 <= uses[at - 1].0.0 {
            return false;
        }
    }
    true
}

// The actors that words declare, and `None` where they declare none.
fn declared_uses(
    alloc: Global,
    actors: u16,
    words: &[&[u8]],
) -> Result<Option<Vec<(ActorId, u8)>>, AllocError>
    ensures { IfOk result (λ read. MatchOption read ((uses : List (ActorId × ℕ)) → ¬ AreDeclared actors (map (λ word. word.now) words.now) uses) (λ v. AreDeclared actors (map (λ word. word.now) words.now) v.items)) }
{
    let Some(uses) = uses_of(alloc, actors, words)? else {
        return Ok(None);
    };
    if !are_ascending(&uses) {
        return Ok(None);
    }
    Ok(Some(uses))
}

/// What a transaction of a kind declares by the words behind its arguments: a PACT the actors behind
/// `uses`, one at least; an ACT nothing, by no words. `None` where the words are no such declaration.
pub(crate) fn declaration(
    alloc: Global,
    kind: Kind,
    actors: u16,
    words: &[&[u8]],
) -> Result<Option<Vec<(ActorId, u8)>>, AllocError>
    ensures { IfOk result (λ read. MatchOption read ((uses : List (ActorId × ℕ)) → AreUses kind actors uses → map (λ word. word.now) words.now ≢ uses_words kind uses) (λ v. (map (λ word. word.now) words.now ≡ uses_words kind v.items) × AreUses kind actors v.items)) }
{
    match kind {
        Kind::Act => {
            if !words.is_empty() {
                return Ok(None);
            }
            Ok(Some(Vec::new(alloc)))
        }
        Kind::Pact => {
            if words.len() < 2 || words[0] != b"uses".as_slice() {
                return Ok(None);
            }
            declared_uses(alloc, actors, &words[1..])
        }
    }
}

/// Whether a transaction of a kind is an ACT, or declares its own actor.
pub(crate) fn declares_root(kind: Kind, root: u16, uses: &[(ActorId, u8)]) -> bool
    ensures { IsTrue result ↔ DeclaresRoot kind root uses.now }
{
    match kind {
        Kind::Act => true,
        Kind::Pact => uses.iter().any(|declared| declared.0.0 == root),
    }
}
