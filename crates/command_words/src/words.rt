//! The words, and those behind the commands but `run`.
ghost use Rattle.std.specs.Prelude.{◌≡◌, ◌<◌, ◌≤◌, ◌^◌, ◌∷◌, List, ℕ, map, codes, IfErr, IfOk, MatchResult, string_bytes};
ghost use Rattle.std.specs.Fmt.{decimal};
ghost use Rattle.command_words.specs.Commands.{IsCommand};
ghost use Rattle.command_words.specs.Counts.{IsCountAndSeed, TakesCountAndSeed};
ghost use Rattle.command_words.specs.Words.{IsUsageFault};
ghost use Rattle.snap_work.specs.declared.limits.TheConstants.{MOST_TRANSACTIONS};

use crate::commands::Command;
use crate::numbers::{count_of, rounds_of, workers_of};
use crate::runs::read_run;
use decimal_words::natural;

/// What the words of the command line ask for. The error is the place of the wrong word, counted from 0: of the last word of the
/// shortest front that begins no form, or, where all of them begin one, the number of the words.
pub fn read_words(words: &[String]) -> Result<Command, u32>
    ensures { MatchResult result (IsCommand (map string_bytes words.now)) (IsUsageFault (map string_bytes words.now)) }
{
    let Some((first, rest)) = words.split_first() else {
        return Err(0);
    };
    let word = first.as_str();
    if word == "run" {
        return read_run(rest);
    }
    if word == "recover" {
        return read_recover(rest);
    }
    if word == "migrate" {
        return read_migrate(rest);
    }
    if word == "compact" {
        return read_compact(rest);
    }
    if word == "follow" {
        return read_follow(rest);
    }
    if word == "audit" {
        return read_audit(rest);
    }
    if word == "gen" {
        return read_gen(rest);
    }
    if word == "bench" {
        return read_bench(rest);
    }
    Err(0)
}

/// The words behind `recover`: there may be none.
fn read_recover(words: &[String]) -> Result<Command, u32>
    ensures { MatchResult result (IsCommand (codes "recover" ∷ map string_bytes words.now)) (IsUsageFault (codes "recover" ∷ map string_bytes words.now)) }
{
    if !words.is_empty() {
        return Err(1);
    }
    Ok(Command::Recover)
}

/// The words behind `migrate`: there may be none.
fn read_migrate(words: &[String]) -> Result<Command, u32>
    ensures { MatchResult result (IsCommand (codes "migrate" ∷ map string_bytes words.now)) (IsUsageFault (codes "migrate" ∷ map string_bytes words.now)) }
{
    if !words.is_empty() {
        return Err(1);
    }
    Ok(Command::Migrate)
}

/// The words behind `compact`: there may be none.
fn read_compact(words: &[String]) -> Result<Command, u32>
    ensures { MatchResult result (IsCommand (codes "compact" ∷ map string_bytes words.now)) (IsUsageFault (codes "compact" ∷ map string_bytes words.now)) }
{
    if !words.is_empty() {
        return Err(1);
    }
    Ok(Command::Compact)
}

/// The words behind `follow`: a number of rounds.
fn read_follow(words: &[String]) -> Result<Command, u32>
    ensures { MatchResult result (IsCommand (codes "follow" ∷ map string_bytes words.now)) (IsUsageFault (codes "follow" ∷ map string_bytes words.now)) }
{
    let Some((word, rest)) = words.split_first() else {
        return Err(1);
    };
    let Some(rounds) = rounds_of(word.as_bytes()) else {
        return Err(1);
    };
    if !rest.is_empty() {
        return Err(2);
    }
    Ok(Command::Follow { rounds })
}

/// The words behind `audit`: there may be none.
fn read_audit(words: &[String]) -> Result<Command, u32>
    ensures { MatchResult result (IsCommand (codes "audit" ∷ map string_bytes words.now)) (IsUsageFault (codes "audit" ∷ map string_bytes words.now)) }
{
    if !words.is_empty() {
        return Err(1);
    }
    Ok(Command::Audit)
}

/// The words behind `gen`: a number of transactions and a seed.
fn read_gen(words: &[String]) -> Result<Command, u32>
    ensures { MatchResult result (IsCommand (codes "gen" ∷ map string_bytes words.now)) (IsUsageFault (codes "gen" ∷ map string_bytes words.now)) }
{
    let (count, seed, rest) = read_count_and_seed(words)?;
    if !rest.is_empty() {
        return Err(3);
    }
    Ok(Command::Gen { count, seed })
}

/// The words behind `bench`: a number of transactions and a seed, and perhaps workers.
fn read_bench(words: &[String]) -> Result<Command, u32>
    ensures { MatchResult result (IsCommand (codes "bench" ∷ map string_bytes words.now)) (IsUsageFault (codes "bench" ∷ map string_bytes words.now)) }
{
    let (count, seed, rest) = read_count_and_seed(words)?;
    read_bench_workers(rest, count, seed)
}

/// The words behind `bench` and its numbers: nothing, or the workers.
fn read_bench_workers(words: &[String], count: u32, seed: u64) -> Result<Command, u32>
    requires { count ≤ MOST_TRANSACTIONS }
    ensures { MatchResult result
        (IsCommand (codes "bench" ∷ decimal count ∷ decimal seed ∷ map string_bytes words.now))
        (IsUsageFault (codes "bench" ∷ decimal count ∷ decimal seed ∷ map string_bytes words.now)) }
{
    let Some((option, rest)) = words.split_first() else {
        return Ok(Command::Bench {
            count,
            seed,
            workers: 0,
        });
    };
    if option.as_str() != "--workers" {
        return Err(3);
    }
    read_last_workers(rest, count, seed)
}

/// The words behind `bench`, its two numbers and `--workers`.
fn read_last_workers(words: &[String], count: u32, seed: u64) -> Result<Command, u32>
    requires { count ≤ MOST_TRANSACTIONS }
    ensures { MatchResult result
        (IsCommand (codes "bench" ∷ decimal count ∷ decimal seed ∷ codes "--workers" ∷ map string_bytes words.now))
        (IsUsageFault (codes "bench" ∷ decimal count ∷ decimal seed ∷ codes "--workers" ∷ map string_bytes words.now)) }
{
    let Some((word, rest)) = words.split_first() else {
        return Err(4);
    };
    let Some(workers) = workers_of(word.as_bytes()) else {
        return Err(4);
    };
    if !rest.is_empty() {
        return Err(5);
    }
    Ok(Command::Bench {
        count,
        seed,
        workers,
    })
}

/// A number of transactions and a seed, behind the name of a command that takes them, and the words behind these.
fn read_count_and_seed(words: &[String]) -> Result<(u32, u64, &[String]), u32>
    ensures found { IfOk result (λ x. IsCountAndSeed (map string_bytes words.now) x.0 x.1 (map string_bytes x.2.now)) }
    ensures fault { IfErr result (λ place. (name : List ℕ) → TakesCountAndSeed name → IsUsageFault (name ∷ map string_bytes words.now) place) }
{
    let Some((word, rest)) = words.split_first() else {
        return Err(1);
    };
    let Some(count) = count_of(word.as_bytes()) else {
        return Err(1);
    };
    let Some((word, rest)) = rest.split_first() else {
        return Err(2);
    };
    let Some(seed) = natural(word.as_bytes()) else {
        return Err(2);
    };
    Ok((count, seed, rest))
}
