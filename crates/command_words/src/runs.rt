//! The words behind `run`: the workers and the seed, each at most once, in any order.
ghost use Rattle.std.specs.Prelude.{◌≡◌, ◌<◌, ◌^◌, ◌∷◌, map, codes, MatchResult, string_bytes};
ghost use Rattle.std.specs.Fmt.{decimal};
ghost use Rattle.command_words.specs.Commands.{IsCommand};
ghost use Rattle.command_words.specs.Words.{IsUsageFault};

use crate::commands::Command;
use crate::numbers::workers_of;
use decimal_words::natural;

/// The words behind `run`.
pub(crate) fn read_run(words: &[String]) -> Result<Command, u32>
    ensures { MatchResult result (IsCommand (codes "run" ∷ map string_bytes words.now)) (IsUsageFault (codes "run" ∷ map string_bytes words.now)) }
{
    let Some((option, rest)) = words.split_first() else {
        return Ok(Command::Run {
            workers: 0,
            seed: 0,
        });
    };
    let name = option.as_str();
    if name == "--workers" {
        return read_workers(rest);
    }
    if name == "--seed" {
        return read_seed(rest);
    }
    Err(1)
}

/// The words behind `run --workers`: where there are workers, nothing comes behind them.
fn read_workers(words: &[String]) -> Result<Command, u32>
    ensures { MatchResult result (IsCommand (codes "run" ∷ codes "--workers" ∷ map string_bytes words.now)) (IsUsageFault (codes "run" ∷ codes "--workers" ∷ map string_bytes words.now)) }
{
    let Some((word, rest)) = words.split_first() else {
        return Err(2);
    };
    let Some(workers) = workers_of(word.as_bytes()) else {
        return Err(2);
    };
    if workers == 0 {
        return read_seed_behind(rest);
    }
    if !rest.is_empty() {
        return Err(3);
    }
    Ok(Command::Run { workers, seed: 0 })
}

/// The words behind `run --workers 0`: nothing, or a seed.
fn read_seed_behind(words: &[String]) -> Result<Command, u32>
    ensures { MatchResult result
        (IsCommand (codes "run" ∷ codes "--workers" ∷ decimal 0 ∷ map string_bytes words.now))
        (IsUsageFault (codes "run" ∷ codes "--workers" ∷ decimal 0 ∷ map string_bytes words.now)) }
{
    let Some((option, rest)) = words.split_first() else {
        return Ok(Command::Run {
            workers: 0,
            seed: 0,
        });
    };
    if option.as_str() != "--seed" {
        return Err(3);
    }
    read_last_seed(rest)
}

/// The words behind `run --workers 0 --seed`.
fn read_last_seed(words: &[String]) -> Result<Command, u32>
    ensures { MatchResult result
        (IsCommand (codes "run" ∷ codes "--workers" ∷ decimal 0 ∷ codes "--seed" ∷ map string_bytes words.now))
        (IsUsageFault (codes "run" ∷ codes "--workers" ∷ decimal 0 ∷ codes "--seed" ∷ map string_bytes words.now)) }
{
    let Some((word, rest)) = words.split_first() else {
        return Err(4);
    };
    let Some(seed) = natural(word.as_bytes()) else {
        return Err(4);
    };
    if !rest.is_empty() {
        return Err(5);
    }
    Ok(Command::Run { workers: 0, seed })
}

/// The words behind `run --seed`.
fn read_seed(words: &[String]) -> Result<Command, u32>
    ensures { MatchResult result (IsCommand (codes "run" ∷ codes "--seed" ∷ map string_bytes words.now)) (IsUsageFault (codes "run" ∷ codes "--seed" ∷ map string_bytes words.now)) }
{
    let Some((word, rest)) = words.split_first() else {
        return Err(2);
    };
    let Some(seed) = natural(word.as_bytes()) else {
        return Err(2);
    };
    read_no_workers(rest, seed)
}

/// The words behind `run --seed` and its number: nothing, or that there are no workers.
fn read_no_workers(words: &[String], seed: u64) -> Result<Command, u32>
    ensures { MatchResult result
        (IsCommand (codes "run" ∷ codes "--seed" ∷ decimal seed ∷ map string_bytes words.now))
        (IsUsageFault (codes "run" ∷ codes "--seed" ∷ decimal seed ∷ map string_bytes words.now)) }
{
    let Some((option, rest)) = words.split_first() else {
        return Ok(Command::Run { workers: 0, seed });
    };
    if option.as_str() != "--workers" {
        return Err(3);
    }
    read_last_zero(rest, seed)
}

/// The words behind `run --seed`, its number and `--workers`: 0, and nothing else.
fn read_last_zero(words: &[String], seed: u64) -> Result<Command, u32>
    ensures { MatchResult result
        (IsCommand (codes "run" ∷ codes "--seed" ∷ decimal seed ∷ codes "--workers" ∷ map string_bytes words.now))
        (IsUsageFault (codes "run" ∷ codes "--seed" ∷ decimal seed ∷ codes "--workers" ∷ map string_bytes words.now)) }
{
    let Some((word, rest)) = words.split_first() else {
        return Err(4);
    };
    if workers_of(word.as_bytes()) != Some(0) {
        return Err(4);
    }
    if !rest.is_empty() {
        return Err(5);
    }
    Ok(Command::Run { workers: 0, seed })
}
