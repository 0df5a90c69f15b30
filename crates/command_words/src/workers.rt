//! How many workers a command line asks for.

ghost use Rattle.std.specs.Prelude.{map, string_bytes};
ghost use Rattle.command_words.specs.Workers.{AskFor};

use crate::commands::Command;
use crate::words::read_words;

/// How many workers the words ask for, at most 8. Words that are no form ask for none.
pub fn workers_of(words: &[String]) -> u8
    ensures { AskFor (map string_bytes words.now) result }
{
    match read_words(words) {
        Ok(Command::Run { workers, .. }) | Ok(Command::Bench { workers, .. }) => workers,
        _ => 0,
    }
}
