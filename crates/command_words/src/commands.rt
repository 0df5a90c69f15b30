//! What a command line may ask for.

/// What the words of a command line ask for.
#[derive(Clone, Copy, Debug, PartialEq, Eq)]
pub enum Command {
    /// Runs the work text: with no workers by the schedule of the seed, and else with so many workers, at most 8.
    Run { workers: u8, seed: u64 },
    /// Prints what the logs recover to.
    Recover,
    /// Makes those logs in use that are of format 1 ones of format 2.
    Migrate,
    /// Writes a checkpoint in place of the records that the logs in use hold.
    Compact,
    /// Reads the logs so many times, 2 to 1,000, and prints what a follower of them has then.
    Follow { rounds: u16 },
    /// Says whether the input is the papers of a run.
    Audit,
    /// Prints the text of so many transactions that the seed draws.
    Gen { count: u32, seed: u64 },
    /// Runs that text, alone or with so many workers, at most 8, and prints its summary.
    Bench { count: u32, seed: u64, workers: u8 },
}
