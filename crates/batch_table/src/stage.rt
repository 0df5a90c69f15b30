//! How far a batch is on its way to be settled.
ghost use Rattle.std.specs.Prelude.{◌≡◌};
ghost use Rattle.protocol.specs.Left.{stage_left};
ghost use Rattle.protocol.specs.Words as words;
ghost use Rattle.batch_table.specs.Stages.{stage_meant};

/// How far a batch is.
#[derive(Clone, Copy, Debug, PartialEq, Eq)]
pub enum Stage {
    /// It was formed, and has not begun to commit.
    Formed,
    /// Its commit record is written, and not known to be durable.
    Committing,
    /// It is committed, durably.
    Settled,
}

impl Stage {
    /// Whether it is `Formed`.
    pub fn is_formed(self) -> bool
        ensures { result ≡ words.is_formed (stage_meant self) }
    {
        match self {
            Stage::Formed => true,
            Stage::Committing => false,
            Stage::Settled => false,
        }
    }

    /// Whether it is `Committing`.
    pub fn is_committing(self) -> bool
        ensures { result ≡ words.is_committing (stage_meant self) }
    {
        match self {
            Stage::Formed => false,
            Stage::Committing => true,
            Stage::Settled => false,
        }
    }

    /// Whether it is `Settled`.
    pub fn is_settled(self) -> bool
        ensures { result ≡ words.is_settled (stage_meant self) }
    {
        match self {
            Stage::Formed => false,
            Stage::Committing => false,
            Stage::Settled => true,
        }
    }

    /// How many events a batch at this stage may still bring, where it is not aborted. One that is formed may have to be
    /// rolled back on each of 256 actors.
    pub(crate) fn left(self) -> u64
        ensures { result ≡ stage_left (stage_meant self) }
    {
        match self {
            Stage::Formed => 260,
            Stage::Committing => 1,
            Stage::Settled => 0,
        }
    }
}
