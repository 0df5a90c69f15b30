//! How far the commit of an ACT has come.
ghost use Rattle.std.specs.Prelude.{◌≡◌};
ghost use Rattle.protocol.specs.OnBook.{decided_status, sealed_status};
ghost use Rattle.protocol.specs.Words.{is_live_status, is_decided, is_sealed};
ghost use Rattle.act_commit.specs.Stages.{status_of_stage};

/// How far the commit of an ACT that ended has come.
#[derive(Clone, Copy)]
pub(crate) enum Stage {
    Open,
    /// It commits, as this number of the commits.
    Decided(u64),
    /// Its commit is durable, or it failed and has none.
    Sealed(u64),
}

impl Stage {
    /// What a decision makes of it: one with a value is still to be sealed.
    pub fn decided(self, number: u64, has_value: bool) -> Stage
        ensures { status_of_stage result ≡ decided_status number has_value (status_of_stage self) }
    {
        match self {
            Stage::Open => {
                if has_value {
                    Stage::Decided(number)
                } else {
                    Stage::Sealed(number)
                }
            }
            other => other,
        }
    }

    /// What a durable commit makes of it: one that is decided is sealed, and any other stays.
    pub fn sealed(self) -> Stage
        ensures { status_of_stage result ≡ sealed_status (status_of_stage self) }
    {
        match self {
            Stage::Decided(number) => Stage::Sealed(number),
            other => other,
        }
    }

    /// Whether it is `Open`.
    pub fn is_open(self) -> bool
        ensures { result ≡ is_live_status (status_of_stage self) }
    {
        match self {
            Stage::Open => true,
            Stage::Decided(_) | Stage::Sealed(_) => false,
        }
    }

    /// Whether it is `Decided`.
    pub fn is_decided(self) -> bool
        ensures { result ≡ is_decided (status_of_stage self) }
    {
        match self {
            Stage::Decided(_) => true,
            Stage::Open | Stage::Sealed(_) => false,
        }
    }

    /// Whether it is `Sealed`.
    pub fn is_sealed(self) -> bool
        ensures { result ≡ is_sealed (status_of_stage self) }
    {
        match self {
            Stage::Sealed(_) => true,
            Stage::Open | Stage::Decided(_) => false,
        }
    }
}
