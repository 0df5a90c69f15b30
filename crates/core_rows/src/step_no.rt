//! Why an event did not come about.
use snap_base::Memory;

/// Why an event did not come about.
#[derive(Clone, Copy, Debug, PartialEq, Eq)]
pub enum StepNo {
    /// The event is not allowed: the number of the first of its conditions that is false, from 1 on.
    NotNow {
        /// The number of that condition, from 1 on.
        rule: u8,
    },
    /// There was no memory.
    Memory,
}

impl From<Memory> for StepNo {
    ghost use Rattle.std.specs.Prelude.{◌≡◌};
    ghost use Rattle.core_rows.specs.declared.step_no.StepNo.TheVariants as no;

    ghost from_gives = { λ _ e. e ≡ no.Memory };

    fn from(_error: Memory) -> StepNo {
        StepNo::Memory
    }
}
