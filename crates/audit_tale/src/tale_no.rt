//! Why events tell nothing.
use snap_base::Memory;

/// Why events tell nothing.
#[derive(Clone, Copy, Debug, PartialEq, Eq)]
pub enum TaleNo {
    /// The event of this number, from 0 on, is the first that does not meet the first clause.
    Event(u64),
    /// There was no memory.
    Memory,
}

impl From<Memory> for TaleNo {
    ghost use Rattle.std.specs.Prelude.{◌≡◌};
    ghost use Rattle.audit_tale.specs.declared.tale_no.TaleNo.TheVariants as no;

    ghost from_gives = { λ _ e. e ≡ no.Memory };

    fn from(_error: Memory) -> TaleNo {
        TaleNo::Memory
    }
}
