//! Why no batch is planned.
use snap_base::Memory;

/// Why no batch is planned.
#[derive(Clone, Copy, Debug, PartialEq, Eq)]
pub enum FormNo {
    /// No PACT waits at the holder.
    Empty,
    /// There was no memory.
    Memory,
}

impl From<Memory> for FormNo {
    ghost use Rattle.std.specs.Prelude.{◌≡◌};
    ghost use Rattle.token_ring.specs.declared.form_no.FormNo.TheVariants as no;

    ghost from_gives = { λ _ e. e ≡ no.Memory };

    fn from(_error: Memory) -> FormNo {
        FormNo::Memory
    }
}
