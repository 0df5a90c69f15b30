//! The rows that change the ring alone.
ghost use Rattle.std.specs.Prelude.{◌≡◌, OnOk, OnErr, IfErr};
ghost use Rattle.protocol.specs.Events.{Pass};
ghost use Rattle.core_rows.specs.Showing.{ShowsRing};
ghost use Rattle.core_rows.specs.Taken.{IsOfRun, IsTaken, IsRefusal, IsNo, IsRule};

use crate::StepNo;
use crate::asking::first_no;
use crate::laws::rows_may;
use token_ring::Ring;

/// Pass: which of its conditions is the first false one, or 0.
pub fn pass_refusal<C>(ring: &Ring, c: u8) -> u8
    ensures { IsRefusal {C = C} (Pass c) (λ w s. ShowsRing ring.now s) result }
{
    rows_may::<C>();
    let count = ring.coordinators();
    let next = (ring.holder() + 1) % count;
    let idle_here = ring.is_holder_idle();
    let idle = ring.is_idle();
    first_no(&[c == next, idle_here, !idle])
}

/// Pass: the token goes to coordinator `c`.
pub fn pass<C>(ring: &mut Ring, c: u8) -> Result<(), StepNo>
    requires { IsOfRun {C = C} (λ w s. ShowsRing ring.old s) }
    ensures ok { OnOk result (IsTaken {C = C} (Pass c) (λ w s. ShowsRing ring.old s) (λ w s. ShowsRing ring.new s)) }
    ensures no { IfErr result (IsNo {C = C} (Pass c) (λ w s. ShowsRing ring.old s)) }
    ensures rule { IfErr result IsRule }
    ensures unchanged { OnErr result (ring.new ≡ ring.old) }
{
    rows_may::<C>();
    let rule = pass_refusal::<C>(ring, c);
    if rule != 0 {
        return Err(StepNo::NotNow { rule });
    }
    ring.pass();
    Ok(())
}
