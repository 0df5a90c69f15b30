//! Members in groups, each group by a number: a transaction, a batch or a tid.
ghost use Rattle.std.specs.Prelude.{◌≡◌, ℕ, ◌<◌, ◌++◌, length, OnOk};
ghost use Rattle.trace_audit.specs.Grouped.{gained, group_at};

use audit_tale::MemberTale;
use snap_base::Memory;
use std::alloc::Global;

/// Makes groups up to this one, empty where they were not there. After `Memory` nothing is said of the groups.
fn reach(alloc: Global, groups: &mut Vec<Vec<MemberTale>>, at: usize) -> Result<(), Memory>
    ensures there { OnOk result (at < length groups.new.items) }
    ensures same { OnOk result ((k : ℕ) → group_at groups.new.items k ≡ group_at groups.old.items k) }
{
    while groups.len() <= at {
        groups.push(Vec::new(alloc))?;
    }
    Ok(())
}

/// Puts a member last into a group. After `Memory` nothing is said of the groups.
pub(crate) fn put(
    alloc: Global,
    groups: &mut Vec<Vec<MemberTale>>,
    at: usize,
    member: &MemberTale,
) -> Result<(), Memory>
    ensures { OnOk result ((k : ℕ) → group_at groups.new.items k ≡ group_at groups.old.items k ++ gained at k member.now) }
{
    reach(alloc, groups, at)?;
    groups[at].push(*member)?;
    Ok(())
}
