//! Lists without their checkpoint.
ghost use Rattle.std.specs.Prelude.{◌≡◌, IfOk};
ghost use Rattle.log_compact.specs.Points.{IsPlain};
ghost use Rattle.log_compact.specs.Sets.{HasNoStray, IsFirstList, plain_lists, point_in, without_point};
ghost use Rattle.std.specs.List.{AllByRecursion};

use crate::copies::{add_copies, copy_list};
use snap_base::{Memory, Sequence};
use std::alloc::Global;
use txn_records::Record;

/// Copies of the lists without their checkpoint: Genesis has its states.
pub(crate) fn plain_copies(
    alloc: Global,
    lists: &[Sequence<Record>],
) -> Result<Sequence<Sequence<Record>>, Memory>
    requires { HasNoStray lists.now }
    ensures { IfOk result (λ plain. plain ≡ plain_lists lists.now) }
{
    let mut plain = Sequence::new(alloc);
    if lists.len() == 0 {
        return Ok(plain);
    }
    let first = first_copy(alloc, lists[0].as_slice())?;
    plain.push(first)?;
    for log in 1..lists.len() {
        let next = plain_copy(alloc, lists[log].as_slice())?;
        plain.push(next)?;
    }
    Ok(plain)
}

/// A copy of the first list without its checkpoint.
fn first_copy(alloc: Global, rs: &[Record]) -> Result<Sequence<Record>, Memory>
    requires { IsFirstList rs.now (point_in rs.now) }
    ensures { IfOk result (λ plain. plain ≡ without_point rs.now (point_in rs.now)) }
{
    let Some(Record::Genesis { logs, .. }) = rs.get(0) else {
        return plain_copy(alloc, rs);
    };
    let Some(Record::Checkpoint { states, .. }) = rs.get(1) else {
        return plain_copy(alloc, rs);
    };
    let mut plain = Sequence::new(alloc);
    let states = copy_list(alloc, states)?;
    plain.push(Record::Genesis {
        logs: *logs,
        states,
    })?;
    add_copies(alloc, &mut plain, &rs[2..])?;
    Ok(plain)
}

/// A copy of a list that has no checkpoint.
fn plain_copy(alloc: Global, rs: &[Record]) -> Result<Sequence<Record>, Memory>
    ensures { IfOk result (λ copy. copy ≡ rs.now) }
{
    let mut copy = Sequence::new(alloc);
    add_copies(alloc, &mut copy, rs)?;
    Ok(copy)
}
