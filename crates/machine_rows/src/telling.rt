//! What a core tells of actors and transactions.

use crate::likeness::MOST;
use snap_base::{ActorId, Memory, TxNo};
use snap_core::Core;
use snap_report::reply_line;
use std::alloc::Global;

/// The first fields of at most so many actors, from one on, apart by blanks.
fn fields_from(alloc: Global, core: &Core, first: u8, count: usize) -> Result<String, Memory> {
    let actors = core.tables().opening.states.len();
    let mut fields = String::new(alloc);
    let mut listed: usize = 0;
    for a in first..MOST {
        if (a as usize) < actors && listed < count {
            let field = core.state(ActorId(a as u16)).0[0];
            fields.push_str(&format!(in alloc; " {field}")?)?;
            listed += 1;
        }
    }
    Ok(fields)
}

/// Puts into `told` the first fields of the actors from `first` on, as many as are wanted, where they are not those wanted. The
/// wanted ones stand apart by blanks.
pub fn tell_fields(
    alloc: Global,
    core: &Core,
    first: u8,
    wanted: &str,
    told: &mut String,
) -> Result<(), Memory> {
    let fields = fields_from(alloc, core, first, wanted.split(' ').count())?;
    if fields.trim_start() != wanted {
        told.push_str(&format!(in alloc; "fields{fields}; ")?)?;
    }
    Ok(())
}

/// The lines of the transactions of which it is known what became of them, apart by `, `.
fn replies(alloc: Global, core: &Core) -> Result<String, Memory> {
    let mut lines = String::new(alloc);
    for n in 0..MOST as u32 {
        if let Some(verdict) = core.verdict(TxNo(n)) {
            lines.push_str(&reply_line(alloc, TxNo(n), &verdict)?)?;
        }
    }
    Ok(lines.trim_end().replace(alloc, "\n", ", ")?)
}

/// Puts into `told` the lines of the transactions of which it is known what became of them, where they are not those wanted. Lines
/// stand apart by `, `.
pub fn tell_replies(
    alloc: Global,
    core: &Core,
    wanted: &str,
    told: &mut String,
) -> Result<(), Memory> {
    let lines = replies(alloc, core)?;
    if lines.as_str() != wanted {
        told.push_str(&format!(in alloc; "replies {lines}; ")?)?;
    }
    Ok(())
}
