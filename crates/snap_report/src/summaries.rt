//! A run's summary, as a line of JSON.
ghost use Rattle.std.specs.Int.{w128};
ghost use Rattle.std.specs.Prelude.{◌≡◌, FitsSigned, IfOk, OnOk, string_bytes};
ghost use Rattle.serde_json.specs.Data.{number, unsigned, put as with_member};
ghost use Rattle.serde_json.specs.View.{members_view, view};
ghost use Rattle.snap_report.specs.Summaries.{summary_data, summary_text};

use serde_json::{Map, Value, put};
use snap_base::Memory;
use std::alloc::Global;

/// What a run comes to.
#[derive(Clone, Copy, Debug, PartialEq, Eq)]
pub struct Summary {
    /// How many transactions the text has.
    pub transactions: u32,
    /// How many of them committed.
    pub committed: u32,
    /// How many had another reply.
    pub aborted: u32,
    /// How many batches were settled.
    pub batches: u32,
    /// How many events the run took.
    pub events: u64,
    /// The sum of all fields of all actors.
    pub total: i128,
}

/// A run's summary, as a line of JSON.
pub fn summary_line(alloc: Global, summary: &Summary) -> Result<String, Memory>
    ensures { IfOk result (λ s. string_bytes s ≡ summary_text summary.now) }
{
    let value = value_of(alloc, summary)?;
    let mut line = value.to_string(alloc)?;
    line.push_str("\n")?;
    Ok(line)
}

/// The summary as JSON. The sum is a string, as it may be beyond the numbers that every reader of JSON takes.
fn value_of(alloc: Global, summary: &Summary) -> Result<Value, Memory>
    ensures data { IfOk result (λ v. view v ≡ summary_data summary.now) }
    ensures range { IfOk result (λ v. FitsSigned w128 summary.now.total) }
{
    let total = summary.total;
    let total = format!(in alloc; "{total}")?;
    let mut members = Map::new(alloc);
    put_number(alloc, &mut members, "aborted", summary.aborted as u64)?;
    put_number(alloc, &mut members, "batches", summary.batches as u64)?;
    put_number(alloc, &mut members, "committed", summary.committed as u64)?;
    put_number(alloc, &mut members, "events", summary.events)?;
    put(&mut members, alloc, "total", Value::String(total))?;
    put_number(
        alloc,
        &mut members,
        "transactions",
        summary.transactions as u64,
    )?;
    Ok(Value::Object(members))
}

/// Adds a member that is a number.
fn put_number(
    alloc: Global,
    members: &mut Map<String, Value>,
    key: &str,
    value: u64,
) -> Result<(), Memory>
    ensures { OnOk result (members_view members.new.entries ≡ with_member key.now (number (unsigned value)) (members_view members.old.entries)) }
{
    put(members, alloc, key, Value::from(value))?;
    Ok(())
}
