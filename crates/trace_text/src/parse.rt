//! The events of a trace.
ghost use Rattle.std.specs.Prelude.{◌<◌, ◌^◌, length, MatchResult};
ghost use Rattle.trace_text.specs.Traces.{IsTrace, IsTraceNo};

use crate::TraceNo;
use crate::lines::{event_of, next_line};
use core_events::Event;
use std::alloc::Global;

/// The events whose lines a text has, in their order; the last line may lack its line feed. Else the first
/// line that is of no event: its name is none, or it has not its numbers as they are printed, or one of them
/// is beyond its type.
pub fn parse_trace(alloc: Global, text: &str) -> Result<Vec<Event>, TraceNo>
    requires { length text.now < 2 ^ 32 }
    ensures { MatchResult result (λ v. IsTrace text.now v.items) (λ why. IsTraceNo text.now why) }
{
    parse_events(alloc, text.as_bytes())
}

/// The events whose lines a text of any bytes has, in their order; the last line may lack its line feed. Else
/// the first line that is of no event, whatever the bytes behind it are. Linear in the bytes.
pub fn parse_events(alloc: Global, text: &[u8]) -> Result<Vec<Event>, TraceNo>
    requires { length text.now < 2 ^ 32 }
    ensures { MatchResult result (λ v. IsTrace text.now v.items) (λ why. IsTraceNo text.now why) }
{
    let mut events = Vec::new(alloc);
    let mut rest = text;
    let mut line: u32 = 0;
    while !rest.is_empty() {
        line += 1;
        let (first, behind) = next_line(rest);
        let Some(event) = event_of(first) else {
            return Err(TraceNo::Line { line });
        };
        events.push(event)?;
        rest = behind;
    }
    Ok(events)
}
